// The first `[ID]` of a log line: a scan for "[" *ID* "]".
use anyhow::Context;
use placings::mode::Mode;
use scan::answer::{ScanRefusal, Scanned, Verdict};
use scan::element::{Element, Source, Variable};
use scan::scan;
use symbols::kind::Kind;
use symbols::log::LogChars;
use symbols::log_char::LogChar;
use texts::Text;

const ALLOWANCE: usize = 1_000_000;

// The constants of the pattern.
#[derive(Clone, Copy)]
pub struct Brackets {
    pub opening: LogChar,
    pub closing: LogChar,
}

impl Brackets {
    pub fn new() -> anyhow::Result<Brackets> {
        Ok(Brackets {
            opening: LogChars.read(b"[")?,
            closing: LogChars.read(b"]")?,
        })
    }
}

fn scan_line(line: &[LogChar], brackets: &Brackets) -> Result<Scanned, ScanRefusal> {
    let constants = [brackets.opening, brackets.closing];
    let elements = [
        Element::Compared(Source::Constant { from: 0, to: 1 }),
        Element::Free(Variable::Arbitrary),
        Element::Compared(Source::Constant { from: 1, to: 2 }),
    ];
    scan(
        &LogChars,
        line,
        &constants,
        &elements,
        Mode::Unanchored,
        ALLOWANCE,
    )
}

// Scans a line, prints the verdict, and gives the ID, which is the part of the second element.
pub fn find_id<'a>(
    rt: &HostRuntime,
    number: u64,
    line: &'a [LogChar],
    brackets: &Brackets,
) -> anyhow::Result<Option<&'a [LogChar]>> {
    let scanned = match scan_line(line, brackets) {
        Ok(scanned) => scanned,
        Err(refusal) => {
            println!(rt; "{number} refused {}", refusal.number())?;
            return Ok(None);
        }
    };
    let trials = scanned.trials;
    let Verdict::Success(placed) = scanned.verdict else {
        println!(rt; "{number} F trials {trials}")?;
        return Ok(None);
    };
    let start = placed.start;
    let [a, b, c, ..] = placed.ends;
    let id = line.get(a..b).context("a placing outside its line")?;
    println!(rt;
        "{number} S {start} {a} {b} {c} trials {trials} ID={}",
        Text {
            kind: &LogChars,
            symbols: id,
        }
    )?;
    Ok(Some(id))
}
