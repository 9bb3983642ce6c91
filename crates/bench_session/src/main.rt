// The bench: reads a sheet and a line of log characters, carries the sheet out over the line, and prints the record and the names.
#![tactic(auto)]

mod input;
mod show;
mod stop;
mod work;

use crate::input::sheet_end;
use crate::show::{show_entries, show_names};
use crate::stop::Stop;
use crate::work::{STEPS, work};
use lines::text::Lines;
use load::load;
use rows::row::blank_row;
use session::entry::Entry;
use session::session::Session;
use slots::SlotStore;
use std::io::Read;
use symbols::kind::Kind;
use symbols::log::LogChars;
use symbols::log_char::LogChar;
use symbols::text::read_text;
use tables::row::Row;
use tables::sheet::{Sheet, Tables};

const NAMES: usize = 64;

const LONGEST: usize = 1024;

// Carries a sheet out over a line, and prints the record, why it stopped, and the names.
fn carry_out<'a>(
    rt: &HostRuntime,
    sheet: Sheet,
    rows: &'a [Row],
    constants: &'a [LogChar],
    line: &[LogChar],
    blank: LogChar,
) -> anyhow::Result<()> {
    let mut kept = vec![in rt.alloc(); blank; NAMES * LONGEST]?;
    let mut string = vec![in rt.alloc(); blank; LONGEST]?;
    let mut work_constants = vec![in rt.alloc(); blank; 8 * LONGEST]?;
    let mut contents = vec![in rt.alloc(); blank; LONGEST]?;
    let mut entries = vec![in rt.alloc(); Entry::default(); STEPS + 1]?;
    let store = SlotStore::new(kept.as_mut_slice(), NAMES, LONGEST);
    let mut session = Session::open(LogChars, sheet, rows, constants, store);
    let outcome = work(
        &mut session,
        Tables {
            sheet: &sheet,
            rows,
            constants,
        },
        line,
        entries.as_mut_slice(),
        string.as_mut_slice(),
        work_constants.as_mut_slice(),
        contents.as_mut_slice(),
    );
    let store = session.close();
    match outcome {
        Err(refusal) => println!(rt; "{}", Stop::CallRefused(refusal))?,
        Ok(outcome) => {
            let recorded = outcome.recorded.min(entries.len());
            show_entries(rt, &entries.as_slice()[..recorded])?;
            println!(rt; "{}", outcome.stop)?;
            show_names(rt, &sheet.names, &store, string.as_mut_slice())?;
        }
    }
    Ok(())
}

// The line behind the sheet, null where there is none.
fn line_behind(text: &[u8]) -> &[u8] {
    Lines::of(text).next().map_or(&[], |line| line.characters)
}

fn run(rt: &HostRuntime) -> anyhow::Result<()> {
    let mut input = Vec::new(rt.alloc());
    rt.stdin().read_to_end(&mut input)?;
    let text = input.as_slice();
    let end = sheet_end(text).min(text.len());
    let line = line_behind(&text[end..]);
    let blank = LogChars.read(b" ")?;
    let mut rows = vec![in rt.alloc(); blank_row(); 128]?;
    let mut constants = vec![in rt.alloc(); blank; 4096]?;
    let loaded = load(
        &LogChars,
        &text[..end],
        rows.as_mut_slice(),
        constants.as_mut_slice(),
    );
    let sheet = match loaded {
        Ok(sheet) => sheet,
        Err(refusal) => {
            println!(rt; "{}", Stop::SheetRefused(refusal.cause))?;
            return Ok(());
        }
    };
    let mut symbols = vec![in rt.alloc(); blank; line.len()]?;
    let Ok(count) = read_text(&LogChars, line, symbols.as_mut_slice()) else {
        println!(rt; "{}", Stop::LineRefused)?;
        return Ok(());
    };
    let count = count.min(symbols.len());
    carry_out(
        rt,
        sheet,
        rows.as_slice(),
        constants.as_slice(),
        &symbols.as_slice()[..count],
        blank,
    )
}

fn main(rt: HostRuntime) -> anyhow::Result<()> {
    run(&rt)
}
