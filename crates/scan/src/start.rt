// The starts of a scan, from the first to the last.
ghost use Rattle.std.specs.Prelude.{◌≡◌, ◌≤◌, length, Some};
ghost use Rattle.placings.specs.Enumeration.{scanned};
ghost use Rattle.scan.specs.Answers.{returned};
ghost use Rattle.scan.specs.Elements.{pattern};
ghost use Rattle.scan.specs.Ends.{Next};
ghost use Rattle.scan.specs.Starts.{last_start, pattern_front, head_of, stops_at, Everywhere};

use crate::answer::{ScanRefusal, Scanned, Verdict};
use crate::element::{Element, Source};
use crate::row::Row;
use crate::search::Search;
use placings::mode::Mode;
use symbols::kind::Kind;

// The last start.
fn final_start(mode: Mode, n: usize) -> usize
    ensures { result ≡ last_start mode n }
{
    match mode {
        Mode::Unanchored => n,
        Mode::Anchored => 0,
    }
}

impl<K: Kind> Search<'_, K> {
    // The first symbol of the pattern, where its first element is a constant.
    fn front(&self) -> Option<K::Symbol>
        ensures { result ≡ pattern_front self.now.constants.now self.now.elements.now }
    {
        let Element::Compared(source) = self.elements[0] else {
            return None;
        };
        let Source::Constant { from, to } = source else {
            return None;
        };
        self.constants[from..to].first().copied()
    }

    // The symbol by which starts are looked for: each other start would fail at the first element.
    fn head(&self, mode: Mode) -> Option<K::Symbol>
        ensures { result ≡ head_of mode self.now.constants.now self.now.elements.now }
    {
        match mode {
            Mode::Unanchored => self.front(),
            Mode::Anchored => None,
        }
    }

    // The first place from `from` on where a symbol stands.
    fn find(&self, symbol: K::Symbol, from: usize) -> Option<usize>
        requires { from ≤ length self.now.subject.now }
        ensures { Next (stops_at K.Kind.equal self.now.subject.now (Some symbol)) (length self.now.subject.now) from result }
    {
        let (kind, rest) = (self.kind, &self.subject[from..]);
        let passed = rest.iter().position(|next| kind.same(*next, symbol))?;
        Some(from + passed)
    }

    // The first start from `from` to `last` at which the scan stops.
    fn next_start(&self, head: Option<K::Symbol>, from: usize, last: usize) -> Option<usize>
        requires { (from ≤ last) × (Everywhere head last (length self.now.subject.now)) }
        ensures { Next (stops_at K.Kind.equal self.now.subject.now head) last from result }
    {
        match head {
            Some(symbol) => self.find(symbol, from),
            None => Some(from),
        }
    }

    // Tries each start with so many trials. Those at which the first constant cannot begin are passed over, and count as a trial each.
    pub(crate) fn starts(&self, mode: Mode, allowance: usize) -> Result<Scanned, ScanRefusal>
        ensures { result ≡ returned (scanned K.Kind.equal (K.Kind.acts self.now.kind.now) mode self.now.subject.now (pattern self.now.constants.now self.now.elements.now) allowance) }
    {
        let last = final_start(mode, self.subject.len());
        let head = self.head(mode);
        let mut rows = [Row { begin: 0, end: 0 }; 8];
        let mut left = allowance;
        let mut start: usize = 0;
        loop {
            let stop = self.next_start(head, start, last);
            let passed = stop.unwrap_or(last) - start;
            if left <= passed {
                return Err(ScanRefusal::Spent);
            }
            left -= passed + 1;
            let Some(at) = stop else {
                return Ok(Scanned {
                    verdict: Verdict::Failure,
                    trials: allowance - left,
                });
            };
            let Scanned { verdict, trials } = self.from_start(&mut rows, at, left)?;
            left -= trials;
            match verdict {
                Verdict::Failure if at < last => start = at + 1,
                _ => {
                    return Ok(Scanned {
                        verdict,
                        trials: allowance - left,
                    });
                }
            }
        }
    }
}
