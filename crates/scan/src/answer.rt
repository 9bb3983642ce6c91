// What a scan answers.
ghost use Rattle.std.specs.Prelude.{◌≡◌, take};
ghost use Rattle.scan.specs.Answers.{refusal_number};

use std::error::Error;
use std::fmt;

// A placing: its start, and the end of each of `count` elements; the other ends are 0. It has room for the ends of eight elements, since a library takes no memory of its own.
#[derive(Clone, Copy, PartialEq, Eq, Debug)]
pub struct Placed {
    pub start: usize,
    pub count: usize,
    pub ends: [usize; 8],
}

impl Placed {
    // The ends of the elements.
    pub fn ends(&self) -> &[usize]
        ensures { result.now ≡ take self.now.count self.now.ends }
    {
        let count = self.count.min(8);
        &self.ends[..count]
    }
}

// S, with the first placing; or F, since there is none.
#[derive(Clone, Copy, PartialEq, Eq, Debug)]
pub enum Verdict {
    Success(Placed),
    Failure,
}

// The verdict, and how many trials it took.
#[derive(Clone, Copy, PartialEq, Eq, Debug)]
pub struct Scanned {
    pub verdict: Verdict,
    pub trials: usize,
}

// Why a scan gives no verdict: its trials are more than it was allowed, or what it was given is out of range.
#[derive(Clone, Copy, PartialEq, Eq, Debug)]
pub enum ScanRefusal {
    Spent = 25,
    OutOfRange = 27,
}

impl ScanRefusal {
    pub fn number(self) -> u8
        ensures { result ≡ refusal_number self }
    {
        self as u8
    }
}

impl fmt::Display for ScanRefusal {
    fn fmt<W: fmt::Write>(&self, f: &mut fmt::Formatter<W>) -> fmt::Result {
        match self {
            ScanRefusal::Spent => write!(f, "the trials exceed the allowance"),
            ScanRefusal::OutOfRange => write!(f, "out of range"),
        }
    }
}

impl Error for ScanRefusal {}
