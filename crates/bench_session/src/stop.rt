// Why the bench stopped.
use session::refusal::Refusal;
use sheets::fault::Cause;
use std::fmt;

// END was reached, the steps were used up before it, the sheet or the line was refused, or a call of the session.
#[derive(Clone, Copy)]
pub enum Stop {
    AtEnd,
    StepsUsed,
    SheetRefused(Cause),
    LineRefused,
    CallRefused(Refusal),
}

impl Stop {
    // Why the work stopped at a refused step. A sheet that starts at END has nothing to carry out, which is a refusal.
    // The record takes an entry for each step and one more, so that it is full just where the steps are used up.
    pub fn at_step(refusal: Refusal, steps: usize) -> Stop {
        match refusal {
            Refusal::AtEnd if steps > 0 => Stop::AtEnd,
            Refusal::RecordFull => Stop::StepsUsed,
            refusal => Stop::CallRefused(refusal),
        }
    }
}

impl fmt::Display for Stop {
    fn fmt<W: fmt::Write>(&self, f: &mut fmt::Formatter<W>) -> fmt::Result {
        let number = match self {
            Stop::AtEnd => 0,
            Stop::StepsUsed => 30,
            Stop::SheetRefused(cause) => cause.number(),
            Stop::LineRefused => 6,
            Stop::CallRefused(refusal) => refusal.number(),
        };
        write!(f, "STOP {number}")
    }
}
