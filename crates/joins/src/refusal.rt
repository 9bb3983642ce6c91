// Why the operands of a right side give no new contents.
use std::error::Error;
use std::fmt;

// A `$` yields no name of the sheet; the contents do not fit their area.
#[derive(Clone, Copy, PartialEq, Eq, Debug)]
pub enum JoinRefusal {
    NoName,
    TooLong,
}

impl fmt::Display for JoinRefusal {
    fn fmt<W: fmt::Write>(&self, f: &mut fmt::Formatter<W>) -> fmt::Result {
        match self {
            JoinRefusal::NoName => write!(f, "`$` yields no name of the sheet"),
            JoinRefusal::TooLong => write!(f, "a written string would be too long"),
        }
    }
}

impl Error for JoinRefusal {}
