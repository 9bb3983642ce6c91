// What can be wrong with a sheet, where, and which fault of a line counts.
ghost use Rattle.std.specs.Prelude.{◌≡◌};
ghost use Rattle.sheets.specs.Causes.{number, layer};
ghost use Rattle.sheets.specs.Faults.{before, least, nowhere, symbol_fault, refused_at};

use std::error::Error;
use std::fmt;
use symbols::fault::SymbolFault;

// Why a sheet is refused.
#[derive(Clone, Copy, Debug, PartialEq, Eq, Drop)]
pub enum Cause {
    TextLong,
    LineLong,
    BadCode,
    NoStatement,
    LongName,
    Symbol(SymbolFault),
    TooMany,
    SecondLabel,
    UnknownLabel,
    End,
    ShortArea,
}

impl Cause {
    // The number by which the outside knows the cause.
    pub fn number(self) -> u8
        ensures { result ≡ number self }
    {
        match self {
            Cause::TextLong => 1,
            Cause::LineLong => 2,
            Cause::BadCode => 3,
            Cause::NoStatement => 4,
            Cause::LongName => 5,
            Cause::Symbol(_) => 6,
            Cause::TooMany => 7,
            Cause::SecondLabel => 8,
            Cause::UnknownLabel => 9,
            Cause::End => 10,
            Cause::ShortArea => 11,
        }
    }

    // 1 for symbols, 2 for the form of a line, 3 for the sheet as a whole.
    pub fn layer(self) -> u8
        ensures { result ≡ layer self }
    {
        match self {
            Cause::Symbol(_) => 1,
            Cause::LineLong
            | Cause::BadCode
            | Cause::NoStatement
            | Cause::LongName
            | Cause::TooMany => 2,
            _ => 3,
        }
    }
}

// What is wrong, in plain words.
impl fmt::Display for Cause {
    fn fmt<W: fmt::Write>(&self, f: &mut fmt::Formatter<W>) -> fmt::Result {
        f.write_str(match self {
            Cause::TextLong => "the text is longer than 16,384 characters",
            Cause::LineLong => "the line is longer than 120 characters",
            Cause::BadCode => "this character may not stand in a sheet",
            Cause::NoStatement => "no statement goes on like this",
            Cause::LongName => "a name or a label has at most 16 characters",
            Cause::Symbol(_) => "the literal is not read as symbols",
            Cause::TooMany => "this is one too many",
            Cause::SecondLabel => "another statement has this label",
            Cause::UnknownLabel => "no statement has this label",
            Cause::End => "END's line is missing, or something follows it",
            Cause::ShortArea => "the areas of the host are too short",
        })
    }
}

impl Error for Cause {}

// A symbol fault, with the column of its symbol in the line.
#[derive(Clone, Copy, Debug, PartialEq, Eq, Drop)]
pub struct SymbolAt {
    pub column: usize,
    pub fault: SymbolFault,
}

// A fault of a line: its column, counted from 1, and its cause.
#[derive(Clone, Copy, Debug, PartialEq, Eq, Drop)]
pub struct Fault {
    pub column: usize,
    pub cause: Cause,
}

// A fault with the line, counted from 1, that has it.
#[derive(Clone, Copy, Debug, PartialEq, Eq, Drop)]
pub struct LineFault {
    pub line: usize,
    pub fault: Fault,
}

// Why a sheet is refused, and where; line and column are 0 where no place is at fault.
#[derive(Clone, Copy, Debug, PartialEq, Eq, Drop)]
pub struct Refusal {
    pub line: usize,
    pub column: usize,
    pub cause: Cause,
}

impl Refusal {
    // A refusal that no place is at fault for.
    pub fn nowhere(cause: Cause) -> Refusal
        ensures { result ≡ nowhere cause }
    {
        Refusal {
            line: 0,
            column: 0,
            cause,
        }
    }
}

impl From<SymbolAt> for Fault {
    ghost from_gives = { λ e r. r ≡ symbol_fault e };

    fn from(e: SymbolAt) -> Fault {
        Fault {
            column: e.column,
            cause: Cause::Symbol(e.fault),
        }
    }
}

impl From<LineFault> for Refusal {
    ghost from_gives = { λ e r. r ≡ refused_at e };

    fn from(e: LineFault) -> Refusal {
        Refusal {
            line: e.line,
            column: e.fault.column,
            cause: e.fault.cause,
        }
    }
}

// Whether a fault counts before another: the smaller column, then the smaller number.
pub fn is_before(f: Fault, g: Fault) -> bool
    ensures { result ≡ before f g }
{
    (f.column, f.cause.number()) < (g.column, g.cause.number())
}

// The fault of two that counts.
pub fn least(a: Option<Fault>, b: Option<Fault>) -> Option<Fault>
    ensures { result ≡ least a b }
{
    match (a, b) {
        (Some(f), Some(g)) => Some(if is_before(g, f) { g } else { f }),
        (None, one) | (one, None) => one,
    }
}
