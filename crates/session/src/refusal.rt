// Why a session refuses a call.
ghost use Rattle.std.specs.Prelude.{◌≡◌, Some, None, cond};
ghost use Rattle.symbols.specs.Answers.{answered};
ghost use Rattle.session.specs.declared.refusal.Refusal.TheVariants.{NoWord};
ghost use Rattle.session.specs.Refusals.{refusal_number, stored, stated};

use placings::mode::NoMode;
use statements::refusal::StatementRefusal;
use stores::refusal::StoreRefusal;
use thiserror::Error;

#[derive(Clone, Copy, PartialEq, Eq, Debug, Error)]
pub enum Refusal {
    #[error("END is next")]
    AtEnd = 21,
    #[error("the record area takes no more entries")]
    RecordFull = 22,
    #[error("an area is too short")]
    ShortArea = 23,
    #[error("a `$` that yields no name or label of the sheet")]
    NoName = 24,
    #[error("the trials of the scan are more than the allowance")]
    Spent = 25,
    #[error("a string or all strings together would be too long")]
    TooLong = 26,
    #[error("a number out of its range")]
    OutOfRange = 27,
    #[error("a mode other than ANCHOR and UNANCHOR")]
    NoWord = 28,
    #[error("tables that do not fit")]
    Unfit = 29,
}

impl Refusal {
    // The number by which the outside knows the refusal.
    pub fn number(self) -> u8
        ensures { result ≡ refusal_number self }
    {
        self as u8
    }

    // Refuses, unless something holds.
    pub(crate) fn unless(self, holds: bool) -> Result<(), Refusal>
        ensures { result ≡ answered (cond holds None (Some self)) tt }
    {
        if holds { Ok(()) } else { Err(self) }
    }
}

impl From<NoMode> for Refusal {
    ghost from_gives = { λ _ r. r ≡ NoWord };

    fn from(_e: NoMode) -> Refusal {
        Refusal::NoWord
    }
}

impl From<StoreRefusal> for Refusal {
    ghost from_gives = { λ e r. r ≡ stored e };

    fn from(e: StoreRefusal) -> Refusal {
        match e {
            StoreRefusal::ShortArea => Refusal::ShortArea,
            StoreRefusal::TooLong => Refusal::TooLong,
            StoreRefusal::OutOfRange => Refusal::OutOfRange,
        }
    }
}

impl From<StatementRefusal> for Refusal {
    ghost from_gives = { λ e r. r ≡ stated e };

    fn from(e: StatementRefusal) -> Refusal {
        match e {
            StatementRefusal::ShortArea => Refusal::ShortArea,
            StatementRefusal::NoName => Refusal::NoName,
            StatementRefusal::Spent => Refusal::Spent,
            StatementRefusal::TooLong => Refusal::TooLong,
            StatementRefusal::OutOfRange => Refusal::OutOfRange,
        }
    }
}
