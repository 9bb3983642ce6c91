// What can be wrong with the characters of symbols, and with an area that is to take symbols or characters.
ghost use Rattle.std.specs.Prelude.{◌≡◌};
ghost use Rattle.symbols.specs.Kinds.{fault_number, area_number};
ghost use Rattle.symbols.specs.declared.fault.TextRefusal.TheVariants.{Fault, Area};

use thiserror::Error;

// Why characters are no symbols: a text that no whole number of symbols fills, or characters that mean no symbol.
#[derive(Clone, Copy, PartialEq, Eq, Debug, Error)]
pub enum SymbolFault {
    #[error("the text's length is no multiple of the kind's width")]
    NotWhole = 1,
    #[error("the characters mean no symbol")]
    NoMeaning = 2,
}

// Each enum of numbers has a `number` of its own: only the enum itself can be cast, so a trait would not hold the body.
impl SymbolFault {
    pub fn number(self) -> u8
        ensures { result ≡ fault_number self }
    {
        self as u8
    }
}

// An area that cannot take what is to be written to it.
#[derive(Clone, Copy, PartialEq, Eq, Debug, Error)]
pub enum AreaRefusal {
    #[error("the area is too short")]
    ShortArea = 23,
}

impl AreaRefusal {
    pub fn number(self) -> u8
        ensures { result ≡ area_number self }
    {
        self as u8
    }
}

// A symbol fault of a text, at a place that counts its characters from 0.
#[derive(Clone, Copy, PartialEq, Eq, Debug, Error)]
#[error("{fault}, at place {at}")]
pub struct TextFault {
    pub fault: SymbolFault,
    pub at: usize,
}

// Why a text is not read into an area.
#[derive(Clone, Copy, PartialEq, Eq, Debug, Error)]
pub enum TextRefusal {
    #[error("{0}")]
    Fault(TextFault),
    #[error("{0}")]
    Area(AreaRefusal),
}

impl From<TextFault> for TextRefusal {
    ghost from_gives = { λ e r. r ≡ Fault e };

    fn from(e: TextFault) -> TextRefusal {
        TextRefusal::Fault(e)
    }
}

impl From<AreaRefusal> for TextRefusal {
    ghost from_gives = { λ e r. r ≡ Area e };

    fn from(e: AreaRefusal) -> TextRefusal {
        TextRefusal::Area(e)
    }
}
