// A bus event: who sent, in which phase of an exchange, and what.
ghost use Rattle.std.specs.Prelude.{◌≡◌, true};
ghost use Rattle.symbols.specs.EventRange.{in_range};

use crate::fault::SymbolFault;
use crate::hex::hex_digit;
use std::fmt;

// An exchange begins, ends, or goes on.
#[derive(Clone, Copy, PartialEq, Eq, Debug)]
pub enum Phase {
    Begin,
    End,
    Point,
}

impl TryFrom<u8> for Phase {
    type Error = SymbolFault;

    ghost use Rattle.symbols.specs.Kinds.{read_as};
    ghost use Rattle.symbols.specs.Bus.{phase_meant};
    ghost use Rattle.std.specs.Prelude.{◌≡◌};

    ghost try_from_gives = { λ c phase. phase ≡ read_as (phase_meant c) };

    fn try_from(c: u8) -> Result<Phase, SymbolFault> {
        match c {
            b'(' => Ok(Phase::Begin),
            b')' => Ok(Phase::End),
            b'.' => Ok(Phase::Point),
            _ => Err(SymbolFault::NoMeaning),
        }
    }
}

impl From<Phase> for u8 {
    ghost use Rattle.symbols.specs.Bus.{phase_char};
    ghost use Rattle.std.specs.Prelude.{◌≡◌};

    ghost from_gives = { λ phase c. c ≡ phase_char phase };

    fn from(phase: Phase) -> u8 {
        match phase {
            Phase::Begin => b'(',
            Phase::End => b')',
            Phase::Point => b'.',
        }
    }
}

#[derive(Clone, Copy, PartialEq, Eq, Debug)]
pub struct BusEvent {
    pub(crate) identifier: u16,
    pub(crate) phase: Phase,
    pub(crate) value: u16,
    ghost ranged: { in_range identifier value ≡ true },
}

impl BusEvent {
    ghost use Rattle.std.specs.Prelude.{◌≡◌};
    ghost use Rattle.symbols.specs.Bus.{bus_chars};

    // Its eight characters.
    pub(crate) fn characters(self) -> [u8; 8]
        ensures { result ≡ bus_chars self }
    {
        let identifier = self.identifier;
        let value = self.value;
        [
            hex_digit(identifier / 256),
            hex_digit(identifier / 16 % 16),
            hex_digit(identifier % 16),
            u8::from(self.phase),
            hex_digit(value / 4096),
            hex_digit(value / 256 % 16),
            hex_digit(value / 16 % 16),
            hex_digit(value % 16),
        ]
    }
}

impl fmt::Display for BusEvent {
    ghost use Rattle.std.specs.Prelude.{Some};
    ghost use Rattle.symbols.specs.Bus.{bus_chars};

    ghost output = { λ x. Some (bus_chars x) };

    fn fmt<W: fmt::Write>(&self, f: &mut fmt::Formatter<W>) -> fmt::Result {
        for c in self.characters() {
            write!(f, "{}", c as char)?;
        }
        Ok(())
    }
}
