// What each character of a line is part of.
ghost use Rattle.std.specs.Prelude.{◌≡◌};
ghost use Rattle.lines.specs.Roles.{role_of};

use crate::reading::{Place, Reading, Side, VariableReading, Way};

// An item of a line, or a part of one; Between has the blanks and the signs that tell nothing further.
#[derive(Clone, Copy, Debug, PartialEq, Eq, Drop)]
pub enum Role {
    Between,
    Label,
    Start,
    Reference,
    Element,
    LiteralElement,
    Star,
    Variable,
    Group,
    Length,
    Equal,
    Operand,
    LiteralOperand,
    Both,
    OnS,
    OnF,
}

// The role of the character that led to a reading.
impl From<Reading> for Role {
    ghost from_gives = { λ q r. r ≡ role_of q };

    fn from(reading: Reading) -> Role {
        match reading {
            Reading::Label(_) => Role::Label,
            Reading::Start | Reading::StartDot => Role::Start,
            Reading::Dollar(place) | Reading::Named(place) | Reading::Dotted(place) => match place {
                Place::Reference => Role::Reference,
                Place::Element => Role::Element,
                Place::Operand => Role::Operand,
                Place::Target(Way::Both) => Role::Both,
                Place::Target(Way::FirstS | Way::SecondS) => Role::OnS,
                Place::Target(Way::FirstF | Way::SecondF) => Role::OnF,
            },
            Reading::Literal(Side::Pattern) | Reading::Closed(Side::Pattern) =>
                Role::LiteralElement,
            Reading::Literal(Side::Right) | Reading::Closed(Side::Right) => Role::LiteralOperand,
            Reading::Equal => Role::Equal,
            Reading::Variable(VariableReading::Star | VariableReading::Open) => Role::Star,
            Reading::Variable(VariableReading::Name | VariableReading::Dot) => Role::Variable,
            Reading::Variable(VariableReading::Group | VariableReading::GroupDot) => Role::Group,
            Reading::Variable(VariableReading::Length(_)) => Role::Length,
            _ => Role::Between,
        }
    }
}
