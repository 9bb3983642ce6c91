// What a token gives to its statement.
use tables::row::{Item, Operand, Reference, Target};

#[derive(Clone, Copy)]
pub enum Entry<L> {
    Label(L),
    Reference(Reference),
    Element(Item),
    Equal,
    Operand(Operand),
    Both(Target),
    OnS(Target),
    OnF(Target),
}
