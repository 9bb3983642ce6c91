// The elements of a pattern, as a scan takes them.

// What a part is compared with: a part of the constants, or the part of an element further left.
#[derive(Clone, Copy, PartialEq, Eq, Debug)]
pub enum Source {
    Constant { from: usize, to: usize },
    Back(usize),
}

// A variable with more than one end.
#[derive(Clone, Copy, PartialEq, Eq, Debug)]
pub enum Variable {
    Arbitrary,
    Balanced,
}

// An element by how its part ends: equal to another part, after so many symbols, or freely.
#[derive(Clone, Copy, PartialEq, Eq, Debug)]
pub enum Element {
    Compared(Source),
    Fixed(usize),
    Free(Variable),
}
