// A statement as a row: numbers of names count from 1, and constants are parts of one area of symbols.
ghost use Rattle.std.specs.Prelude.{◌≡◌, Some};
ghost use Rattle.tables.specs.Rows.{items_in, operands_in, number_in, number_of, is_variable};
ghost use Rattle.tables.specs.Words.{reference_words, operand_words, variable_words, item_words, next_words, target_words};

use crate::limits::{MOST_ELEMENTS, MOST_OPERANDS};
use crate::name::Name;
use crate::places::first_places;
use std::fmt;

// A name, or the name that the contents of a name spell (`$`).
#[derive(Clone, Copy, PartialEq, Eq, Debug)]
pub enum Reference {
    Named(usize),
    Through(usize),
}

impl Reference {
    // The number of the name itself, whether the name is meant or what it contains.
    pub fn number(self) -> usize
        ensures { result ≡ number_in self }
    {
        match self {
            Reference::Named(number) | Reference::Through(number) => number,
        }
    }
}

impl fmt::Display for Reference {
    ghost output = { λ reference. Some (reference_words reference) };

    fn fmt<W: fmt::Write>(&self, f: &mut fmt::Formatter<W>) -> fmt::Result {
        match self {
            Reference::Named(number) => write!(f, "{number}"),
            Reference::Through(number) => write!(f, "${number}"),
        }
    }
}

// A literal, by its part of the constants, or a reference.
#[derive(Clone, Copy, PartialEq, Eq, Debug)]
pub enum Operand {
    Literal(usize, usize),
    Contents(Reference),
}

impl fmt::Display for Operand {
    ghost output = { λ operand. Some (operand_words operand) };

    fn fmt<W: fmt::Write>(&self, f: &mut fmt::Formatter<W>) -> fmt::Result {
        match self {
            Operand::Literal(from, to) => write!(f, "literal {from} {to}"),
            Operand::Contents(reference) => write!(f, "{reference}"),
        }
    }
}

// What parts a variable takes.
#[derive(Clone, Copy, PartialEq, Eq, Debug)]
pub enum Form {
    Arbitrary,
    Balanced,
    Fixed(usize),
}

// A variable of a pattern, by the number of its name.
#[derive(Clone, Copy, PartialEq, Eq, Debug)]
pub struct Variable {
    pub name: usize,
    pub form: Form,
}

impl fmt::Display for Variable {
    ghost output = { λ variable. Some (variable_words variable) };

    fn fmt<W: fmt::Write>(&self, f: &mut fmt::Formatter<W>) -> fmt::Result {
        let number = self.name;
        match self.form {
            Form::Arbitrary => write!(f, "arbitrary {number}"),
            Form::Balanced => write!(f, "balanced {number}"),
            Form::Fixed(length) => write!(f, "fixed {number} {length}"),
        }
    }
}

// An element of a pattern.
#[derive(Clone, Copy, PartialEq, Eq, Debug)]
pub enum Item {
    Operand(Operand),
    Variable(Variable),
}

impl Item {
    // Whether the element is a variable with the name of a number.
    pub fn is_variable_of(self, name: usize) -> bool
        ensures { result ≡ is_variable name self }
    {
        match self {
            Item::Operand(_) => false,
            Item::Variable(variable) => variable.name == name,
        }
    }
}

impl fmt::Display for Item {
    ghost output = { λ item. Some (item_words item) };

    fn fmt<W: fmt::Write>(&self, f: &mut fmt::Formatter<W>) -> fmt::Result {
        match self {
            Item::Operand(operand) => write!(f, "{operand}"),
            Item::Variable(variable) => write!(f, "{variable}"),
        }
    }
}

// The statement that comes next, counted from 1, or END.
#[derive(Clone, Copy, PartialEq, Eq, Debug)]
pub enum Next {
    Statement(usize),
    End,
}

impl Next {
    // The number of the statement that comes next; END has 0.
    pub fn number(self) -> usize
        ensures { result ≡ number_of self }
    {
        match self {
            Next::Statement(number) => number,
            Next::End => 0,
        }
    }
}

impl fmt::Display for Next {
    ghost output = { λ next. Some (next_words next) };

    fn fmt<W: fmt::Write>(&self, f: &mut fmt::Formatter<W>) -> fmt::Result {
        match self {
            Next::Statement(number) => write!(f, "{number}"),
            Next::End => write!(f, "END"),
        }
    }
}

// Where a go-to leads: to a statement, or to the label that the contents of a name spell (`$`).
#[derive(Clone, Copy, PartialEq, Eq, Debug)]
pub enum Target {
    To(Next),
    Through(usize),
}

impl fmt::Display for Target {
    ghost output = { λ target. Some (target_words target) };

    fn fmt<W: fmt::Write>(&self, f: &mut fmt::Formatter<W>) -> fmt::Result {
        match self {
            Target::To(next) => write!(f, "{next}"),
            Target::Through(number) => write!(f, "${number}"),
        }
    }
}

// The pattern of a statement: its elements, in the first places.
#[derive(Clone, Copy, PartialEq, Eq, Debug)]
pub struct Pattern {
    pub items: [Item; MOST_ELEMENTS],
    pub count: usize,
}

impl Pattern {
    // The elements of a pattern.
    pub fn items(&self) -> &[Item]
        ensures { result.now ≡ items_in self.now }
    {
        first_places(&self.items, self.count)
    }
}

// The right side of a statement: its operands, in the first places.
#[derive(Clone, Copy, PartialEq, Eq, Debug)]
pub struct RightSide {
    pub operands: [Operand; MOST_OPERANDS],
    pub count: usize,
}

impl RightSide {
    // The operands of a right side.
    pub fn operands(&self) -> &[Operand]
        ensures { result.now ≡ operands_in self.now }
    {
        first_places(&self.operands, self.count)
    }
}

// A statement, with its label as L. A statement without pattern has none of its items; one without `=` has no right side.
#[derive(Clone, Copy, PartialEq, Eq, Debug)]
pub struct RowOf<L> {
    pub label: Option<L>,
    pub reference: Reference,
    pub pattern: Pattern,
    pub right_side: Option<RightSide>,
    pub on_success: Option<Target>,
    pub on_failure: Option<Target>,
}

// A statement that keeps the characters of its label.
pub type Row = RowOf<Name>;
