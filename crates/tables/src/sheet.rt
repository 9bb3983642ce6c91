// A sheet: how much of its tables it uses, its names, and where it starts.
ghost use Rattle.std.specs.Prelude.{◌≡◌};
ghost use Rattle.tables.specs.Lookups.{names_in};
ghost use Rattle.tables.specs.Tables.{counts, numbered};

use crate::limits::MOST_NAMES;
use crate::name::Name;
use crate::places::first_places;
use crate::row::{Next, Row};

// The names of a sheet, in the first places, in the order of their numbers.
#[derive(Clone, Copy, PartialEq, Eq, Debug)]
pub struct NameTable {
    pub names: [Name; MOST_NAMES],
    pub count: usize,
}

impl NameTable {
    // The names of a table.
    pub fn names(&self) -> &[Name]
        ensures { result.now ≡ names_in self.now }
    {
        first_places(&self.names, self.count)
    }
}

#[derive(Clone, Copy, PartialEq, Eq, Debug)]
pub struct Sheet {
    pub statements: usize,
    pub constants: usize,
    pub names: NameTable,
    pub start: Next,
}

// How many statements, constant symbols and names a sheet has.
#[derive(Clone, Copy, PartialEq, Eq, Debug)]
pub struct Counts {
    pub statements: usize,
    pub constants: usize,
    pub names: usize,
}

impl Counts {
    // Whether a number is that of a statement.
    pub fn has_statement(self, number: usize) -> bool
        ensures { result ≡ numbered self.statements number }
    {
        (1..=self.statements).contains(&number)
    }

    // Whether a number is that of a name.
    pub fn has_name(self, number: usize) -> bool
        ensures { result ≡ numbered self.names number }
    {
        (1..=self.names).contains(&number)
    }
}

impl Sheet {
    pub fn counts(&self) -> Counts
        ensures { result ≡ counts self.now }
    {
        Counts {
            statements: self.statements,
            constants: self.constants,
            names: self.names.count,
        }
    }
}

// The tables of a sheet, as the host lends them: statements and constants in the first places.
#[derive(Clone, Copy)]
pub struct Tables<'a, T> {
    pub sheet: &'a Sheet,
    pub rows: &'a [Row],
    pub constants: &'a [T],
}
