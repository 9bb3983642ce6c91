// What is gathered of a statement's pattern.
ghost use Rattle.std.specs.Prelude.{◌≡◌};
ghost use Rattle.patterns.specs.Gathered.{pattern_number, elements_in};

use scan::element::Element;
use std::error::Error;
use std::fmt;
use tables::places::first_places;

// The elements of a pattern, in the first places; a fixed array, as the host supplies all memory.
#[derive(Clone, Copy)]
pub struct Gathered {
    pub elements: [Element; 8],
    pub count: usize,
}

impl Gathered {
    // The elements that were gathered.
    pub fn elements(&self) -> &[Element]
        ensures { result.now ≡ elements_in self.now }
    {
        first_places(&self.elements, self.count)
    }
}

// Why a pattern is not gathered: an area too short, or a `$` that yields no name of the sheet.
#[derive(Clone, Copy, PartialEq, Eq, Debug)]
pub enum PatternRefusal {
    ShortArea = 23,
    NoName = 24,
}

impl PatternRefusal {
    // The number by which the outside knows the refusal.
    pub fn number(self) -> u8
        ensures { result ≡ pattern_number self }
    {
        self as u8
    }
}

impl fmt::Display for PatternRefusal {
    fn fmt<W: fmt::Write>(&self, f: &mut fmt::Formatter<W>) -> fmt::Result {
        match self {
            PatternRefusal::ShortArea => write!(f, "a work area is too short"),
            PatternRefusal::NoName => write!(f, "`$` yields no name of the sheet"),
        }
    }
}

impl Error for PatternRefusal {}
