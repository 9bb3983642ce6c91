// Names and labels.
ghost use Rattle.std.specs.Prelude.{◌≡◌, Some};
ghost use Rattle.std.specs.List.{flat_map};
ghost use Rattle.std.specs.Char.{encode_utf8};
ghost use Rattle.tables.specs.Lookups.{spelling};

use crate::limits::LONGEST_NAME;
use crate::places::first_places;
use std::fmt;

// A name or a label of up to 16 characters. The letters past its length are 0.
#[derive(Clone, Copy, PartialEq, Eq, Debug)]
pub struct Name {
    pub letters: [u8; LONGEST_NAME],
    pub length: usize,
}

impl Name {
    // The characters of a name.
    pub fn text(&self) -> &[u8]
        ensures { result.now ≡ spelling self.now }
    {
        first_places(&self.letters, self.length)
    }
}

impl fmt::Display for Name {
    ghost output = { λ name. Some (flat_map encode_utf8 (spelling name)) };

    fn fmt<W: fmt::Write>(&self, f: &mut fmt::Formatter<W>) -> fmt::Result {
        for letter in self.text() {
            let letter = *letter as char;
            write!(f, "{letter}")?;
        }
        Ok(())
    }
}
