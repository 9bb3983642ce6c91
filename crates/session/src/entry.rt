// The entries of a record.
ghost use Rattle.std.specs.Prelude.{◌≡◌, [], ◌∷◌, Some};
ghost use Rattle.session.specs.Entries.{letter, plain, blank, ends_in};
ghost use Rattle.session.specs.Effects.{mode_kind};

use placings::mode::Mode;
use std::fmt;
use tables::places::first_places;

// What an accepted call was: a statement that succeeded or failed, a string given, a restart, or a choice of the mode.
#[derive(Clone, Copy, PartialEq, Eq, Debug)]
pub enum EntryKind {
    Success,
    Failure,
    Given,
    Restarted,
    Anchored,
    Unanchored,
}

// The letter by which a record shows the kind.
impl From<EntryKind> for char {
    ghost from_gives = { λ kind c. c ≡ letter kind };

    fn from(kind: EntryKind) -> char {
        match kind {
            EntryKind::Success => 'S',
            EntryKind::Failure => 'F',
            EntryKind::Given => 'G',
            EntryKind::Restarted => 'R',
            EntryKind::Anchored => 'A',
            EntryKind::Unanchored => 'U',
        }
    }
}

impl fmt::Display for EntryKind {
    ghost output = { λ kind. Some (letter kind ∷ []) };

    fn fmt<W: fmt::Write>(&self, f: &mut fmt::Formatter<W>) -> fmt::Result {
        f.write_char(char::from(*self))
    }
}

// The kind of entry that a choice of the mode adds.
impl From<Mode> for EntryKind {
    ghost from_gives = { λ mode kind. kind ≡ mode_kind mode };

    fn from(mode: Mode) -> EntryKind {
        match mode {
            Mode::Anchored => EntryKind::Anchored,
            Mode::Unanchored => EntryKind::Unanchored,
        }
    }
}

// An accepted call: the number of its statement or name, and for a success the placing: its start, and the ends of its elements in the first places.
#[derive(Clone, Copy, PartialEq, Eq, Debug)]
pub struct Entry {
    pub kind: EntryKind,
    pub number: usize,
    pub start: usize,
    pub count: usize,
    pub ends: [usize; 8],
}

impl Entry {
    // An entry without a placing.
    pub(crate) fn plain(kind: EntryKind, number: usize) -> Entry
        ensures { result ≡ plain kind number }
    {
        Entry {
            kind,
            number,
            start: 0,
            count: 0,
            ends: [0; 8],
        }
    }

    // The ends of the elements of a placing.
    pub fn ends(&self) -> &[usize]
        ensures { result.now ≡ ends_in self.now }
    {
        first_places(&self.ends, self.count)
    }
}

// What a record area is filled with.
impl Default for Entry {
    ghost is_default = { λ entry. entry ≡ blank };

    fn default() -> Entry {
        Entry::plain(EntryKind::Restarted, 0)
    }
}

impl fmt::Display for Entry {
    fn fmt<W: fmt::Write>(&self, f: &mut fmt::Formatter<W>) -> fmt::Result {
        let (kind, number, start) = (self.kind, self.number, self.start);
        write!(f, "{kind} {number}")?;
        let ends = self.ends();
        if !ends.is_empty() {
            write!(f, " {start}")?;
        }
        for end in ends {
            write!(f, " {end}")?;
        }
        Ok(())
    }
}
