// How much a sheet may hold.

pub const MOST_STATEMENTS: usize = 128;

pub const MOST_NAMES: usize = 64;

pub const MOST_CONSTANTS: usize = 4096;

pub const MOST_ELEMENTS: usize = 8;

pub const MOST_OPERANDS: usize = 8;

// The symbols that a variable of fixed length may take.
pub const LONGEST_PART: usize = 4096;

// The characters of a name or a label.
pub const LONGEST_NAME: usize = 16;
