// What carrying out a statement reads of a sheet.
ghost use Rattle.std.specs.Prelude.{◌≡◌};
ghost use Rattle.tables.specs.Tables.{listed, tabled};

use crate::places::first_places;
use crate::row::Row;
use crate::sheet::{NameTable, Tables};
use symbols::kind::Kind;

// The kind of the symbols of a sheet, and its names, statements and constants without what lies past them.
#[derive_where(Clone, Copy)]
pub struct Listing<'a, K: Kind> {
    pub kind: &'a K,
    pub names: &'a NameTable,
    pub rows: &'a [Row],
    pub constants: &'a [K::Symbol],
}

impl<'a, K: Kind> Listing<'a, K> {
    // What lent tables list.
    pub fn new(kind: &'a K, tables: Tables<'a, K::Symbol>) -> Listing<'a, K>
        ensures tables { listed result ≡ tabled tables.entry }
        ensures kind { result.kind.now ≡ kind.now }
    {
        Listing {
            kind,
            names: &tables.sheet.names,
            rows: first_places(tables.rows, tables.sheet.statements),
            constants: first_places(tables.constants, tables.sheet.constants),
        }
    }
}
