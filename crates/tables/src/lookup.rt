// Looking up names and labels by their characters.
ghost use Rattle.std.specs.Prelude.{◌≡◌};
ghost use Rattle.tables.specs.Rows.{Row};
ghost use Rattle.tables.specs.Lookups.{spelled, names_in, name_number, label_spelled, label_number, label_place, First};

use crate::name::Name;
use crate::row::{Next, Row};
use crate::sheet::NameTable;

// Whether a name has these characters.
fn is_spelled(name: &Name, chars: &[u8]) -> bool
    ensures { result ≡ spelled chars.now name.now }
{
    name.text() == chars
}

// Whether a statement has a label of these characters.
fn is_labelled(row: &Row, chars: &[u8]) -> bool
    ensures { result ≡ label_spelled chars.now row.now.label }
{
    row.label
        .as_ref()
        .is_some_and(|name| is_spelled(name, chars))
}

// The names of a table, in the order of their numbers.
pub fn used_names(table: &NameTable) -> &[Name]
    ensures { result.now ≡ names_in table.now }
{
    table.names()
}

// The number of a name, if the table has it.
pub fn find_name(table: &NameTable, chars: &[u8]) -> Option<usize>
    ensures value { result ≡ name_number table.now chars.now }
    ensures first { First (spelled chars.now) (names_in table.now) result }
{
    let mut names = table.names().iter();
    let name = names.position(|name| is_spelled(name, chars))?;
    Some(name + 1)
}

// The number of the statement that has a label.
fn find_statement(rows: &[Row], chars: &[u8]) -> Option<usize>
    ensures { result ≡ label_number rows.now chars.now }
{
    let row = rows.iter().position(|row| is_labelled(row, chars))?;
    Some(row + 1)
}

// Where a label leads, if the rows of a sheet have it.
pub fn find_label(rows: &[Row], chars: &[u8]) -> Option<Next>
    ensures value { result ≡ label_place rows.now chars.now }
    ensures first { First (λ (row : Row). label_spelled chars.now row.label) rows.now (label_number rows.now chars.now) }
{
    match chars {
        b"END" => Some(Next::End),
        _ => find_statement(rows, chars).map(Next::Statement),
    }
}
