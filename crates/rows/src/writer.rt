// The writing of a sheet's rows.
ghost use Rattle.std.specs.Prelude.{◌≡◌, ◌+◌, ◌^◌, ◌<◌, ◌≤◌, true, length, if◌then◌else◌, slice_set};
ghost use Rattle.rows.specs.Namings.{names_of, labels_of};
ghost use Rattle.rows.specs.Rows.{has_row, rows_from};
ghost use Rattle.sheets.specs.Sheets.{lines_of};
ghost use Rattle.symbols.specs.Answers.{over};

use crate::label::Label;
use crate::line::read_row;
use crate::naming::Naming;
use lines::line::is_idle;
use lines::text::Lines;
use sheets::check::labelled_end;
use symbols::kind::Kind;
use tables::row::RowOf;

fn has_row(line: &[u8]) -> bool
    ensures { result ≡ has_row line.now }
{
    !is_idle(line) && !labelled_end(line)
}

// Writes the row of a line, if it has one; how many rows there then are.
fn put_row<L: Label>(rows: &mut [RowOf<L>], count: usize, line: &[u8], row: RowOf<L>) -> usize
    requires room { has_row line.now ≡ true → count < length rows.old }
    requires few { count < 2 ^ 32 }
    ensures value { result ≡ (if has_row line.now then count + 1 else count) }
    ensures rows { rows.new ≡ (if has_row line.now then slice_set rows.old count row else rows.old) }
{
    if !has_row(line) {
        return count;
    }
    rows[count] = row;
    count + 1
}

// Writes the rows of a sheet to the front of an area; how many they are.
pub fn write_rows<K: Kind, L: Label>(kind: &K, naming: &Naming, rows: &mut [RowOf<L>]) -> usize
    requires small { length naming.now.text.now < 2 ^ 31 }
    requires room { length (rows_from L.Label.labelled K.Kind.meant K.Kind.WIDTH (names_of naming.now) (labels_of naming.now) 0 0 (lines_of naming.now.text.now)) ≤ length rows.old }
    ensures value { result ≡ length (rows_from L.Label.labelled K.Kind.meant K.Kind.WIDTH (names_of naming.now) (labels_of naming.now) 0 0 (lines_of naming.now.text.now)) }
    ensures rows { rows.new ≡ over (rows_from L.Label.labelled K.Kind.meant K.Kind.WIDTH (names_of naming.now) (labels_of naming.now) 0 0 (lines_of naming.now.text.now)) rows.old }
{
    let mut stored = 0;
    let mut count = 0;
    for line in Lines::of(naming.text) {
        let filled = read_row(kind, naming, line, stored);
        count = put_row(rows, count, line.characters, filled.row);
        stored = filled.symbols;
    }
    count
}
