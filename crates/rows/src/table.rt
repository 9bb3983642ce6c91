// The table of a sheet: its rows, written to an area of the host, with the places of their labels.
ghost use Rattle.std.specs.Prelude.{◌≡◌, length};
ghost use Rattle.rows.specs.Table.{table_refusal, table_rows};
ghost use Rattle.sheets.specs.Labels.{brought, Surveyed};
ghost use Rattle.sheets.specs.Tallies.{counts};
ghost use Rattle.symbols.specs.Answers.{unless, over};

use crate::naming::Naming;
use crate::writer::write_rows;
use sheets::fault::{Cause, Refusal};
use sheets::outline::{Outline, survey};
use sheets::part::Part;
use symbols::kind::Kind;
use tables::row::RowOf;

// Writes the rows of a sheet to the front of an area of 128 or more; a refused sheet leaves the area as it was.
pub fn tabulate<K: Kind>(
    kind: &K,
    text: &[u8],
    rows: &mut [RowOf<Part>],
) -> Result<Outline, Refusal>
    ensures answer { Surveyed (table_refusal (counts K.Kind.meant K.Kind.WIDTH) (length rows.old) text.now) (brought (counts K.Kind.meant K.Kind.WIDTH) text.now) text.now result }
    ensures rows { rows.new ≡ unless (table_refusal (counts K.Kind.meant K.Kind.WIDTH) (length rows.old) text.now) rows.old (over (table_rows K.Kind.meant K.Kind.WIDTH text.now) rows.old) }
{
    if rows.len() < 128 {
        return Err(Refusal::nowhere(Cause::ShortArea));
    }
    let outline = survey(kind, text)?;
    let _ = write_rows(kind, &Naming::new(text, &outline), rows);
    Ok(outline)
}
