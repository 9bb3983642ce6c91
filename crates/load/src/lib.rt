// Load: the tables of a sheet, written from its text.
#![tactic(auto)]

ghost use Rattle.std.specs.Prelude.{◌≡◌, length};
ghost use Rattle.constants.specs.Constants.{sheet_symbols};
ghost use Rattle.load.specs.Tables.{load_refusal, sheet_of, sheet_rows};
ghost use Rattle.symbols.specs.Answers.{answered, unless, over};

mod name;
mod start;

use crate::name::name_table;
use crate::start::find_start;
use constants::write_constants;
use rows::naming::Naming;
use rows::writer::write_rows;
use sheets::fault::{Cause, Refusal};
use sheets::outline::survey;
use symbols::kind::Kind;
use tables::row::Row;
use tables::sheet::Sheet;

// Loads a sheet: its rows and constants, written to the front of areas of at least 128 rows and 4,096 symbols. A refused sheet leaves both as they were.
pub fn load<K: Kind>(
    kind: &K,
    text: &[u8],
    rows: &mut [Row],
    constants: &mut [K::Symbol],
) -> Result<Sheet, Refusal>
    ensures answer { result ≡ answered (load_refusal K.Kind.meant K.Kind.WIDTH (length rows.old) (length constants.old) text.now) (sheet_of K.Kind.meant K.Kind.WIDTH text.now) }
    ensures rows { rows.new ≡ unless (load_refusal K.Kind.meant K.Kind.WIDTH (length rows.old) (length constants.old) text.now) rows.old (over (sheet_rows K.Kind.meant K.Kind.WIDTH text.now) rows.old) }
    ensures constants { constants.new ≡ unless (load_refusal K.Kind.meant K.Kind.WIDTH (length rows.old) (length constants.old) text.now) constants.old (over (sheet_symbols K.Kind.meant K.Kind.WIDTH text.now) constants.old) }
{
    if rows.len() < 128 || constants.len() < 4096 {
        return Err(Refusal::nowhere(Cause::ShortArea));
    }
    let outline = survey(kind, text)?;
    let naming = Naming::new(text, &outline);
    let _ = write_rows(kind, &naming, rows);
    Ok(Sheet {
        statements: outline.carried.statements,
        constants: write_constants(kind, text, constants),
        names: name_table(&naming),
        start: find_start(&naming),
    })
}
