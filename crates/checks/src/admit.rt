// Whether lent tables may be worked with.
ghost use Rattle.std.specs.Prelude.{◌≡◌, true, length};
ghost use Rattle.checks.specs.Fits.{within_limits, sheet_fits, admits};
ghost use Rattle.checks.specs.Sound.{Admitted};

use crate::fit::{Fit, all_fit};
use tables::limits::{MOST_CONSTANTS, MOST_NAMES, MOST_STATEMENTS};
use tables::places::first_places;
use tables::row::Row;
use tables::sheet::{Counts, Sheet, Tables};

// Whether a sheet may have these counts over areas of so many rows and symbols.
fn are_within(counts: Counts, rows: usize, room: usize) -> bool
    ensures { result ≡ within_limits counts rows room }
{
    counts.statements <= MOST_STATEMENTS
        && counts.names <= MOST_NAMES
        && counts.constants <= MOST_CONSTANTS
        && counts.statements <= rows
        && counts.constants <= room
}

// Whether a sheet and its rows fit one another, over so many constant symbols.
fn sheet_fits(sheet: &Sheet, rows: &[Row], room: usize) -> bool
    ensures { result ≡ sheet_fits sheet.now rows.now room }
{
    let counts = sheet.counts();
    if !are_within(counts, rows.len(), room) {
        return false;
    }
    all_fit(sheet.names.names(), counts)
        && sheet.start.fits(counts)
        && all_fit(first_places(rows, sheet.statements), counts)
}

// Whether a sheet and its rows may be worked with, over so many constant symbols.
#[tactic(auto, unfolding(crate::specs::Fits::admits))]
fn is_admitted(names: usize, opened: Counts, sheet: &Sheet, rows: &[Row], room: usize) -> bool
    ensures { result ≡ admits names opened sheet.now rows.now room }
{
    sheet.names.count <= names && opened == sheet.counts() && sheet_fits(sheet, rows, room)
}

// Whether lent tables fit a sheet that was opened with these counts over a store of so many names.
pub fn admits<T: Copy>(names: usize, counts: Counts, tables: Tables<T>) -> bool
    ensures value { result ≡ admits names counts tables.entry.sheet.now tables.entry.rows.now (length tables.entry.constants.now) }
    ensures sound { result ≡ true → Admitted names counts tables.entry.sheet.now tables.entry.rows.now (length tables.entry.constants.now) }
    ensures only { Admitted names counts tables.entry.sheet.now tables.entry.rows.now (length tables.entry.constants.now) → result ≡ true }
{
    is_admitted(
        names,
        counts,
        tables.sheet,
        tables.rows,
        tables.constants.len(),
    )
}
