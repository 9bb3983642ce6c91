// The row of a line.
ghost use Rattle.std.specs.Prelude.{◌≡◌, ◌+◌, ◌^◌, ◌<◌, ◌≤◌, length};
ghost use Rattle.constants.specs.Constants.{token_symbols, line_symbols};
ghost use Rattle.rows.specs.Namings.{names_of, labels_of};
ghost use Rattle.rows.specs.Rows.{line_row};

use crate::label::Label;
use crate::naming::Naming;
use crate::row::{blank_row, enter_given};
use lines::lexeme::Lexeme;
use lines::placed::Line;
use lines::tokens::Tokens;
use sheets::tally::literal;
use symbols::kind::Kind;
use tables::row::{Operand, RowOf};

// How many symbols a token adds to the constants.
fn symbols_of<K: Kind>(kind: &K, lexeme: Lexeme<'_>) -> usize
    ensures { result ≡ length (token_symbols K.Kind.meant K.Kind.WIDTH lexeme.entry.line.now lexeme.entry.token) }
{
    literal(kind, lexeme.line, lexeme.token).unwrap_or(0)
}

// The row of a line, and the number of constant symbols with those of the line.
#[derive(Clone, Copy)]
pub(crate) struct Filled<L> {
    pub row: RowOf<L>,
    pub symbols: usize,
}

// The row of a line, where `symbols` constant symbols stand before it.
pub(crate) fn read_row<K: Kind, L: Label>(
    kind: &K,
    naming: &Naming,
    line: Line<'_>,
    symbols: usize,
) -> Filled<L>
    requires small { length line.characters.now < 2 ^ 32 }
    requires place { line.from < 2 ^ 32 }
    requires symbols { symbols < 2 ^ 32 }
    ensures row { result.row ≡ line_row L.Label.labelled K.Kind.meant K.Kind.WIDTH (names_of naming.now) (labels_of naming.now) line.entry.from symbols line.entry.characters.now }
    ensures symbols { result.symbols ≡ symbols + length (line_symbols K.Kind.meant K.Kind.WIDTH line.entry.characters.now) }
    ensures few { result.symbols ≤ symbols + length line.entry.characters.now }
{
    let mut row = blank_row();
    let mut stored = symbols;
    for lexeme in Tokens::of(line.characters) {
        let end = stored + symbols_of(kind, lexeme);
        let constant = Operand::Literal(stored, end);
        row = enter_given(row, naming.entry_of(line.from, lexeme, constant));
        stored = end;
    }
    Filled {
        row,
        symbols: stored,
    }
}
