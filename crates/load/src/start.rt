// Where a sheet starts.
ghost use Rattle.std.specs.Prelude.{◌≡◌};
ghost use Rattle.load.specs.Starts.{token_start, line_start, text_start};
ghost use Rattle.rows.specs.Givens.{else};
ghost use Rattle.rows.specs.Namings.{labels_of};

use lines::lexeme::Lexeme;
use lines::role::Role;
use lines::text::Lines;
use lines::tokens::Tokens;
use rows::naming::{Naming, token_text};
use tables::row::Next;

// Where the label to start at leads, or `before` where the token is none.
fn after_token(naming: &Naming, lexeme: Lexeme<'_>, before: Next) -> Next
    ensures { result ≡ else before (token_start (labels_of naming.now) lexeme.entry.line.now lexeme.entry.token) }
{
    match lexeme.token.role {
        Role::Start => naming.destination(token_text(lexeme)),
        _ => before,
    }
}

// Where the label to start at of a line leads, or `before` where it has none.
fn after_line(naming: &Naming, line: &[u8], before: Next) -> Next
    ensures { result ≡ else before (line_start (labels_of naming.now) line.now) }
{
    let mut start = before;
    for lexeme in Tokens::of(line) {
        start = after_token(naming, lexeme, start);
    }
    start
}

// Where END's line of a text has the sheet start.
pub fn find_start(naming: &Naming) -> Next
    ensures { result ≡ text_start (labels_of naming.now) naming.now.text.now }
{
    let mut start = Next::End;
    for line in Lines::of(naming.text) {
        start = after_line(naming, line.characters, start);
    }
    start
}
