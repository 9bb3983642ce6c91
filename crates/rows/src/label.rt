// What a row keeps as the label of its statement.
ghost use Rattle.std.specs.Prelude.{◌≡◌, ℕ, ◌^◌, ◌<◌, List};
ghost use Rattle.lines.specs.declared.token.Token.{Token};
ghost use Rattle.rows.specs.Labels.{part_label, name_label};

use crate::name::name_of;
use crate::naming::token_text;
use lines::lexeme::Lexeme;
use sheets::part::Part;
use tables::name::Name;

pub trait Label: Copy {
    // The label that a token spells, in a line that begins at a place of its text.
    ghost labelled: { ℕ → List ℕ → Token → Self };

    fn of(from: usize, lexeme: Lexeme<'_>) -> Self
        requires { from < 2 ^ 32 }
        ensures { result ≡ labelled from lexeme.entry.line.now lexeme.entry.token };
}

// Where the text has the label.
impl Label for Part {
    ghost labelled = { part_label };

    fn of(from: usize, lexeme: Lexeme<'_>) -> Part {
        Part {
            start: from + lexeme.token.start,
            size: lexeme.token.size,
        }
    }
}

// The characters of the label.
impl Label for Name {
    ghost labelled = { name_label };

    fn of(_from: usize, lexeme: Lexeme<'_>) -> Name {
        name_of(token_text(lexeme))
    }
}
