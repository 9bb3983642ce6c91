// The constants of a sheet: the symbols of its literals, one behind the other.
#![tactic(auto)]

ghost use Rattle.std.specs.Prelude.{◌≡◌, ◌^◌, ◌<◌, ◌≤◌, length};
ghost use Rattle.symbols.specs.Answers.{over};
ghost use Rattle.sheets.specs.Tallies.{is_literal};
ghost use Rattle.constants.specs.Constants.{token_symbols, line_symbols, sheet_symbols};

use lines::lexeme::Lexeme;
use lines::text::Lines;
use lines::tokens::Tokens;
use sheets::item::{Sort, contents, is_closed, sort_of};
use sheets::part::part_of;
use symbols::kind::Kind;
use symbols::text::read_text;

// Whether a token is a literal that has both its quotes.
fn is_literal(lexeme: Lexeme<'_>) -> bool
    ensures { result ≡ is_literal lexeme.entry.line.now lexeme.entry.token }
{
    matches!(sort_of(lexeme.token.role), Sort::Literal) && is_closed(lexeme.line, lexeme.token)
}

// Writes the symbols of a token to the front of an area; how many they are.
fn write_token<K: Kind>(kind: &K, lexeme: Lexeme<'_>, area: &mut [K::Symbol]) -> usize
    requires small { length lexeme.line.now < 2 ^ 32 }
    requires room { length (token_symbols K.Kind.meant K.Kind.WIDTH lexeme.line.now lexeme.token) ≤ length area.old }
    ensures value { result ≡ length (token_symbols K.Kind.meant K.Kind.WIDTH lexeme.entry.line.now lexeme.entry.token) }
    ensures area { area.new ≡ over (token_symbols K.Kind.meant K.Kind.WIDTH lexeme.entry.line.now lexeme.entry.token) area.old }
{
    if !is_literal(lexeme) {
        return 0;
    }
    read_text(kind, part_of(lexeme.line, contents(lexeme.token)), area).unwrap_or(0)
}

// Writes the symbols of a line's literals to the front of an area; how many they are.
fn write_line<K: Kind>(kind: &K, line: &[u8], area: &mut [K::Symbol]) -> usize
    requires small { length line.now < 2 ^ 32 }
    requires room { length (line_symbols K.Kind.meant K.Kind.WIDTH line.now) ≤ length area.old }
    ensures value { result ≡ length (line_symbols K.Kind.meant K.Kind.WIDTH line.now) }
    ensures area { area.new ≡ over (line_symbols K.Kind.meant K.Kind.WIDTH line.now) area.old }
{
    let mut count = 0;
    for lexeme in Tokens::of(line) {
        count += write_token(kind, lexeme, &mut area[count..]);
    }
    count
}

// Writes the symbols of all literals of a text to the front of an area; how many they are.
pub fn write_constants<K: Kind>(kind: &K, text: &[u8], area: &mut [K::Symbol]) -> usize
    requires small { length text.now < 2 ^ 31 }
    requires room { length (sheet_symbols K.Kind.meant K.Kind.WIDTH text.now) ≤ length area.old }
    ensures value { result ≡ length (sheet_symbols K.Kind.meant K.Kind.WIDTH text.now) }
    ensures area { area.new ≡ over (sheet_symbols K.Kind.meant K.Kind.WIDTH text.now) area.old }
{
    let mut count = 0;
    for line in Lines::of(text) {
        count += write_line(kind, line.characters, &mut area[count..]);
    }
    count
}
