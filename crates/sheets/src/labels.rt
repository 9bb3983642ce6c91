// The labels that a sheet goes to: whether statements have them.
ghost use Rattle.std.specs.Prelude.{◌≡◌, ◌^◌, ◌<◌, length};
ghost use Rattle.lines.specs.Tokens.{tokens};
ghost use Rattle.sheets.specs.Labels.{goes_to, known, token_unknown, unknown_from, lines_unknown};
ghost use Rattle.sheets.specs.Parts.{words};
ghost use Rattle.sheets.specs.Sheets.{lines_of};

use crate::fault::{Cause, Fault, LineFault, Refusal};
use crate::item::is_indirect;
use crate::part::{Part, Words, part_of};
use lines::lexeme::Lexeme;
use lines::role::Role;
use lines::text::Lines;
use lines::tokens::Tokens;

// Whether the token is the label to start at, or a go-to's without `$`.
fn goes_to(lexeme: Lexeme<'_>) -> bool
    ensures { result ≡ goes_to lexeme.entry.line.now lexeme.entry.token }
{
    match lexeme.token.role {
        Role::Start => true,
        Role::Both | Role::OnS | Role::OnF => !is_indirect(lexeme.line, lexeme.token),
        _ => false,
    }
}

// Whether a word is END, or one of the labels.
fn is_known(labels: Words<'_>, word: &[u8]) -> bool
    ensures { result ≡ known (words labels.entry) word.now }
{
    word == b"END".as_slice() || labels.find(word).is_some()
}

// A label that no statement has, at its start.
fn token_unknown(labels: Words<'_>, lexeme: Lexeme<'_>) -> Option<Fault>
    ensures { result ≡ token_unknown (words labels.entry) lexeme.entry.line.now lexeme.entry.token }
{
    let token = lexeme.token;
    let label = part_of(
        lexeme.line,
        Part {
            start: token.start,
            size: token.size,
        },
    );
    (goes_to(lexeme) && !is_known(labels, label)).then_some(Fault {
        column: token.start + 1,
        cause: Cause::UnknownLabel,
    })
}

// The first label of a line that no statement has.
fn line_unknown(labels: Words<'_>, line: &[u8]) -> Option<Fault>
    ensures { result ≡ unknown_from (words labels.entry) line.now (tokens line.now) }
{
    for lexeme in Tokens::of(line) {
        if let Some(fault) = token_unknown(labels, lexeme) {
            return Some(fault);
        }
    }
    None
}

// The first label of a sheet that no statement has.
pub(crate) fn unknown_label(labels: Words<'_>) -> Option<Refusal>
    ensures { result ≡ lines_unknown (words labels.entry) 1 (lines_of labels.entry.text.now) }
{
    for (i, line) in Lines::of(labels.text).enumerate() {
        if let Some(fault) = line_unknown(labels, line.characters) {
            return Some(Refusal::from(LineFault { line: i + 1, fault }));
        }
    }
    None
}
