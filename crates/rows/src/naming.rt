// What the names and labels of a line stand for.
ghost use Rattle.std.specs.Prelude.{◌≡◌, ◌^◌, ◌<◌, map, length};
ghost use Rattle.rows.specs.Entries.{numbered, slash_at, form_at, variable, target_of, entry_of, name_number, reference_of, destination};
ghost use Rattle.rows.specs.Namings.{names_of, labels_of};
ghost use Rattle.sheets.specs.Labels.{token_text};
ghost use Rattle.sheets.specs.LineFaults.{carried, Limited};
ghost use Rattle.sheets.specs.Parts.{part_of, position};

use crate::digits::decimal;
use crate::entry::Entry;
use crate::label::Label;
use lines::lexeme::Lexeme;
use lines::role::Role;
use lines::token::Token;
use sheets::item::{is_indirect, word};
use sheets::outline::Outline;
use sheets::part::{Part, find_word, part_of, same_text};
use tables::row::{Form, Item, Next, Operand, Reference, Target, Variable};

// The names of a sheet and the labels of its statements, as parts of its text.
#[derive(Clone, Copy)]
pub struct Naming<'a> {
    pub text: &'a [u8],
    pub names: &'a [Part],
    pub labels: &'a [Part],
}

// The characters of a token.
pub fn token_text(lexeme: Lexeme<'_>) -> &[u8]
    ensures { result.now ≡ token_text lexeme.entry.line.now lexeme.entry.token }
{
    let Token { start, size, .. } = lexeme.token;
    part_of(lexeme.line, Part { start, size })
}

// The number of the first part that spells the word, counted from 1; 0 where none does.
fn number_of(text: &[u8], parts: &[Part], word: &[u8]) -> usize
    ensures { result ≡ numbered (position word.now (map (part_of text.now) parts.now)) }
{
    let place = find_word(text, parts, word);
    place.map_or(
        0,
        |place|
            requires { place < 2 ^ 63 }
        { place + 1 },
    )
}

// Whether `/` stands at a place.
fn slash_at(line: &[u8], at: usize) -> bool
    ensures { result ≡ slash_at line.now at }
{
    line.get(at).is_some_and(|c| *c == b'/')
}

// A variable whose name ends at a place: arbitrary, or of the fixed length that `/` and a quote precede.
fn form_at(line: &[u8], at: usize) -> Form
    requires { at < 2 ^ 33 }
    ensures { result ≡ form_at line.now at }
{
    if slash_at(line, at) {
        Form::Fixed(decimal(line, at + 2))
    } else {
        Form::Arbitrary
    }
}

impl<'a> Naming<'a> {
    // The names and labels that the lines of a text bring.
    pub fn new(text: &'a [u8], outline: &'a Outline) -> Naming<'a>
        requires { Limited outline.now.carried }
        ensures text { result.text.now ≡ text.now }
        ensures names { names_of result ≡ (carried text.now outline.now.names outline.now.labels outline.now.carried).names }
        ensures labels { labels_of result ≡ (carried text.now outline.now.names outline.now.labels outline.now.carried).labels }
    {
        Naming {
            text,
            names: &outline.names[0..outline.carried.names],
            labels: &outline.labels[0..outline.carried.statements],
        }
    }

    // The name's number, counted from 1, 0 where it is no name of the sheet.
    fn name_number(&self, lexeme: Lexeme<'_>) -> usize
        ensures { result ≡ name_number (names_of self.now) lexeme.entry.line.now lexeme.entry.token }
    {
        let name = part_of(lexeme.line, word(lexeme.line, lexeme.token));
        number_of(self.text, self.names, name)
    }

    fn reference_of(&self, lexeme: Lexeme<'_>) -> Reference
        ensures { result ≡ reference_of (names_of self.now) lexeme.entry.line.now lexeme.entry.token }
    {
        let number = self.name_number(lexeme);
        if is_indirect(lexeme.line, lexeme.token) {
            Reference::Through(number)
        } else {
            Reference::Named(number)
        }
    }

    // The statement that has the label, counted from 1, or END; 0 where no statement has it.
    pub fn destination(&self, label: &[u8]) -> Next
        ensures { result ≡ destination (labels_of self.now) label.now }
    {
        if same_text(label, b"END") {
            return Next::End;
        }
        Next::Statement(number_of(self.text, self.labels, label))
    }

    fn variable_of(&self, lexeme: Lexeme<'_>, form: Form) -> Item
        ensures { result ≡ variable (name_number (names_of self.now) lexeme.entry.line.now lexeme.entry.token) form }
    {
        Item::Variable(Variable {
            name: self.name_number(lexeme),
            form,
        })
    }

    fn contents_of(&self, lexeme: Lexeme<'_>) -> Operand
        ensures { result ≡ Operand.Contents (reference_of (names_of self.now) lexeme.entry.line.now lexeme.entry.token) }
    {
        Operand::Contents(self.reference_of(lexeme))
    }

    // Where a go-to leads.
    fn target_of(&self, lexeme: Lexeme<'_>) -> Target
        ensures { result ≡ target_of (names_of self.now) (labels_of self.now) lexeme.entry.line.now lexeme.entry.token }
    {
        if is_indirect(lexeme.line, lexeme.token) {
            return Target::Through(self.name_number(lexeme));
        }
        Target::To(self.destination(token_text(lexeme)))
    }

    // What a token gives, if anything; a literal is the part `constant` of the constants, and the line begins at `from`.
    pub(crate) fn entry_of<L: Label>(
        &self,
        from: usize,
        lexeme: Lexeme<'_>,
        constant: Operand,
    ) -> Option<Entry<L>>
        requires small { length lexeme.line.now < 2 ^ 32 }
        requires place { from < 2 ^ 32 }
        ensures { result ≡ entry_of L.Label.labelled (names_of self.now) (labels_of self.now) from lexeme.entry.line.now lexeme.entry.token constant }
    {
        Some(match lexeme.token.role {
            Role::Label => Entry::Label(L::of(from, lexeme)),
            Role::Reference => Entry::Reference(self.reference_of(lexeme)),
            Role::Element => Entry::Element(Item::Operand(self.contents_of(lexeme))),
            Role::LiteralElement => Entry::Element(Item::Operand(constant)),
            Role::Variable => {
                let form = form_at(lexeme.line, lexeme.token.start + lexeme.token.size);
                Entry::Element(self.variable_of(lexeme, form))
            }
            Role::Group => Entry::Element(self.variable_of(lexeme, Form::Balanced)),
            Role::Equal => Entry::Equal,
            Role::Operand => Entry::Operand(self.contents_of(lexeme)),
            Role::LiteralOperand => Entry::Operand(constant),
            Role::Both => Entry::Both(self.target_of(lexeme)),
            Role::OnS => Entry::OnS(self.target_of(lexeme)),
            Role::OnF => Entry::OnF(self.target_of(lexeme)),
            Role::Between | Role::Start | Role::Star | Role::Length => return None,
        })
    }
}
