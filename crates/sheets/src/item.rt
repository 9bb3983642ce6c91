// What a token of a line is to its statement.
ghost use Rattle.std.specs.Prelude.{◌≡◌, ◌^◌, ◌<◌, length};
ghost use Rattle.sheets.specs.Items.{sort_of, opened_by, Inside, indirect, word, sort_brings, brings_name, closed, contents};

use crate::part::Part;
use lines::lexeme::Lexeme;
use lines::role::Role;
use lines::token::Token;

// What a token spells: a label, a name, the label or name of a go-to, symbols, or nothing of these.
#[derive(Clone, Copy, Debug, PartialEq, Eq, Drop)]
pub enum Sort {
    Other,
    Label,
    Name,
    Target,
    Literal,
}

// What a token may begin: an element, or a right side operand.
#[derive(Clone, Copy, Debug, PartialEq, Eq, Drop)]
pub enum Opened {
    Element,
    Operand,
}

pub fn sort_of(role: Role) -> Sort
    ensures { result ≡ sort_of role }
{
    match role {
        Role::Label | Role::Start => Sort::Label,
        Role::Reference | Role::Element | Role::Operand | Role::Variable | Role::Group =>
            Sort::Name,
        Role::Both | Role::OnS | Role::OnF => Sort::Target,
        Role::LiteralElement | Role::LiteralOperand => Sort::Literal,
        Role::Between | Role::Star | Role::Length | Role::Equal => Sort::Other,
    }
}

pub fn opened_by(role: Role) -> Option<Opened>
    ensures { result ≡ opened_by role }
{
    match role {
        Role::Element | Role::LiteralElement | Role::Star => Some(Opened::Element),
        Role::Operand | Role::LiteralOperand => Some(Opened::Operand),
        _ => None,
    }
}

// Whether the token begins with `$`.
pub fn is_indirect(line: &[u8], token: Token) -> bool
    requires { Inside line.now token }
    ensures { result ≡ indirect line.now token }
{
    line[token.start] == b'$'
}

// The name or label of a token, without `$`.
pub fn word(line: &[u8], token: Token) -> Part
    requires { Inside line.now token }
    ensures { result ≡ word line.now token }
{
    if is_indirect(line, token) {
        Part {
            start: token.start + 1,
            size: token.size - 1,
        }
    } else {
        Part {
            start: token.start,
            size: token.size,
        }
    }
}

// Whether a name may stand where the token does: the label of a go-to is one only after `$`.
fn may_name(lexeme: Lexeme<'_>) -> bool
    ensures { result ≡ sort_brings (sort_of lexeme.entry.token.role) (indirect lexeme.entry.line.now lexeme.entry.token) }
{
    match sort_of(lexeme.token.role) {
        Sort::Name => true,
        Sort::Target => is_indirect(lexeme.line, lexeme.token),
        _ => false,
    }
}

// Whether the token has a name.
pub(crate) fn brings_name(lexeme: Lexeme<'_>) -> bool
    ensures { result ≡ brings_name lexeme.entry.line.now lexeme.entry.token }
{
    may_name(lexeme) && word(lexeme.line, lexeme.token).size > 0
}

// Whether a literal has both its quotes.
pub fn is_closed(line: &[u8], token: Token) -> bool
    requires { Inside line.now token }
    ensures { result ≡ closed line.now token }
{
    token.size > 1 && line[token.start + token.size - 1] == b'"'
}

// The characters between the quotes of a literal.
pub fn contents(token: Token) -> Part
    requires start_bound { token.start < 2 ^ 63 }
    requires lt_size { 1 < token.size }
    ensures { result ≡ contents token }
{
    Part {
        start: token.start + 1,
        size: token.size - 2,
    }
}
