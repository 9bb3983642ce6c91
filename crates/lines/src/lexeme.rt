// A token with the line that it stands in.
ghost use Rattle.std.specs.Prelude.{◌+◌, ◌<◌, ◌≤◌, length};

use crate::token::Token;

// A token of a line, within it.
#[derive(Clone, Copy, Drop)]
pub struct Lexeme<'a> {
    pub line: &'a [u8],
    pub token: Token,
    pub ghost some: { 0 < token.size },
    pub ghost within: { token.start + token.size ≤ length line.now },
}
