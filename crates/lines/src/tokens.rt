// The tokens of a line, one after the other.
ghost use Rattle.std.specs.Prelude.{◌≡◌, ◌-◌, length};
ghost use Rattle.std.specs.Iterator.{at_most};
ghost use Rattle.lines.specs.Tokens.{tokens};
ghost use Rattle.lines.specs.Walks.{tokens_left, GivesToken};

use crate::lexeme::Lexeme;
use crate::reading::{LabelReading, Reading};
use crate::token::token_at;

// The tokens of a line from `at` on, where it is read as `reading` says.
#[derive(Clone, Copy, Drop)]
pub struct Tokens<'a> {
    line: &'a [u8],
    at: usize,
    reading: Reading,
}

impl<'a> Tokens<'a> {
    pub fn of(line: &'a [u8]) -> Tokens<'a>
        ensures line { result.line.now ≡ line.now }
        ensures tokens { tokens_left result ≡ tokens line.now }
    {
        Tokens {
            line,
            at: 0,
            reading: Reading::Label(LabelReading::Begin),
        }
    }
}

impl<'a> Iterator for Tokens<'a> {
    type Item = Lexeme<'a>;

    ghost next_gives = { GivesToken };

    ghost remaining = { λ s. at_most (length s.line.now - s.at) };

    fn next(&mut self) -> Option<Lexeme<'a>> {
        let taken = token_at(self.line, self.at, self.reading)?;
        self.at += taken.token.size;
        self.reading = taken.reading;
        Some(Lexeme {
            line: self.line,
            token: taken.token,
        })
    }
}
