// The tokens of a line.
ghost use Rattle.std.specs.Prelude.{◌≡◌};
ghost use Rattle.lines.specs.Tokens.{Next};

use crate::mark::Mark;
use crate::reading::Reading;
use crate::role::Role;

// A part of a line with one role: where it starts, counted from 0, and its length.
#[derive(Clone, Copy, Debug, PartialEq, Eq, Drop)]
pub struct Token {
    pub role: Role,
    pub start: usize,
    pub size: usize,
}

// A token, and the reading after it.
#[derive(Clone, Copy, Debug, PartialEq, Eq, Drop)]
pub struct Taken {
    pub token: Token,
    pub reading: Reading,
}

// The token at `from`, where the line is read as `reading` says; absent where no statement line goes on so.
pub fn token_at(line: &[u8], from: usize, reading: Reading) -> Option<Taken>
    ensures { Next line.now from reading result }
{
    if from >= line.len() {
        return None;
    }
    let begun = reading.next(Mark::from(line[from]))?;
    let role = Role::from(begun);
    let mut reading = begun;
    let mut end = from + 1;
    while end < line.len() {
        let Some(then) = reading.next(Mark::from(line[end])) else {
            break;
        };
        if Role::from(then) != role {
            break;
        }
        reading = then;
        end += 1;
    }
    Some(Taken {
        token: Token {
            role,
            start: from,
            size: end - from,
        },
        reading,
    })
}
