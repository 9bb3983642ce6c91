// A refused sheet as people like to see it.
#![tactic(auto)]

use lines::text::Lines;
use sheets::fault::{Cause, Refusal};
use std::{fmt, str};

// How many characters are shown at once.
const ROOM: usize = 128;

// The characters of a line, with `?` for what cannot be printed.
#[derive(Clone, Copy)]
struct Printable<'a>(&'a [u8]);

impl<'a> fmt::Display for Printable<'a> {
    fn fmt<W: fmt::Write>(&self, f: &mut fmt::Formatter<W>) -> fmt::Result {
        for part in self.0.chunks(ROOM) {
            let mut shown = [b'?'; ROOM];
            for (i, c) in part.iter().enumerate() {
                if matches!(*c, 32..=126) {
                    shown[i] = *c;
                }
            }
            f.write_str(str::from_utf8(&shown[..part.len()]).map_err(|_| fmt::Error)?)?;
        }
        Ok(())
    }
}

// A refusal of a text: its numbers; then the line that has it, with a caret under the column, and what is wrong.
#[derive(Clone, Copy)]
pub struct Refused<'a> {
    pub text: &'a [u8],
    pub refusal: Refusal,
}

impl<'a> fmt::Display for Refused<'a> {
    fn fmt<W: fmt::Write>(&self, f: &mut fmt::Formatter<W>) -> fmt::Result {
        let Refusal {
            line,
            column,
            cause,
        } = self.refusal;
        let (number, layer) = (cause.number(), cause.layer());
        write!(
            f,
            "refused {number} line {line} column {column} layer {layer}"
        )?;
        if let Cause::Symbol(fault) = cause {
            let fault = fault.number();
            write!(f, " symbol {fault}")?;
        }
        if line == 0 {
            return write!(f, "\n{cause}");
        }
        let place = Lines::of(self.text).nth(line - 1);
        let shown = Printable(place.map_or(&[], |place| place.characters));
        write!(f, "\n{shown}\n{:>column$} {cause}", '^')
    }
}

#[cfg(test)]
mod tests {
    use crate::Refused;
    use sheets::fault::{Cause, Refusal};

    #[test]
    fn second_line(rt: HostRuntime) {
        let refused = Refused {
            text: b"A\n\x01B C\nEND",
            refusal: Refusal {
                line: 2,
                column: 1,
                cause: Cause::BadCode,
            },
        };
        let shown = refused.to_string(rt.alloc()).expect(&rt, "memory");
        assert_eq!(rt;
            shown.as_str(),
            "refused 3 line 2 column 1 layer 2\n?B C\n^ this character may not stand in a sheet"
        );
    }
}
