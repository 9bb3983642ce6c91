// The lines of a text.
ghost use Rattle.std.specs.Prelude.{◌≡◌, ◌+◌, ◌-◌, ◌≤◌, length, drop};
ghost use Rattle.std.specs.Iterator.{at_most};
ghost use Rattle.lines.specs.Texts.{line_length};
ghost use Rattle.lines.specs.Walks.{GivesLine};

use crate::placed::Line;

// How long the first line of a text is.
fn line_length(text: &[u8]) -> usize
    ensures value { result ≡ line_length text.now }
    ensures within { result ≤ length text.now }
{
    let end = text.iter().position(|c| *c == b'\n');
    end.unwrap_or(text.len())
}

// The end of the line that begins at `from`.
pub fn line_end(text: &[u8], from: usize) -> usize
    requires { from ≤ length text.now }
    ensures within { result ≤ length text.now }
    ensures above { from ≤ result }
    ensures value { result - from ≡ line_length (drop from text.now) }
{
    from + line_length(&text[from..])
}

// The lines of a text that begin at `from` or behind it.
#[derive(Clone, Copy, Drop)]
pub struct Lines<'a> {
    text: &'a [u8],
    from: usize,
}

impl<'a> Lines<'a> {
    pub fn of(text: &'a [u8]) -> Lines<'a>
        ensures text { result.text.now ≡ text.now }
        ensures from { result.from ≡ 0 }
    {
        Lines { text, from: 0 }
    }
}

impl<'a> Iterator for Lines<'a> {
    type Item = Line<'a>;

    ghost next_gives = { GivesLine };

    ghost remaining = { λ s. at_most (length s.text.now - s.from) };

    fn next(&mut self) -> Option<Line<'a>> {
        if self.from >= self.text.len() {
            return None;
        }
        let from = self.from;
        let end = line_end(self.text, from);
        self.from = end + 1;
        Some(Line {
            text: self.text,
            from,
            characters: &self.text[from..end],
        })
    }
}
