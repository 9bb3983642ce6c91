// The input of the bench: a sheet up to END's line, and the line behind it.
ghost use Rattle.std.specs.Prelude.{◌≡◌, ◌+◌, ◌≤◌, min, length};
ghost use Rattle.bench_session.specs.Input.{sheet_end};

use lines::text::Lines;
use sheets::check::labelled_end;

// The place behind the line that ends at `end`: past its code 10, if it has one.
fn past(text: &[u8], end: usize) -> usize
    requires { end ≤ length text.now }
    ensures { result ≡ min (end + 1) (length text.now) }
{
    if end < text.len() { end + 1 } else { end }
}

// Where the sheet ends: behind the first line that is labelled END, or with the text.
pub fn sheet_end(text: &[u8]) -> usize
    ensures { result ≡ sheet_end text.now }
{
    for line in Lines::of(text) {
        if labelled_end(line.characters) {
            return past(text, line.from + line.characters.len());
        }
    }
    text.len()
}
