// What a line is, and how far it goes as a statement line does.
ghost use Rattle.std.specs.Prelude.{◌≡◌, ◌≤◌, [], ◌∷◌, map, length};
ghost use Rattle.lines.specs.Lines.{longest, Longest, comment, all_blank, idle, is_statement, form_of, Says, Tokenized};
ghost use Rattle.lines.specs.Marks.{mark_of};
ghost use Rattle.lines.specs.Ends.{begins_end};
ghost use Rattle.lines.specs.NameForm.{NameForm};

use crate::mark::Mark;
use crate::reading::{LabelReading, Reading};

// An idle line, a statement, END's line, or a line that is none of these.
#[derive(Clone, Copy, Debug, PartialEq, Eq, Drop)]
pub enum Form {
    Idle,
    Statement,
    End,
    Broken,
}

#[derive(Clone, Copy, Debug, PartialEq, Eq, Drop)]
pub struct LineRead {
    pub reach: usize,
    pub form: Form,
}

fn is_comment(line: &[u8]) -> bool
    ensures { result ≡ comment line.now }
{
    line.starts_with(b"*")
}

fn is_blank(line: &[u8]) -> bool
    ensures { result ≡ all_blank line.now }
{
    line.iter().all(|c| *c == b' ')
}

pub fn is_idle(line: &[u8]) -> bool
    ensures { result ≡ idle line.now }
{
    is_comment(line) || is_blank(line)
}

// Whether the line begins as only END's line may.
fn begins_end(line: &[u8]) -> bool
    ensures { result ≡ begins_end (map mark_of line.now) }
{
    line.starts_with(b"END ")
}

// How far a line goes as a statement line does, and whether it is one.
#[derive(Clone, Copy, Drop)]
struct Walked {
    reach: usize,
    whole: bool,
}

fn walk(line: &[u8]) -> Walked
    ensures reach { result.reach ≡ longest line.now }
    ensures whole { result.whole ≡ is_statement line.now }
{
    let mut reading = Reading::Label(LabelReading::Begin);
    for (i, c) in line.iter().enumerate() {
        let Some(then) = reading.next(Mark::from(*c)) else {
            return Walked {
                reach: i,
                whole: false,
            };
        };
        reading = then;
    }
    Walked {
        reach: line.len(),
        whole: reading.stands(),
    }
}

fn line_form(line: &[u8], whole: bool) -> Form
    requires { whole ≡ is_statement line.now }
    ensures { result ≡ form_of line.now }
{
    if is_idle(line) {
        Form::Idle
    } else if !whole {
        Form::Broken
    } else if begins_end(line) {
        Form::End
    } else {
        Form::Statement
    }
}

// Reads a line: what it is, and how many of its characters some statement line begins with.
pub fn read_line(line: &[u8]) -> LineRead
    ensures reach { result.reach ≡ longest line.now }
    ensures within { result.reach ≤ length line.now }
    ensures longest { Longest line.now result.reach }
    ensures form { result.form ≡ form_of line.now }
    ensures says { Says line.now result.form }
    ensures tokens { Tokenized line.now }
    ensures names { NameForm }
{
    let walked = walk(line);
    LineRead {
        reach: walked.reach,
        form: line_form(line, walked.whole),
    }
}
