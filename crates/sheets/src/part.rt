// Parts of a text, and the search of a word among them.
ghost use Rattle.std.specs.Prelude.{◌≡◌, ◌<◌, ◌≤◌, map, length, take};
ghost use Rattle.std.specs.Str.{bytes_eq};
ghost use Rattle.sheets.specs.Parts.{part_of, words, position, First, with_word};

// A part of a text: where it starts, counted from 0, and its length.
#[derive(Clone, Copy, Debug, PartialEq, Eq, Drop)]
pub struct Part {
    pub start: usize,
    pub size: usize,
}

// The characters of a part, as far as the text has them.
pub fn part_of(text: &[u8], part: Part) -> &[u8]
    ensures { result.now ≡ part_of text.now part }
{
    let start = part.start.min(text.len());
    let end = start + part.size.min(text.len() - start);
    &text[start..end]
}

pub fn same_text(a: &[u8], b: &[u8]) -> bool
    ensures { result ≡ bytes_eq a.now b.now }
{
    a == b
}

// Whether the part spells the word.
fn spells(text: &[u8], part: Part, word: &[u8]) -> bool
    ensures { result ≡ bytes_eq (part_of text.now part) word.now }
{
    same_text(part_of(text, part), word)
}

// The first of the parts that spells the word, counted from 0; absent where none does.
pub fn find_word(text: &[u8], parts: &[Part], word: &[u8]) -> Option<usize>
    ensures value { result ≡ position word.now (map (part_of text.now) parts.now) }
    ensures first { First word.now (map (part_of text.now) parts.now) result }
{
    for (i, part) in parts.iter().enumerate() {
        if spells(text, *part, word) {
            return Some(i);
        }
    }
    None
}

// Parts of a text as the words that they spell.
#[derive(Clone, Copy, Drop)]
pub struct Words<'a> {
    pub text: &'a [u8],
    pub parts: &'a [Part],
}

impl<'a> Words<'a> {
    // The first `count` parts as words.
    pub fn first(text: &'a [u8], parts: &'a [Part], count: usize) -> Words<'a>
        requires { count ≤ length parts.now }
        ensures words { words result ≡ map (part_of text.now) (take count parts.now) }
        ensures text { result.text.now ≡ text.now }
    {
        Words {
            text,
            parts: &parts[0..count],
        }
    }

    // The place of the first that is `word`, counted from 0; absent where none is.
    pub fn find(self, word: &[u8]) -> Option<usize>
        ensures value { result ≡ position word.now (words self.entry) }
        ensures first { First word.now (words self.entry) result }
    {
        find_word(self.text, self.parts, word)
    }
}

// Adds the word at `part` to the first `count` parts, unless one of them spells it; the new count.
pub(crate) fn note_word(text: &[u8], parts: &mut [Part], count: usize, part: Part) -> usize
    requires { count < length parts.old }
    ensures words { map (part_of text.now) (take result parts.new) ≡ with_word (part_of text.now part) (map (part_of text.now) (take count parts.old)) }
    ensures room { result ≤ length parts.new }
{
    let known = Words::first(text, parts, count);
    if known.find(part_of(text, part)).is_some() {
        return count;
    }
    parts[count] = part;
    count + 1
}
