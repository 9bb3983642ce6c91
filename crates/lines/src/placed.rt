// A line with the text that it stands in.
ghost use Rattle.std.specs.Prelude.{◌≤◌, length};
ghost use Rattle.lines.specs.Texts.{Lies};

// A line of a text: where it begins, counted from 0, and its characters.
#[derive(Clone, Copy, Drop)]
pub struct Line<'a> {
    pub text: &'a [u8],
    pub from: usize,
    pub characters: &'a [u8],
    pub ghost place: { from ≤ length text.now },
    pub ghost lies: { Lies text.now from characters.now },
}
