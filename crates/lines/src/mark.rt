// What a character is to the form of a line.
ghost use Rattle.std.specs.Prelude.{◌≡◌};
ghost use Rattle.lines.specs.Marks.{mark_of, solid};

// The digits are told apart as far as the greatest length, 4096, asks.
#[derive(Clone, Copy, Debug, PartialEq, Eq, Drop)]
pub enum Mark {
    Blank,
    LetterE,
    LetterN,
    LetterD,
    LetterS,
    LetterF,
    Letter,
    Zero,
    OneToThree,
    Four,
    FiveSix,
    SevenEight,
    Nine,
    Period,
    Quote,
    Dollar,
    Star,
    Slash,
    Open,
    Close,
    Equal,
    Other,
}

// The mark of a character.
impl From<u8> for Mark {
    ghost from_gives = { λ c m. m ≡ mark_of c };

    fn from(c: u8) -> Mark {
        match c {
            b' ' => Mark::Blank,
            b'E' => Mark::LetterE,
            b'N' => Mark::LetterN,
            b'D' => Mark::LetterD,
            b'S' => Mark::LetterS,
            b'F' => Mark::LetterF,
            b'A'..=b'Z' => Mark::Letter,
            b'0' => Mark::Zero,
            b'1'..=b'3' => Mark::OneToThree,
            b'4' => Mark::Four,
            b'5'..=b'6' => Mark::FiveSix,
            b'7'..=b'8' => Mark::SevenEight,
            b'9' => Mark::Nine,
            b'.' => Mark::Period,
            b'"' => Mark::Quote,
            b'$' => Mark::Dollar,
            b'*' => Mark::Star,
            b'/' => Mark::Slash,
            b'(' => Mark::Open,
            b')' => Mark::Close,
            b'=' => Mark::Equal,
            _ => Mark::Other,
        }
    }
}

impl Mark {
    // A capital or a digit: what may begin and end a name.
    pub fn is_solid(self) -> bool
        ensures { result ≡ solid self }
    {
        matches!(
            self,
            Mark::LetterE
                | Mark::LetterN
                | Mark::LetterD
                | Mark::LetterS
                | Mark::LetterF
                | Mark::Letter
                | Mark::Zero
                | Mark::OneToThree
                | Mark::Four
                | Mark::FiveSix
                | Mark::SevenEight
                | Mark::Nine
        )
    }
}
