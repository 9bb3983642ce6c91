// How far a line is read, and what the next character leads to.
ghost use Rattle.std.specs.Prelude.{◌≡◌};
ghost use Rattle.lines.specs.declared.reading.Reading.{Reading};
ghost use Rattle.lines.specs.Next.{next, label_next, variable_next, go_next, into, in_name, on_blank, in_label, named, closed, begun, digits, stands};

use crate::mark::Mark;

// A label of a go-to: of one for both verdicts, of the first of two at most, of the second.
#[derive(Clone, Copy, Debug, PartialEq, Eq, Drop)]
pub enum Way {
    Both,
    FirstS,
    FirstF,
    SecondS,
    SecondF,
}

// Where a name, or `$` and a name, stands.
#[derive(Clone, Copy, Debug, PartialEq, Eq, Drop)]
pub enum Place {
    Reference,
    Element,
    Operand,
    Target(Way),
}

// Which part of a line a run of blanks stands in.
#[derive(Clone, Copy, Debug, PartialEq, Eq, Drop)]
pub enum Section {
    Reference,
    Start,
    Pattern,
    Right,
    Tail,
}

// The two sides of the equal sign.
#[derive(Clone, Copy, Debug, PartialEq, Eq, Drop)]
pub enum Side {
    Pattern,
    Right,
}

// What digits may still come in the length of a variable.
#[derive(Clone, Copy, Debug, PartialEq, Eq, Drop)]
pub enum Room {
    Three,
    Four,
    FourZero,
    FourZeroNine,
    Two,
    One,
    Full,
}

// Column 1 and the label. Only END's line may have the label END, so its letters are followed.
#[derive(Clone, Copy, Debug, PartialEq, Eq, Drop)]
pub enum LabelReading {
    Begin,
    E,
    En,
    End,
    Name,
    Dot,
}

// Within a variable: `*X*`, `*(X)*`, `*X/"3"*`.
#[derive(Clone, Copy, Debug, PartialEq, Eq, Drop)]
pub enum VariableReading {
    Star,
    Name,
    Dot,
    Open,
    Group,
    GroupDot,
    Slash,
    Quote,
    Length(Room),
    Closing,
    Done,
}

// Within a go-to: `/(L)`, `/S(L)`, `/F(L)`, `/S(L)F(L)`, `/F(L)S(L)`.
#[derive(Clone, Copy, Debug, PartialEq, Eq, Drop)]
pub enum GoReading {
    Slash,
    S,
    F,
    AlsoS,
    AlsoF,
    Into(Way),
    AfterS,
    AfterF,
    Done,
}

#[derive(Clone, Copy, Debug, PartialEq, Eq, Drop)]
pub enum Reading {
    Label(LabelReading),
    Gap(Section),
    Start,
    StartDot,
    Dollar(Place),
    Named(Place),
    Dotted(Place),
    Literal(Side),
    Closed(Side),
    Equal,
    Variable(VariableReading),
    Go(GoReading),
}

// More of a name, or else what follows it.
fn in_name(solidly: Reading, dotted: Reading, rest: Option<Reading>, m: Mark) -> Option<Reading>
    ensures { result ≡ in_name solidly dotted rest m }
{
    match m {
        Mark::Period => Some(dotted),
        _ if m.is_solid() => Some(solidly),
        _ => rest,
    }
}

// A run of blanks, where the mark begins one.
fn gap(section: Section, m: Mark) -> Option<Reading>
    ensures { result ≡ on_blank m (Reading.Gap section) }
{
    (m == Mark::Blank).then_some(Reading::Gap(section))
}

// More of a label, or the blank after it.
fn in_label(m: Mark) -> Option<Reading>
    ensures { result ≡ in_label m }
{
    in_name(
        Reading::Label(LabelReading::Name),
        Reading::Label(LabelReading::Dot),
        gap(Section::Reference, m),
        m,
    )
}

fn label_next(reading: LabelReading, m: Mark) -> Option<Reading>
    ensures { result ≡ label_next reading m }
{
    let name = Reading::Label(LabelReading::Name);
    let dot = Reading::Label(LabelReading::Dot);
    match reading {
        LabelReading::Begin => match m {
            Mark::Blank => Some(Reading::Gap(Section::Reference)),
            Mark::LetterE => Some(Reading::Label(LabelReading::E)),
            _ => m.is_solid().then_some(name),
        },
        LabelReading::E => match m {
            Mark::LetterN => Some(Reading::Label(LabelReading::En)),
            _ => in_label(m),
        },
        LabelReading::En => match m {
            Mark::LetterD => Some(Reading::Label(LabelReading::End)),
            _ => in_label(m),
        },
        LabelReading::End => in_name(name, dot, gap(Section::Start, m), m),
        LabelReading::Name => in_label(m),
        LabelReading::Dot => in_name(name, dot, None, m),
    }
}

// After the `)` of a go-to's label.
fn closed(way: Way) -> Reading
    ensures { result ≡ closed way }
{
    match way {
        Way::FirstS => Reading::Go(GoReading::AfterS),
        Way::FirstF => Reading::Go(GoReading::AfterF),
        Way::Both | Way::SecondS | Way::SecondF => Reading::Go(GoReading::Done),
    }
}

// What m after a name leads to, other than more of the name.
fn named(place: Place, m: Mark) -> Option<Reading>
    ensures { result ≡ named place m }
{
    match place {
        Place::Reference | Place::Element => gap(Section::Pattern, m),
        Place::Operand => gap(Section::Right, m),
        Place::Target(way) => (m == Mark::Close).then_some(closed(way)),
    }
}

// The item that m begins after blanks.
fn begun(section: Section, m: Mark) -> Option<Reading>
    ensures { result ≡ begun section m }
{
    match section {
        Section::Reference => match m {
            Mark::Dollar => Some(Reading::Dollar(Place::Reference)),
            _ => m.is_solid().then_some(Reading::Named(Place::Reference)),
        },
        Section::Start => m.is_solid().then_some(Reading::Start),
        Section::Pattern => match m {
            Mark::Dollar => Some(Reading::Dollar(Place::Element)),
            Mark::Quote => Some(Reading::Literal(Side::Pattern)),
            Mark::Star => Some(Reading::Variable(VariableReading::Star)),
            Mark::Equal => Some(Reading::Equal),
            Mark::Slash => Some(Reading::Go(GoReading::Slash)),
            _ => m.is_solid().then_some(Reading::Named(Place::Element)),
        },
        Section::Right => match m {
            Mark::Dollar => Some(Reading::Dollar(Place::Operand)),
            Mark::Quote => Some(Reading::Literal(Side::Right)),
            Mark::Slash => Some(Reading::Go(GoReading::Slash)),
            _ => m.is_solid().then_some(Reading::Named(Place::Operand)),
        },
        Section::Tail => None,
    }
}

// What m after a digit of a length leads to.
fn digits(left: Room, m: Mark) -> Option<Reading>
    ensures { result ≡ digits left m }
{
    let room = match m {
        Mark::Quote => return Some(Reading::Variable(VariableReading::Closing)),
        Mark::Zero => match left {
            Room::Three => Room::Two,
            Room::Four => Room::FourZero,
            Room::FourZero | Room::Two => Room::One,
            Room::FourZeroNine | Room::One => Room::Full,
            Room::Full => return None,
        },
        Mark::OneToThree | Mark::Four | Mark::FiveSix => match left {
            Room::Three => Room::Two,
            Room::Four | Room::FourZero | Room::Two => Room::One,
            Room::FourZeroNine | Room::One => Room::Full,
            Room::Full => return None,
        },
        Mark::SevenEight => match left {
            Room::Three => Room::Two,
            Room::Four | Room::FourZero | Room::Two => Room::One,
            Room::One => Room::Full,
            Room::FourZeroNine | Room::Full => return None,
        },
        Mark::Nine => match left {
            Room::Three => Room::Two,
            Room::FourZero => Room::FourZeroNine,
            Room::Four | Room::Two => Room::One,
            Room::One => Room::Full,
            Room::FourZeroNine | Room::Full => return None,
        },
        _ => return None,
    };
    Some(Reading::Variable(VariableReading::Length(room)))
}

fn variable_next(reading: VariableReading, m: Mark) -> Option<Reading>
    ensures { result ≡ variable_next reading m }
{
    let name = Reading::Variable(VariableReading::Name);
    let dot = Reading::Variable(VariableReading::Dot);
    let group = Reading::Variable(VariableReading::Group);
    let group_dot = Reading::Variable(VariableReading::GroupDot);
    match reading {
        VariableReading::Star => match m {
            Mark::Open => Some(Reading::Variable(VariableReading::Open)),
            _ => m.is_solid().then_some(name),
        },
        VariableReading::Name => match m {
            Mark::Star => Some(Reading::Variable(VariableReading::Done)),
            Mark::Slash => Some(Reading::Variable(VariableReading::Slash)),
            _ => in_name(name, dot, None, m),
        },
        VariableReading::Dot => in_name(name, dot, None, m),
        VariableReading::Open => m.is_solid().then_some(group),
        VariableReading::Group => match m {
            Mark::Close => Some(Reading::Variable(VariableReading::Closing)),
            _ => in_name(group, group_dot, None, m),
        },
        VariableReading::GroupDot => in_name(group, group_dot, None, m),
        VariableReading::Slash => (m == Mark::Quote).then_some(Reading::Variable(
            VariableReading::Quote,
        )),
        VariableReading::Quote => match m {
            Mark::Zero | Mark::OneToThree => Some(Reading::Variable(VariableReading::Length(
                Room::Three,
            ))),
            Mark::Four => Some(Reading::Variable(VariableReading::Length(Room::Four))),
            Mark::FiveSix | Mark::SevenEight | Mark::Nine => Some(Reading::Variable(
                VariableReading::Length(Room::Two),
            )),
            _ => None,
        },
        VariableReading::Length(left) => digits(left, m),
        VariableReading::Closing => (m == Mark::Star).then_some(Reading::Variable(
            VariableReading::Done,
        )),
        VariableReading::Done => gap(Section::Pattern, m),
    }
}

// The label of a go-to, where the mark is `(`.
fn into(way: Way, m: Mark) -> Option<Reading>
    ensures { result ≡ into way m }
{
    (m == Mark::Open).then_some(Reading::Go(GoReading::Into(way)))
}

fn go_next(reading: GoReading, m: Mark) -> Option<Reading>
    ensures { result ≡ go_next reading m }
{
    match reading {
        GoReading::Slash => match m {
            Mark::LetterS => Some(Reading::Go(GoReading::S)),
            Mark::LetterF => Some(Reading::Go(GoReading::F)),
            _ => into(Way::Both, m),
        },
        GoReading::S => into(Way::FirstS, m),
        GoReading::F => into(Way::FirstF, m),
        GoReading::AlsoS => into(Way::SecondS, m),
        GoReading::AlsoF => into(Way::SecondF, m),
        GoReading::Into(way) => match m {
            Mark::Dollar => Some(Reading::Dollar(Place::Target(way))),
            _ => m.is_solid().then_some(Reading::Named(Place::Target(way))),
        },
        GoReading::AfterS => match m {
            Mark::LetterF => Some(Reading::Go(GoReading::AlsoF)),
            _ => gap(Section::Tail, m),
        },
        GoReading::AfterF => match m {
            Mark::LetterS => Some(Reading::Go(GoReading::AlsoS)),
            _ => gap(Section::Tail, m),
        },
        GoReading::Done => gap(Section::Tail, m),
    }
}

impl Reading {
    pub fn next(self, m: Mark) -> Option<Reading>
        ensures { result ≡ next self m }
    {
        match self {
            Reading::Label(reading) => label_next(reading, m),
            Reading::Gap(section) => match m {
                Mark::Blank => Some(self),
                _ => begun(section, m),
            },
            Reading::Start => in_name(Reading::Start, Reading::StartDot, gap(Section::Tail, m), m),
            Reading::StartDot => in_name(Reading::Start, Reading::StartDot, None, m),
            Reading::Dollar(place) => m.is_solid().then_some(Reading::Named(place)),
            Reading::Named(place) => in_name(self, Reading::Dotted(place), named(place, m), m),
            Reading::Dotted(place) => in_name(Reading::Named(place), self, None, m),
            Reading::Literal(side) => match m {
                Mark::Quote => Some(Reading::Closed(side)),
                _ => Some(self),
            },
            Reading::Closed(Side::Pattern) => gap(Section::Pattern, m),
            Reading::Closed(Side::Right) | Reading::Equal => gap(Section::Right, m),
            Reading::Variable(reading) => variable_next(reading, m),
            Reading::Go(reading) => go_next(reading, m),
        }
    }

    // A statement line may end here.
    pub fn stands(self) -> bool
        ensures { result ≡ stands self }
    {
        matches!(
            self,
            Reading::Gap(Section::Pattern | Section::Right | Section::Tail)
                | Reading::Start
                | Reading::Named(Place::Reference | Place::Element | Place::Operand)
                | Reading::Closed(_)
                | Reading::Equal
                | Reading::Variable(VariableReading::Done)
                | Reading::Go(GoReading::AfterS | GoReading::AfterF | GoReading::Done)
        )
    }
}
