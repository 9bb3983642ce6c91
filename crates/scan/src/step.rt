// How a scan goes on after an element has looked for an end.
ghost use Rattle.std.specs.Prelude.{◌≡◌};
ghost use Rattle.scan.specs.Steps.{course};

// Forward to the next element, from an end; back to an element further left; done; or out of trials.
#[derive(Clone, Copy, PartialEq, Eq, Debug)]
pub enum Move {
    Forward(usize),
    Back,
    Done,
    Spent,
}

// The move: `last` says whether the scan stands at the last element, `left` how many trials it has, `end` what the element found.
pub(crate) fn step(last: bool, left: usize, end: Option<usize>) -> Move
    ensures { result ≡ course last left end }
{
    match (end, last) {
        (None, _) => Move::Back,
        (Some(_), _) if left == 0 => Move::Spent,
        (Some(_), true) => Move::Done,
        (Some(e), false) => Move::Forward(e),
    }
}
