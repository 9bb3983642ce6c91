// What a scan can be made with.
ghost use Rattle.std.specs.Prelude.{◌≡◌};
ghost use Rattle.scan.specs.Answers.{in_range};
ghost use Rattle.scan.specs.Elements.{fits, all_fit};

use crate::element::{Element, Source};

// Whether an element, one with so many to its left, fits so many constants.
fn element_fits(constants: usize, place: usize, element: Element) -> bool
    ensures { result ≡ fits constants place element }
{
    match element {
        Element::Compared(Source::Constant { from, to }) => from <= to && to <= constants,
        Element::Compared(Source::Back(j)) => j < place,
        Element::Fixed(_) | Element::Free(_) => true,
    }
}

// Whether all elements fit.
fn elements_fit(constants: usize, elements: &[Element]) -> bool
    ensures { result ≡ all_fit constants 0 elements.now }
{
    elements
        .iter()
        .enumerate()
        .all(|(i, element)| element_fits(constants, i, *element))
}

// Whether a scan can be made.
pub(crate) fn in_range(constants: usize, elements: &[Element], allowance: usize) -> bool
    ensures { result ≡ in_range constants elements.now allowance }
{
    (1..=8).contains(&elements.len())
        && (1..=1_000_000).contains(&allowance)
        && elements_fit(constants, elements)
}
