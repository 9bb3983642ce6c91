// Constants of a pattern, one behind the other in an area.
ghost use Rattle.std.specs.Prelude.{◌≡◌, ℕ, ◌+◌, ◌≤◌, length, Some};
ghost use Rattle.placings.specs.Pattern.{constant, part};
ghost use Rattle.patterns.specs.Gathering.{Gathers, end_with};

use scan::element::{Element, Source};

// A constant copied behind the others.
// The area and how much of it is used stay two parameters: in one struct each function would have to say that it is the same area, of the same length.
fn put_constant<T: Copy>(symbols: &[T], area: &mut [T], used: usize) -> Element
    requires { used + length symbols.now ≤ length area.old }
    ensures { (i : ℕ) → Gathers (length symbols.now) used i area.old area.new (Some (constant symbols.now)) (Some result) }
{
    let end = used + symbols.len();
    area[used..end].copy_from_slice(symbols);
    Element::Compared(Source::Constant {
        from: used,
        to: end,
    })
}

// The literal of a part of the constants, copied behind the others; one that is longer than every subject is handed on as a length that no part has.
pub fn gather_literal<T: Copy>(
    constants: &[T],
    from: usize,
    to: usize,
    longest: usize,
    area: &mut [T],
    used: usize,
) -> Element
    requires { used + longest ≤ length area.old }
    ensures { (i : ℕ) → Gathers longest used i area.old area.new (Some (constant (part constants.now from to))) (Some result) }
{
    let end = to.min(constants.len());
    let start = from.min(end);
    if end - start > longest {
        return Element::Fixed(longest + 1);
    }
    put_constant(&constants[start..end], area, used)
}

// Where the constants end with an element.
pub fn end_with(used: usize, element: Element) -> usize
    ensures { result ≡ end_with used element }
{
    match element {
        Element::Compared(source) => match source {
            Source::Constant { from: _, to } => to,
            Source::Back(_) => used,
        },
        Element::Fixed(_) => used,
        Element::Free(_) => used,
    }
}
