// One item of a pattern as an element of a scan, its constant behind the others in an area.
ghost use Rattle.std.specs.Prelude.{◌+◌, ◌≤◌, length};
ghost use Rattle.patterns.specs.Meant.{meant};
ghost use Rattle.patterns.specs.Resolved.{name_element, item_element};
ghost use Rattle.patterns.specs.Gathering.{Gathers};

use crate::constant::gather_literal;
use crate::reference::meant_by;
use crate::strings::contents;
use crate::variable::nearest_variable;
use scan::element::{Element, Source, Variable};
use stores::store::Store;
use symbols::kind::Kind;
use tables::listing::Listing;
use tables::row::{Form, Item, Operand, Reference};

// What a reference means behind some items: a back reference, or the contents of a name as a constant.
fn gather_name<K: Kind, S: Store<Symbol = K::Symbol>>(
    listing: Listing<K>,
    store: &S,
    left: &[Item],
    reference: Reference,
    area: &mut [K::Symbol],
    used: usize,
) -> Option<Element>
    requires { used + (S.Store.held store.now).longest ≤ length area.old }
    ensures { Gathers (S.Store.held store.now).longest used (length left.now) area.old area.new (name_element (S.Store.held store.now) left.now (meant K.Kind.chars listing.entry.names.now (S.Store.held store.now) reference)) result }
{
    let end = area.len();
    let number = meant_by(listing, store, reference, &mut area[used..end])?;
    if let Some(place) = nearest_variable(left, number) {
        return Some(Element::Compared(Source::Back(place)));
    }
    let length = contents(store, number, &mut area[used..end]);
    Some(Element::Compared(Source::Constant {
        from: used,
        to: used + length,
    }))
}

// An item behind some others.
pub fn gather_item<K: Kind, S: Store<Symbol = K::Symbol>>(
    listing: Listing<K>,
    store: &S,
    left: &[Item],
    item: Item,
    area: &mut [K::Symbol],
    used: usize,
) -> Option<Element>
    requires { used + (S.Store.held store.now).longest ≤ length area.old }
    ensures { Gathers (S.Store.held store.now).longest used (length left.now) area.old area.new (item_element K.Kind.chars listing.entry.names.now listing.entry.constants.now (S.Store.held store.now) left.now item) result }
{
    match item {
        Item::Operand(operand) => match operand {
            Operand::Literal(from, to) => {
                let longest = store.tell().longest;
                Some(gather_literal(listing.constants, from, to, longest, area, used))
            }
            Operand::Contents(reference) => {
                gather_name(listing, store, left, reference, area, used)
            }
        },
        Item::Variable(variable) => match variable.form {
            Form::Arbitrary => Some(Element::Free(Variable::Arbitrary)),
            Form::Balanced => Some(Element::Free(Variable::Balanced)),
            Form::Fixed(size) => Some(Element::Fixed(size)),
        },
    }
}
