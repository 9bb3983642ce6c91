// A row that is being filled, token by token.
ghost use Rattle.std.specs.Prelude.{◌≡◌, []};
ghost use Rattle.rows.specs.Filling.{with_item, with_operand, entered, with_given};
ghost use Rattle.rows.specs.Rows.{right_side_of, row_of};

use crate::entry::Entry;
use crate::fill::push;
use crate::label::Label;
use tables::row::{Item, Operand, Pattern, Reference, RightSide, RowOf};

fn no_operands() -> RightSide
    ensures { result ≡ right_side_of [] }
{
    RightSide {
        operands: [Operand::Literal(0, 0); 8],
        count: 0,
    }
}

// A row of nothing.
pub fn blank_row<L: Label>() -> RowOf<L>
    ensures { result ≡ row_of [] }
{
    RowOf {
        label: None,
        reference: Reference::Named(0),
        pattern: Pattern {
            items: [Item::Operand(Operand::Literal(0, 0)); 8],
            count: 0,
        },
        right_side: None,
        on_success: None,
        on_failure: None,
    }
}

fn push_item(pattern: &mut Pattern, item: Item)
    ensures { pattern.new ≡ with_item pattern.old item }
{
    pattern.count = push(&mut pattern.items, pattern.count, item);
}

fn push_operand(right_side: &mut RightSide, operand: Operand)
    ensures { right_side.new ≡ with_operand operand right_side.old }
{
    right_side.count = push(&mut right_side.operands, right_side.count, operand);
}

// A row once a token's entry is in it.
fn enter<L: Label>(row: RowOf<L>, entry: Entry<L>) -> RowOf<L>
    ensures { result ≡ entered row entry }
{
    let mut row = row;
    match entry {
        Entry::Label(label) => row.label = Some(label),
        Entry::Reference(reference) => row.reference = reference,
        Entry::Element(item) => push_item(&mut row.pattern, item),
        Entry::Equal => row.right_side = Some(row.right_side.unwrap_or(no_operands())),
        Entry::Operand(operand) => {
            if let Some(right_side) = &mut row.right_side {
                push_operand(right_side, operand);
            }
        }
        Entry::Both(target) => {
            row.on_success = Some(target);
            row.on_failure = Some(target);
        }
        Entry::OnS(target) => row.on_success = Some(target),
        Entry::OnF(target) => row.on_failure = Some(target),
    }
    row
}

// A row once what a token gives, if anything, is in it.
pub(crate) fn enter_given<L: Label>(row: RowOf<L>, given: Option<Entry<L>>) -> RowOf<L>
    ensures { result ≡ with_given row given }
{
    match given {
        Some(entry) => enter(row, entry),
        None => row,
    }
}
