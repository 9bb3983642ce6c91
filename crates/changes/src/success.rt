// A success: how the scanned string is cut, and what the string reference gets.
ghost use Rattle.std.specs.Prelude.{◌≡◌};
ghost use Rattle.changes.specs.Success.{Placed, Placed-prop, telling};

use std::alloc::AllocError;
use tables::row::Item;

// A start and the end of each element, as in a placing; without new contents there is no reference.
#[derive(Copy)]
pub struct Success<'a, T> {
    pub subject: &'a [T],
    pub items: &'a [Item],
    pub start: usize,
    pub ends: &'a [usize],
    pub reference: Option<usize>,
    pub contents: &'a [T],
    pub ghost placed: { Placed (telling subject.now items.now start ends.now reference contents.now) } by { Placed-prop (telling subject.now items.now start ends.now reference contents.now) },
}

// By hand: `Clone` cannot be derived over a ghost field.
impl<'a, T> Clone for Success<'a, T> {
    ghost is_clone = { λ success copy. copy ≡ success };

    fn clone(&self) -> Result<Self, AllocError> {
        Ok(Success {
            subject: self.subject,
            items: self.items,
            start: self.start,
            ends: self.ends,
            reference: self.reference,
            contents: self.contents,
        })
    }
}
