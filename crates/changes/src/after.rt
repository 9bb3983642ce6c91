// The names of a store as a success would leave them, before anything is written.
ghost use Rattle.std.specs.Prelude.{◌≡◌, ◌≤◌, length};
ghost use Rattle.stores.specs.Names.{under};
ghost use Rattle.symbols.specs.Answers.{answered, unless, over};
ghost use Rattle.changes.specs.Success.{Sound, Sound-prop};
ghost use Rattle.changes.specs.Told.{told};
ghost use Rattle.changes.specs.Limits.{over_limits, room_refusal};
ghost use Rattle.changes.specs.Written.{written};

use crate::success::Success;
use patterns::strings::Strings;
use stores::refusal::StoreRefusal;
use stores::store::{Store, is_outside};

// A store, and a success of a checked statement over its names.
#[derive(Drop)]
pub struct After<'a, S: Store> {
    pub store: &'a S,
    pub success: Success<'a, S::Symbol>,
    pub ghost sound: { Sound (S.Store.held store.now) (told success) } by { Sound-prop (S.Store.held store.now) (told success) },
}

// Copies a string to the front of an area.
fn copy_over<T: Copy>(area: &mut [T], string: &[T]) -> usize
    requires { length string.now ≤ length area.old }
    ensures value { result ≡ length string.now }
    ensures after { area.new ≡ over string.now area.old }
{
    let n = string.len();
    area[0..n].copy_from_slice(string);
    n
}

// Copies a string to the front of an area that takes it, and tells its length.
fn copy_front<T: Copy>(area: &mut [T], string: &[T]) -> Result<usize, StoreRefusal>
    ensures answer { result ≡ answered (room_refusal (length area.old) string.now) (length string.now) }
    ensures area { area.new ≡ unless (room_refusal (length area.old) string.now) area.old (over string.now area.old) }
{
    if string.len() > area.len() {
        return Err(StoreRefusal::ShortArea);
    }
    Ok(copy_over(area, string))
}

impl<'a, S: Store> After<'a, S> {
    // The length of a name's string.
    fn length_of(&self, name: usize) -> usize
        ensures { result ≡ length (under (written (told self.now.success) (S.Store.held self.now.store.now)) name) }
    {
        match self.success.new_string(name) {
            Some(string) => string.len(),
            None => self.store.length(name).unwrap_or(0),
        }
    }

    // Whether the writes would go over a limit: with a string that is too long, or with all together.
    pub fn is_over(&self) -> bool
        ensures { result ≡ over_limits (written (told self.now.success) (S.Store.held self.now.store.now)) }
    {
        let limits = self.store.tell();
        let mut sum = 0;
        // Names count from 1: over `1..=names` the end of the loop would have two proofs, and not be plainer.
        for i in 0..limits.names {
            let n = self.length_of(i + 1);
            if n > limits.longest {
                return true;
            }
            if n > limits.most - sum {
                return true;
            }
            sum += n;
        }
        false
    }
}

impl<'a, S: Store> Strings for After<'a, S> {
    type Symbol = S::Symbol;

    ghost names = { λ after. written (told after.success) (S.Store.held after.store.now) };

    fn read(&self, name: usize, area: &mut [S::Symbol]) -> Result<usize, StoreRefusal> {
        let limits = self.store.tell();
        if is_outside(name, limits.names) {
            return Err(StoreRefusal::OutOfRange);
        }
        match self.success.new_string(name) {
            Some(string) => copy_front(area, string),
            None => self.store.fetch(name, area),
        }
    }
}
