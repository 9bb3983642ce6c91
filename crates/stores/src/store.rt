// The interface of a store of numbered strings.
ghost use Rattle.std.specs.Prelude.{◌≡◌, ◌||◌, ◌==◌, nat_lt};
ghost use Rattle.stores.specs.Names.{Names, Bounded, limits};
ghost use Rattle.stores.specs.Calls.{put_answer, after_put, fetch_answer, after_fetch, length_answer};

use crate::limits::Limits;
use crate::refusal::StoreRefusal;

// Strings by number, from 1 on.
pub trait Store {
    type Symbol: Copy;

    // What the store means, whatever its fields hold.
    ghost held: { Self → Names Self.Symbol };

    // Every store is within its limits.
    ghost bounds: { (s : Self) → Bounded (held s) };

    // Replaces the string of a number.
    fn put(&mut self, number: usize, string: &[Self::Symbol]) -> Result<(), StoreRefusal>
        ensures answer { result ≡ put_answer (held self.old) number string.now }
        ensures after { held self.new ≡ after_put (held self.old) number string.now };

    // Copies the string of a number to the front of an area, and tells its length.
    fn fetch(&self, number: usize, area: &mut [Self::Symbol]) -> Result<usize, StoreRefusal>
        ensures answer { result ≡ fetch_answer (held self.now) number area.old }
        ensures area { area.new ≡ after_fetch (held self.now) number area.old };

    // The length of the string of a number.
    fn length(&self, number: usize) -> Result<usize, StoreRefusal>
        ensures { result ≡ length_answer (held self.now) number };

    // How many strings there are, and the limits.
    fn tell(&self) -> Limits
        ensures { result ≡ limits (held self.now) };
}

// Whether none of so many strings has the number.
pub fn is_outside(number: usize, names: usize) -> bool
    ensures { result ≡ (number == 0 || nat_lt names number) }
{
    number == 0 || number > names
}
