// Reading numbered strings: those of a store, or those that it would have after writes.
ghost use Rattle.std.specs.Prelude.{◌≡◌, ◌≤◌, length};
ghost use Rattle.symbols.specs.Answers.{over};
ghost use Rattle.stores.specs.Names.{Names, under};
ghost use Rattle.stores.specs.Calls.{fetch_answer, after_fetch};

use stores::refusal::StoreRefusal;
use stores::store::Store;

// Strings by number, from 1 on, that can be read.
pub trait Strings {
    type Symbol: Copy;

    // The names whose strings they are.
    ghost names: { Self → Names Self.Symbol };

    // Copies the string of a number to the front of an area, and tells its length.
    fn read(&self, number: usize, area: &mut [Self::Symbol]) -> Result<usize, StoreRefusal>
        ensures answer { result ≡ fetch_answer (names self.now) number area.old }
        ensures area { area.new ≡ after_fetch (names self.now) number area.old };
}

// The strings of a store as they are.
impl<S: Store> Strings for S {
    type Symbol = S::Symbol;

    ghost names = { S.Store.held };

    fn read(&self, number: usize, area: &mut [S::Symbol]) -> Result<usize, StoreRefusal> {
        self.fetch(number, area)
    }
}

// Copies a string to the front of an area that takes it, and tells its length; a number that no string has is that of the null string.
pub fn contents<R: Strings>(strings: &R, number: usize, area: &mut [R::Symbol]) -> usize
    requires { length (under (R.Strings.names strings.now) number) ≤ length area.old }
    ensures value { result ≡ length (under (R.Strings.names strings.now) number) }
    ensures area { area.new ≡ over (under (R.Strings.names strings.now) number) area.old }
{
    strings.read(number, area).unwrap_or(0)
}
