// A list of puts, carried out in its order.
ghost use Rattle.std.specs.Prelude.{◌≡◌, length};
ghost use Rattle.stores.specs.Names.{limits};
ghost use Rattle.stores.specs.Puts.{after_puts, accepted, LastStands};

use crate::store::Store;

// A string for a number.
#[derive(Clone, Copy)]
pub struct Put<'a, T> {
    pub number: usize,
    pub string: &'a [T],
}

// Carries out each put or sees it refused, and tells how many were accepted.
pub fn put_all<S: Store>(store: &mut S, puts: &[Put<S::Symbol>]) -> usize
    ensures answer { result ≡ length (accepted (S.Store.held store.old) puts.now) }
    ensures after { S.Store.held store.new ≡ after_puts (S.Store.held store.old) puts.now }
    ensures last { LastStands (S.Store.held store.old) puts.now (S.Store.held store.new) }
    ensures same { limits (S.Store.held store.new) ≡ limits (S.Store.held store.old) }
{
    let mut count = 0;
    for put in puts {
        if store.put(put.number, put.string).is_ok() {
            count += 1;
        }
    }
    count
}
