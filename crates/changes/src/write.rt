// The writes of a successful statement.
ghost use Rattle.std.specs.Prelude.{◌≡◌, false};
ghost use Rattle.std.specs.Option.{option_copied};
ghost use Rattle.changes.specs.Success.{Sound};
ghost use Rattle.changes.specs.Told.{told};
ghost use Rattle.changes.specs.Sources.{OneSource};
ghost use Rattle.changes.specs.Passes.{changed, Puts, IsPass};
ghost use Rattle.changes.specs.Limits.{over_limits};
ghost use Rattle.changes.specs.Written.{written};

use crate::success::Success;
use stores::store::Store;

// Puts a name's new string, if there is one that can be put.
fn put_one<S: Store>(store: &mut S, name: usize, string: Option<&[S::Symbol]>)
    ensures { Puts (S.Store.held store.old) name (option_copied string.entry) → S.Store.held store.new ≡ changed (S.Store.held store.old) name (option_copied string.entry) }
{
    if let Some(new) = string {
        let _ = store.put(name, new);
    }
}

// One pass over the names: where a name gets a string, what the closure makes of it is put.
fn put_all<'a, S: Store, F: Fn(&'a [S::Symbol]) -> &'a [S::Symbol]>(
    store: &mut S,
    success: Success<'a, S::Symbol>,
    change: F,
)
    requires { F.IsAlwaysCallable change }
    ensures { IsPass (F.post change) (λ s. s.now) (told success.entry) (S.Store.held store.old) (S.Store.held store.new) }
{
    let limits = store.tell();
    // Names count from 1, as in `is_over`.
    for i in 0..limits.names {
        let name = i + 1;
        put_one(store, name, success.new_string(name).map(&change));
    }
}

// All writes of a success. The names to be written become null first, so that no put is refused on the way to names within the limits.
pub fn write_all<S: Store>(store: &mut S, success: Success<S::Symbol>)
    requires sound { Sound (S.Store.held store.old) (told success) }
    requires fits { over_limits (written (told success) (S.Store.held store.old)) ≡ false }
    ensures after { S.Store.held store.new ≡ written (told success.entry) (S.Store.held store.old) }
    ensures source { OneSource (told success.entry) (S.Store.held store.old) (S.Store.held store.new) }
{
    put_all(store, success, |_| &[]);
    put_all(store, success, |string| string);
}
