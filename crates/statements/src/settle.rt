// The writes of a success, and where it leads.
ghost use Rattle.std.specs.Prelude.{◌≡◌, ◌≤◌, length};
ghost use Rattle.changes.specs.Success.{Sound};
ghost use Rattle.changes.specs.Told.{told};
ghost use Rattle.changes.specs.Written.{written};
ghost use Rattle.statements.specs.GoTos.{leads};
ghost use Rattle.statements.specs.Settled.{left, settled, next_of, names_of};

use crate::goto::goes_to;
use crate::refusal::StatementRefusal;
use crate::statement::Statement;
use changes::after::After;
use changes::success::Success;
use changes::write::write_all;
use stores::store::Store;
use symbols::kind::Kind;
use tables::row::Next;

// Whether the writes may be made, and where the statement then leads; the area takes what `$` reads.
fn settle<K: Kind, S: Store<Symbol = K::Symbol>>(
    statement: Statement<K>,
    store: &S,
    success: Success<K::Symbol>,
    area: &mut [K::Symbol],
) -> Result<Next, StatementRefusal>
    requires sound { Sound (S.Store.held store.now) (told success) }
    requires room { (S.Store.held store.now).longest ≤ length area.old }
    ensures { result ≡ next_of (settled K.Kind.chars statement.entry.listing.rows.now statement.entry.number statement.entry.row.now.on_success (written (told success.entry) (S.Store.held store.now))) }
{
    // Made here and not by the caller: passed on by `&`, its lifetimes get no proof.
    let after = After {
        store: &*store,
        success,
    };
    if after.is_over() {
        return Err(StatementRefusal::TooLong);
    }
    let target = statement.row.on_success;
    goes_to(statement.listing, &after, statement.number, target, area).ok_or(
        StatementRefusal::NoName,
    )
}

// Makes the writes of a success, if they may be made and the statement leads somewhere.
pub(crate) fn finish<K: Kind, S: Store<Symbol = K::Symbol>>(
    statement: Statement<K>,
    store: &mut S,
    success: Success<K::Symbol>,
    area: &mut [K::Symbol],
) -> Result<Next, StatementRefusal>
    requires sound { Sound (S.Store.held store.old) (told success) }
    requires room { (S.Store.held store.old).longest ≤ length area.old }
    ensures answer { result ≡ next_of (settled K.Kind.chars statement.entry.listing.rows.now statement.entry.number statement.entry.row.now.on_success (written (told success.entry) (S.Store.held store.old))) }
    ensures after { S.Store.held store.new ≡ names_of (S.Store.held store.old) (settled K.Kind.chars statement.entry.listing.rows.now statement.entry.number statement.entry.row.now.on_success (written (told success.entry) (S.Store.held store.old))) }
{
    let next = settle(statement, &*store, success, area)?;
    write_all(store, success);
    Ok(next)
}

// F writes nothing: where it leads.
pub(crate) fn fail<K: Kind, S: Store<Symbol = K::Symbol>>(
    statement: Statement<K>,
    store: &S,
    area: &mut [K::Symbol],
) -> Result<Next, StatementRefusal>
    requires { (S.Store.held store.now).longest ≤ length area.old }
    ensures { result ≡ next_of (left (S.Store.held store.now) (leads K.Kind.chars statement.entry.listing.rows.now statement.entry.number (S.Store.held store.now) statement.entry.row.now.on_failure)) }
{
    let target = statement.row.on_failure;
    goes_to(statement.listing, store, statement.number, target, area).ok_or(
        StatementRefusal::NoName,
    )
}
