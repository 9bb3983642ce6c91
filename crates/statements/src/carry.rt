// Carrying out a statement.
ghost use Rattle.std.specs.Prelude.{◌≡◌, ◌*◌, ◌≤◌, length, take, None};
ghost use Rattle.stores.specs.Names.{under};
ghost use Rattle.tables.specs.Tables.{listed};
ghost use Rattle.changes.specs.Success.{Sound, In};
ghost use Rattle.changes.specs.Told.{told};
ghost use Rattle.joins.specs.Renewed.{new_contents};
ghost use Rattle.statements.specs.Carried.{cut, replaces, succeeds, follows, left_by, done_with, done_by, Cuts};
ghost use Rattle.statements.specs.Listed.{Carriable};
ghost use Rattle.statements.specs.Settled.{next_of, names_of};
ghost use Rattle.statements.specs.Sought.{sought};

use crate::refusal::StatementRefusal;
use crate::seek::{Sought, seek};
use crate::settle::{fail, finish};
use crate::statement::Statement;
use changes::after::After;
use changes::success::Success;
use joins::side::renew;
use placings::mode::Mode;
use scan::answer::{Placed, Scanned, Verdict};
use stores::store::Store;
use symbols::kind::Kind;
use tables::row::{Next, RightSide};

// The verdict of a statement, and the statement that comes next.
#[derive(Clone, Copy)]
pub struct Done {
    pub scanned: Scanned,
    pub next: Next,
}

// A success with a right side: the string reference gets the joined operands, in an area of the longest string.
fn replace<K: Kind, S: Store<Symbol = K::Symbol>>(
    statement: Statement<K>,
    store: &mut S,
    reference: usize,
    success: Success<K::Symbol>,
    side: &RightSide,
    contents: &mut [K::Symbol],
    scratch: &mut [K::Symbol],
) -> Result<Next, StatementRefusal>
    requires sound { Sound (S.Store.held store.old) (told success) }
    requires cut { success.reference ≡ None }
    requires reference { In (length (S.Store.held store.old).strings) reference }
    requires subject { length success.subject.now ≤ (S.Store.held store.old).longest }
    requires contents { length contents.old ≡ (S.Store.held store.old).longest }
    requires scratch { (S.Store.held store.old).longest ≤ length scratch.old }
    ensures answer { result ≡ next_of (replaces K.Kind.chars (listed statement.entry.listing) statement.entry.number statement.entry.row.now (S.Store.held store.old) (told success.entry) reference (new_contents K.Kind.chars statement.entry.listing.names.now statement.entry.listing.constants.now (S.Store.held store.old) success.entry.subject.now success.entry.items.now success.entry.start success.entry.ends.now side.now)) }
    ensures after { S.Store.held store.new ≡ names_of (S.Store.held store.old) (replaces K.Kind.chars (listed statement.entry.listing) statement.entry.number statement.entry.row.now (S.Store.held store.old) (told success.entry) reference (new_contents K.Kind.chars statement.entry.listing.names.now statement.entry.listing.constants.now (S.Store.held store.old) success.entry.subject.now success.entry.items.now success.entry.start success.entry.ends.now side.now)) }
{
    let after = After {
        store: &*store,
        success,
    };
    let count = renew(statement.listing, &after, success, side, contents, scratch)?;
    // All fields: `..success` gets no proof over a ghost field.
    let renewed = Success {
        subject: success.subject,
        items: success.items,
        start: success.start,
        ends: success.ends,
        reference: Some(reference),
        contents: &contents[0..count],
    };
    finish(statement, store, renewed, scratch)
}

// S at a placing: decided first, then written.
fn succeed<'a, K: Kind, S: Store<Symbol = K::Symbol>>(
    statement: Statement<'a, K>,
    store: &mut S,
    reference: usize,
    subject: &'a [K::Symbol],
    placed: &'a Placed,
    contents: &mut [K::Symbol],
    scratch: &mut [K::Symbol],
) -> Result<Next, StatementRefusal>
    requires sound { Sound (S.Store.held store.old) (cut (S.Store.held store.old) statement.row.now reference placed.now.start (take placed.now.count placed.now.ends)) }
    requires reference { In (length (S.Store.held store.old).strings) reference }
    requires subject { subject.now ≡ under (S.Store.held store.old) reference }
    requires contents { (S.Store.held store.old).longest ≤ length contents.old }
    requires scratch { (S.Store.held store.old).longest ≤ length scratch.old }
    ensures answer { result ≡ next_of (succeeds K.Kind.chars (listed statement.entry.listing) statement.entry.number statement.entry.row.now (S.Store.held store.old) reference placed.now.start (take placed.now.count placed.now.ends)) }
    ensures after { S.Store.held store.new ≡ names_of (S.Store.held store.old) (succeeds K.Kind.chars (listed statement.entry.listing) statement.entry.number statement.entry.row.now (S.Store.held store.old) reference placed.now.start (take placed.now.count placed.now.ends)) }
{
    let success = Success {
        subject,
        items: statement.row.pattern.items(),
        start: placed.start,
        ends: placed.ends(),
        reference: None,
        contents: &[],
    };
    let longest = store.tell().longest;
    match statement.row.right_side {
        None => finish(statement, store, success, scratch),
        Some(side) => replace(
            statement,
            store,
            reference,
            success,
            &side,
            &mut contents[0..longest],
            scratch,
        ),
    }
}

// What the verdict does to the contents that were sought, which stand at the front of `string`.
fn conclude<K: Kind, S: Store<Symbol = K::Symbol>>(
    statement: Statement<K>,
    store: &mut S,
    sought: Sought,
    string: &[K::Symbol],
    contents: &mut [K::Symbol],
    scratch: &mut [K::Symbol],
) -> Result<Next, StatementRefusal>
    requires cuts { Cuts (S.Store.held store.old) statement.row.now sought.reference sought.scanned.verdict }
    requires reference { In (length (S.Store.held store.old).strings) sought.reference }
    requires within { sought.length ≤ length string.now }
    requires string { take sought.length string.now ≡ under (S.Store.held store.old) sought.reference }
    requires contents { (S.Store.held store.old).longest ≤ length contents.old }
    requires scratch { (S.Store.held store.old).longest ≤ length scratch.old }
    ensures answer { result ≡ next_of (follows K.Kind.chars (listed statement.entry.listing) statement.entry.number statement.entry.row.now (S.Store.held store.old) sought.reference sought.scanned.verdict) }
    ensures after { S.Store.held store.new ≡ names_of (S.Store.held store.old) (follows K.Kind.chars (listed statement.entry.listing) statement.entry.number statement.entry.row.now (S.Store.held store.old) sought.reference sought.scanned.verdict) }
{
    let length = sought.length;
    let subject = &string[0..length];
    match sought.scanned.verdict {
        Verdict::Success(placed) => succeed(
            statement,
            store,
            sought.reference,
            subject,
            &placed,
            contents,
            scratch,
        ),
        Verdict::Failure => fail(statement, store, scratch),
    }
}

// The verdict with the next statement, where there is one.
fn done_with(
    scanned: Scanned,
    next: Result<Next, StatementRefusal>,
) -> Result<Done, StatementRefusal>
    ensures { result ≡ done_with scanned next }
{
    next.map(|next| Done { scanned, next })
}

// Carries out a statement within so many trials. The first area takes the scanned string, the second the pattern's constants and then whatever is read, the third the new contents.
pub fn carry_out<K: Kind, S: Store<Symbol = K::Symbol>>(
    statement: Statement<K>,
    mode: Mode,
    allowance: usize,
    store: &mut S,
    string: &mut [K::Symbol],
    area: &mut [K::Symbol],
    contents: &mut [K::Symbol],
) -> Result<Done, StatementRefusal>
    requires carriable { Carriable (S.Store.held store.old) statement.listing.names.now statement.row.now }
    requires low { 1 ≤ allowance }
    requires high { allowance ≤ 1000000 }
    requires string { (S.Store.held store.old).longest ≤ length string.old }
    requires area { 8 * (S.Store.held store.old).longest ≤ length area.old }
    requires contents { (S.Store.held store.old).longest ≤ length contents.old }
    ensures answer { result ≡ done_by K.Kind.chars (listed statement.entry.listing) statement.entry.number statement.entry.row.now (S.Store.held store.old) (sought K.Kind.equal (K.Kind.acts statement.entry.listing.kind.now) mode allowance K.Kind.chars statement.entry.listing.names.now statement.entry.listing.constants.now (S.Store.held store.old) statement.entry.row.now) }
    ensures after { S.Store.held store.new ≡ names_of (S.Store.held store.old) (left_by K.Kind.chars (listed statement.entry.listing) statement.entry.number statement.entry.row.now (S.Store.held store.old) (sought K.Kind.equal (K.Kind.acts statement.entry.listing.kind.now) mode allowance K.Kind.chars statement.entry.listing.names.now statement.entry.listing.constants.now (S.Store.held store.old) statement.entry.row.now)) }
{
    let sought = seek(statement, &*store, mode, allowance, string, area)?;
    let next = conclude(statement, store, sought, string, contents, area);
    done_with(sought.scanned, next)
}
