// A session: opening and closing it, and its calls but for the step.
ghost use Rattle.std.specs.Prelude.{◌≡◌, ◌+◌, ◌<◌, List, [], length, slice_set};
ghost use Rattle.symbols.specs.Answers.{answered};
ghost use Rattle.session.specs.declared.entry.Entry.{Entry};
ghost use Rattle.session.specs.State.{state, opened, with_recorded};
ghost use Rattle.session.specs.Calls.{opens, fits, unfit, unknown, full, open_refusal, give_refusal, word_refusal, restart_refusal, look_answer, after_look, found};
ghost use Rattle.session.specs.Effects.{Leaves, give_effect, mode_effect, restart_effect};

use crate::entry::{Entry, EntryKind};
use crate::refusal::Refusal;
use checks::admit::admits;
use placings::mode::Mode;
use stores::store::Store;
use symbols::kind::Kind;
use tables::lookup::find_name;
use tables::row::{Next, Row};
use tables::sheet::{Counts, Sheet, Tables};

// What a session keeps between calls. It is no `Drop`, so that it ends by `close`, which gives the store back.
// `admitted` guards the calls and no values, so that it stands beside them: a session opened against the check has its start and its mode too.
pub struct Session<K, S> {
    pub(crate) kind: K,
    pub(crate) store: S,
    pub(crate) counts: Counts,
    pub(crate) start: Next,
    pub(crate) admitted: bool,
    pub(crate) mode: Mode,
    pub(crate) next: Next,
    pub(crate) recorded: usize,
}

// Whether tables may be opened over a store.
fn is_admitted<S: Store>(store: &S, tables: Tables<S::Symbol>) -> bool
    ensures { result ≡ opens (S.Store.held store.now) tables.entry.sheet.now tables.entry.rows.now (length tables.entry.constants.now) }
{
    let limits = store.tell();
    let counts = tables.sheet.counts();
    admits(limits.names, counts, tables)
}

// The check before an opening.
pub fn check<'a, S: Store>(
    sheet: &'a Sheet,
    rows: &'a [Row],
    constants: &'a [S::Symbol],
    store: &S,
) -> Result<(), Refusal>
    ensures { result ≡ answered (open_refusal (S.Store.held store.now) sheet.now rows.now (length constants.now)) tt }
{
    let tables = Tables {
        sheet,
        rows,
        constants,
    };
    Refusal::Unfit.unless(is_admitted(store, tables))
}

impl<K: Kind + Drop, S: Store<Symbol = K::Symbol>> Session<K, S> {
    // A session at the sheet's start, unanchored, with nothing recorded. Opened against the check, it refuses every call but `find` and `close`.
    pub fn open<'a>(
        kind: K,
        sheet: Sheet,
        rows: &'a [Row],
        constants: &'a [K::Symbol],
        store: S,
    ) -> Session<K, S>
        ensures opened { (area : List Entry) → state S.Store.held result area ≡ opened (opens (S.Store.held store) sheet rows.now (length constants.now)) sheet (S.Store.held store) (length area) }
        ensures kind { result.kind ≡ kind }
    {
        let tables = Tables {
            sheet: &sheet,
            rows,
            constants,
        };
        let admitted = is_admitted(&store, tables);
        Session {
            kind,
            store,
            counts: sheet.counts(),
            start: sheet.start,
            admitted,
            mode: Mode::Unanchored,
            next: sheet.start,
            recorded: 0,
        }
    }

    // Ends the session, and gives its store back.
    pub fn close(self) -> S
        ensures { result ≡ self.store }
    {
        let Session {
            kind: _,
            store,
            counts: _,
            start: _,
            admitted: _,
            mode: _,
            next: _,
            recorded: _,
        } = self;
        store
    }
}

// The calls that may be refused.
impl<K: Kind + Drop, S: Store<Symbol = K::Symbol>> Session<K, S> {
    // Refuses where the session was opened against the check.
    fn check_fit(&self) -> Result<(), Refusal>
        ensures { result ≡ answered (unfit self.now.admitted) tt }
    {
        Refusal::Unfit.unless(self.admitted)
    }

    // Refuses a number that no name of the sheet has.
    fn check_number(&self, number: usize) -> Result<(), Refusal>
        ensures { result ≡ answered (unknown (state S.Store.held self.now []) number) tt }
    {
        Refusal::OutOfRange.unless(self.counts.has_name(number))
    }

    // Refuses an area that takes no more entries.
    #[tactic(auto, unfolding(crate::specs::Calls::full))]
    pub(crate) fn check_room(&self, entries: &[Entry]) -> Result<(), Refusal>
        ensures { result ≡ answered (full (state S.Store.held self.now entries.now)) tt }
    {
        Refusal::RecordFull.unless(self.recorded < entries.len())
    }

    // Writes an entry behind those recorded.
    pub(crate) fn note(&mut self, entries: &mut [Entry], entry: Entry)
        requires { self.old.recorded < length entries.old }
        ensures session { self.new ≡ with_recorded self.old (self.old.recorded + 1) }
        ensures area { entries.new ≡ slice_set entries.old self.old.recorded entry }
    {
        entries[self.recorded] = entry;
        self.recorded += 1;
    }

    // Starts the sheet again.
    pub fn restart(&mut self, entries: &mut [Entry]) -> Result<(), Refusal>
        ensures answer { result ≡ answered (restart_refusal (state S.Store.held self.old entries.old)) tt }
        ensures leaves { Leaves (state S.Store.held self.old entries.old) (state S.Store.held self.new entries.new) entries.old entries.new (restart_effect (state S.Store.held self.old entries.old)) }
        ensures kind { self.new.kind ≡ self.old.kind }
    {
        self.check_fit()?;
        self.check_room(entries)?;
        self.next = self.start;
        self.note(entries, Entry::plain(EntryKind::Restarted, 0));
        Ok(())
    }

    // Puts a string under a name.
    pub fn give(
        &mut self,
        number: usize,
        string: &[K::Symbol],
        entries: &mut [Entry],
    ) -> Result<(), Refusal>
        ensures answer { result ≡ answered (give_refusal (state S.Store.held self.old entries.old) number string.now) tt }
        ensures leaves { Leaves (state S.Store.held self.old entries.old) (state S.Store.held self.new entries.new) entries.old entries.new (give_effect (state S.Store.held self.old entries.old) number string.now) }
        ensures kind { self.new.kind ≡ self.old.kind }
    {
        self.check_fit()?;
        self.check_number(number)?;
        self.check_room(entries)?;
        self.store.put(number, string)?;
        self.note(entries, Entry::plain(EntryKind::Given, number));
        Ok(())
    }

    // Sets the mode by the word ANCHOR or UNANCHOR.
    pub fn set_mode(&mut self, word: &str, entries: &mut [Entry]) -> Result<(), Refusal>
        ensures answer { result ≡ answered (word_refusal (state S.Store.held self.old entries.old) word.now) tt }
        ensures leaves { Leaves (state S.Store.held self.old entries.old) (state S.Store.held self.new entries.new) entries.old entries.new (mode_effect (state S.Store.held self.old entries.old) word.now) }
        ensures kind { self.new.kind ≡ self.old.kind }
    {
        self.check_fit()?;
        let mode = word.parse::<Mode>()?;
        self.check_room(entries)?;
        self.mode = mode;
        self.note(entries, Entry::plain(EntryKind::from(mode), 0));
        Ok(())
    }

    // Copies a name's contents to the front of an area, and tells their length.
    pub fn look(&self, number: usize, area: &mut [K::Symbol]) -> Result<usize, Refusal>
        ensures answer { result ≡ look_answer (state S.Store.held self.now []) number area.old }
        ensures area { area.new ≡ after_look (state S.Store.held self.now []) number area.old }
    {
        self.check_fit()?;
        self.check_number(number)?;
        Ok(self.store.fetch(number, area)?)
    }

    // Refuses lent tables that are not fit to work with.
    pub(crate) fn check_tables(&self, tables: Tables<K::Symbol>) -> Result<(), Refusal>
        ensures { result ≡ answered (unfit (fits (state S.Store.held self.now []) tables.entry)) tt }
    {
        let limits = self.store.tell();
        Refusal::Unfit.unless(self.admitted && admits(limits.names, self.counts, tables))
    }

    // The number of a name by its characters, if the tables fit and have it.
    pub fn find(&self, tables: Tables<K::Symbol>, chars: &[u8]) -> Option<usize>
        ensures { result ≡ found (state S.Store.held self.now []) tables.entry chars.now }
    {
        self.check_tables(tables).ok()?;
        find_name(&tables.sheet.names, chars)
    }
}
