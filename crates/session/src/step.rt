// The step of a session: the statement that is next, carried out.
ghost use Rattle.std.specs.Prelude.{◌≡◌, ◌*◌, ◌≤◌, [], length};
ghost use Rattle.symbols.specs.Answers.{answered};
ghost use Rattle.tables.specs.Tables.{tabled};
ghost use Rattle.statements.specs.Carried.{done_by, left_by};
ghost use Rattle.statements.specs.Listed.{Carriable};
ghost use Rattle.statements.specs.Settled.{names_of};
ghost use Rattle.statements.specs.Sought.{sought};
ghost use Rattle.session.specs.Calls.{fits, unfit, full};
ghost use Rattle.session.specs.Effects.{Leaves};
ghost use Rattle.session.specs.Refusals.{first_of};
ghost use Rattle.session.specs.Says.{StepSays};
ghost use Rattle.session.specs.State.{state};
ghost use Rattle.session.specs.Steps.{row_of, not_allowed, too_short, ready, step, step_answer, verdict_entry, step_effect, work};

use crate::entry::{Entry, EntryKind};
use crate::refusal::Refusal;
use crate::session::Session;
use checks::admit::admits;
use placings::mode::Mode;
use scan::answer::{Scanned, Verdict};
use statements::carry::{Done, carry_out};
use statements::refusal::StatementRefusal;
use statements::statement::Statement;
use stores::store::Store;
use symbols::kind::Kind;
use tables::listing::Listing;
use tables::places::first_places;
use tables::row::Row;
use tables::sheet::Tables;

// How many symbols the work areas take: for the scanned string, for the pattern's constants, and for the new contents.
#[derive(Clone, Copy)]
pub struct Work {
    pub string: usize,
    pub constants: usize,
    pub contents: usize,
}

// The row of a statement, counted from 1.
fn row_of(rows: &[Row], number: usize) -> Option<Row>
    ensures { result ≡ row_of rows.now number }
{
    rows.get(number.checked_sub(1)?).copied()
}

// Carries out a statement of lent tables. All that it reads comes here under one lifetime, as the struct that takes it has one.
fn carry<'a, K: Kind, S: Store<Symbol = K::Symbol>>(
    kind: &'a K,
    tables: Tables<'a, K::Symbol>,
    row: &'a Row,
    number: usize,
    mode: Mode,
    allowance: usize,
    store: &mut S,
    string: &mut [K::Symbol],
    constants: &mut [K::Symbol],
    contents: &mut [K::Symbol],
) -> Result<Done, StatementRefusal>
    requires carriable { Carriable (S.Store.held store.old) (tabled tables).names row.now }
    requires low { 1 ≤ allowance }
    requires high { allowance ≤ 1000000 }
    requires string { (S.Store.held store.old).longest ≤ length string.old }
    requires constants { 8 * (S.Store.held store.old).longest ≤ length constants.old }
    requires contents { (S.Store.held store.old).longest ≤ length contents.old }
    ensures answer { result ≡ done_by K.Kind.chars (tabled tables.entry) number row.entry.now (S.Store.held store.old) (sought K.Kind.equal (K.Kind.acts kind.entry.now) mode allowance K.Kind.chars (tabled tables.entry).names (tabled tables.entry).constants (S.Store.held store.old) row.entry.now) }
    ensures after { S.Store.held store.new ≡ names_of (S.Store.held store.old) (left_by K.Kind.chars (tabled tables.entry) number row.entry.now (S.Store.held store.old) (sought K.Kind.equal (K.Kind.acts kind.entry.now) mode allowance K.Kind.chars (tabled tables.entry).names (tabled tables.entry).constants (S.Store.held store.old) row.entry.now)) }
{
    let listing = Listing::new(kind, tables);
    let statement = Statement {
        listing,
        row,
        number,
    };
    carry_out(
        statement, mode, allowance, store, string, constants, contents,
    )
}

fn check_allowance(allowance: usize) -> Result<(), Refusal>
    ensures { result ≡ answered (not_allowed allowance) tt }
{
    Refusal::OutOfRange.unless((1..=1_000_000).contains(&allowance))
}

// Refuses work areas that do not serve strings of at most `longest` symbols, which is at most 4,096.
fn check_areas(longest: usize, work: Work) -> Result<(), Refusal>
    requires { longest ≤ 4096 }
    ensures { result ≡ answered (too_short longest work) tt }
{
    Refusal::ShortArea.unless(
        longest <= work.string && 8 * longest <= work.constants && longest <= work.contents,
    )
}

// The entry of a statement: S with its placing, or F.
fn verdict_entry(number: usize, verdict: Verdict) -> Entry
    ensures { result ≡ verdict_entry number verdict }
{
    match verdict {
        Verdict::Success(placed) => {
            let ends = placed.ends;
            Entry {
                kind: EntryKind::Success,
                number,
                start: placed.start,
                count: placed.count,
                ends,
            }
        }
        Verdict::Failure => Entry::plain(EntryKind::Failure, number),
    }
}

impl<K: Kind + Drop, S: Store<Symbol = K::Symbol>> Session<K, S> {
    // Refuses tables that do not fit, then an allowance out of range.
    fn check_step(&self, tables: Tables<K::Symbol>, allowance: usize) -> Result<(), Refusal>
        ensures { result ≡ answered (first_of (unfit (fits (state S.Store.held self.now []) tables.entry)) (not_allowed allowance)) tt }
    {
        self.check_tables(tables)?;
        check_allowance(allowance)
    }

    // Refuses a full record, then work areas that are too short.
    fn check_work(&self, entries: &[Entry], work: Work) -> Result<(), Refusal>
        ensures { result ≡ answered (first_of (full (state S.Store.held self.now entries.now)) (too_short (S.Store.held self.now.store).longest work)) tt }
    {
        self.check_room(entries)?;
        let longest = self.store.tell().longest;
        check_areas(longest, work)
    }

    // The row of the statement that is next, once all checks before it are passed.
    fn ready(
        &self,
        tables: Tables<K::Symbol>,
        allowance: usize,
        entries: &[Entry],
        work: Work,
    ) -> Result<Row, Refusal>
        ensures { result ≡ ready (state S.Store.held self.now entries.now) allowance work tables.entry }
    {
        self.check_step(tables, allowance)?;
        let rows = first_places(tables.rows, tables.sheet.statements);
        let row = row_of(rows, self.next.number()).ok_or(Refusal::AtEnd)?;
        self.check_work(entries, work)?;
        Ok(row)
    }

    // Carries out the statement that is next, within so many trials; the work areas take the scanned string, the pattern's constants, and the new contents.
    pub fn step(
        &mut self,
        tables: Tables<K::Symbol>,
        allowance: usize,
        entries: &mut [Entry],
        string: &mut [K::Symbol],
        constants: &mut [K::Symbol],
        contents: &mut [K::Symbol],
    ) -> Result<Scanned, Refusal>
        ensures answer { result ≡ step_answer (step K.Kind.equal (K.Kind.acts self.old.kind) K.Kind.chars (state S.Store.held self.old entries.old) allowance (work (length string.old) (length constants.old) (length contents.old)) tables.entry) }
        ensures says { StepSays (K.Kind.acts self.old.kind) K.Kind.chars (state S.Store.held self.old entries.old) allowance tables.entry result }
        ensures leaves { Leaves (state S.Store.held self.old entries.old) (state S.Store.held self.new entries.new) entries.old entries.new (step_effect (state S.Store.held self.old entries.old) (step K.Kind.equal (K.Kind.acts self.old.kind) K.Kind.chars (state S.Store.held self.old entries.old) allowance (work (length string.old) (length constants.old) (length contents.old)) tables.entry)) }
        ensures kind { self.new.kind ≡ self.old.kind }
    {
        let work = Work {
            string: string.len(),
            constants: constants.len(),
            contents: contents.len(),
        };
        let row = self.ready(tables, allowance, entries, work)?;
        let number = self.next.number();
        let mode = self.mode;
        let done = carry(
            &self.kind,
            tables,
            &row,
            number,
            mode,
            allowance,
            &mut self.store,
            string,
            constants,
            contents,
        )?;
        self.next = done.next;
        self.note(entries, verdict_entry(number, done.scanned.verdict));
        Ok(done.scanned)
    }
}
