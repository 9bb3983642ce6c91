// Where a verdict leads.
ghost use Rattle.std.specs.Prelude.{◌≡◌, ℕ, ◌≤◌, length};
ghost use Rattle.stores.specs.Names.{under};
ghost use Rattle.statements.specs.GoTos.{following, labelled_by, leads};

use patterns::reference::spelled_by;
use patterns::strings::{Strings, contents};
use symbols::kind::Kind;
use tables::listing::Listing;
use tables::lookup::find_label;
use tables::row::{Next, Target};

// The statement behind number `number` of `statements`, END behind the last.
fn following(statements: usize, number: usize) -> Next
    ensures { result ≡ following statements number }
{
    if number < statements {
        Next::Statement(number + 1)
    } else {
        Next::End
    }
}

// Where the label leads that the characters of symbols spell, if the sheet has it.
fn labelled_by<K: Kind>(listing: Listing<K>, symbols: &[K::Symbol]) -> Option<Next>
    ensures { result ≡ labelled_by K.Kind.chars listing.entry.rows.now symbols.now }
{
    spelled_by(
        listing.kind,
        symbols,
        |chars| find_label(listing.rows, chars),
    )
}

// Where a go-to of statement `number` leads under the strings that can be read; the area takes what `$` reads.
pub(crate) fn goes_to<K: Kind, R: Strings<Symbol = K::Symbol>>(
    listing: Listing<K>,
    strings: &R,
    number: usize,
    target: Option<Target>,
    area: &mut [K::Symbol],
) -> Option<Next>
    requires { (k : ℕ) → length (under (R.Strings.names strings.now) k) ≤ length area.old }
    ensures { result ≡ leads K.Kind.chars listing.entry.rows.now number (R.Strings.names strings.now) target }
{
    match target {
        None => Some(following(listing.rows.len(), number)),
        // Two matches: an arm of a nested pattern has no equation that a proof can cite.
        Some(goal) => match goal {
            Target::To(next) => Some(next),
            Target::Through(name) => {
                let length = contents(strings, name, area);
                labelled_by(listing, &area[0..length])
            }
        },
    }
}
