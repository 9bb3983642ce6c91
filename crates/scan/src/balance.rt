// The ends of balanced parts.
ghost use Rattle.std.specs.Prelude.{◌≡◌, ◌+◌, ◌<◌, ◌≤◌, length};
ghost use Rattle.placings.specs.Pattern.{part, openings, closings};
ghost use Rattle.scan.specs.Ends.{Next, balanced_end, group_end, open_behind};

use crate::search::Search;
use symbols::kind::Kind;
use symbols::role::Role;

// How many symbols are counted at once. Where more groups are open than that, none of these symbols can close the last.
const BLOCK: usize = 64;

// How many symbols of a block open, and how many close. The loop has no way out and counts in bytes, so that it is compiled to vector instructions.
fn tally<K: Kind>(kind: &K, block: &[K::Symbol]) -> (u8, u8)
    requires { length block.now ≡ 64 }
    ensures opened { result.0 ≡ openings (K.Kind.acts kind.now) block.now }
    ensures closed { result.1 ≡ closings (K.Kind.acts kind.now) block.now }
{
    let mut opened: u8 = 0;
    let mut closed: u8 = 0;
    for symbol in block {
        let role = kind.role(*symbol);
        opened += role.opens();
        closed += role.closes();
    }
    (opened, closed)
}

impl<K: Kind> Search<'_, K> {
    // How many are open behind a block, where so many are open before it.
    fn pass_block(&self, from: usize, before: usize) -> usize
        requires { (64 < before) × ((before ≤ from) × (from + 64 ≤ length self.now.subject.now)) }
        ensures { result ≡ open_behind (K.Kind.acts self.now.kind.now) (part self.now.subject.now from (from + 64)) before }
    {
        let (opened, closed) = tally(self.kind, &self.subject[from..from + BLOCK]);
        before + opened as usize - closed as usize
    }

    // The end of the group whose opening symbol stands before `from`: behind the symbol that closes it.
    fn group_end(&self, from: usize) -> Option<usize>
        requires { (0 < from) × (from ≤ length self.now.subject.now) }
        ensures { Next (group_end (K.Kind.acts self.now.kind.now) self.now.subject.now from) (length self.now.subject.now) from result }
    {
        let n = self.subject.len();
        let mut open: usize = 1;
        let mut e = from;
        // Counted by hand: it goes on by a symbol or by a block, which no iterator does.
        while e < n {
            if open > BLOCK && n - e >= BLOCK {
                open = self.pass_block(e, open);
                e += BLOCK;
                continue;
            }
            let role = self.kind.role(self.subject[e]);
            e += 1;
            match role {
                Role::Opening => open += 1,
                Role::Closing => {
                    open -= 1;
                    if open == 0 {
                        return Some(e);
                    }
                }
                Role::Plain => {}
            }
        }
        None
    }

    // The first end of a balanced part that begins at `begin`: behind one plain symbol or one whole group.
    pub(crate) fn balanced_from(&self, begin: usize) -> Option<usize>
        requires { begin ≤ length self.now.subject.now }
        ensures { Next (balanced_end (K.Kind.acts self.now.kind.now) self.now.subject.now begin) (length self.now.subject.now) (begin + 1) result }
    {
        let symbol = *self.subject.get(begin)?;
        match self.kind.role(symbol) {
            Role::Plain => Some(begin + 1),
            Role::Opening => self.group_end(begin + 1),
            Role::Closing => None,
        }
    }
}
