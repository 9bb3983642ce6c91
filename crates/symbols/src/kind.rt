// The interface of a kind of symbols.
ghost use Rattle.std.specs.Prelude.{◌≡◌, ℕ, ◌≤◌, Bool, List, length, Some, Decides, Option};
ghost use Rattle.symbols.specs.declared.role.Role.{Role};
ghost use Rattle.symbols.specs.Answers.{answered};
ghost use Rattle.symbols.specs.Kinds.{read_as, short_for, fronted};

use crate::fault::{AreaRefusal, SymbolFault};
use crate::role::Role;

// A kind is a value, so that a kind may come to carry a table of its own.
pub trait Kind {
    type Symbol: Copy;

    // How many characters write one symbol.
    const WIDTH: usize;

    ghost WIDTH: { ℕ };

    // The characters that a symbol means.
    ghost chars: { Self.Symbol → List ℕ };

    // The symbol that characters mean, if they mean one.
    ghost meant: { List ℕ → Option Self.Symbol };

    // Whether two symbols are equal.
    ghost equal: { Self.Symbol → Self.Symbol → Bool };

    // The role that the kind gives a symbol.
    ghost acts: { Self → Self.Symbol → Role };

    // The symbol that the characters mean.
    fn read(&self, text: &[u8]) -> Result<Self::Symbol, SymbolFault>
        ensures { result ≡ read_as (meant text.now) };

    // The characters of a symbol, written to the front of an area.
    fn write(&self, symbol: Self::Symbol, area: &mut [u8]) -> Result<(), AreaRefusal>
        ensures answer { result ≡ answered (short_for (chars symbol) area.old) tt }
        ensures area { area.new ≡ fronted (chars symbol) area.old };

    // Whether two symbols are equal.
    fn same(&self, a: Self::Symbol, b: Self::Symbol) -> bool
        ensures { result ≡ equal a b };

    // What a symbol does in a balanced part.
    fn role(&self, symbol: Self::Symbol) -> Role
        ensures { result ≡ acts self.now symbol };

    ghost wide_some: { 1 ≤ WIDTH };

    ghost all_wide: { (x : Self.Symbol) → length (chars x) ≡ WIDTH };

    ghost read_back: { (x : Self.Symbol) → meant (chars x) ≡ Some x };

    ghost means_them: { (s : List ℕ) (x : Self.Symbol) → meant s ≡ Some x → chars x ≡ s };

    ghost decides: { (x y : Self.Symbol) → Decides (equal x y) (x ≡ y) };
}
