// How many symbols open and how many close.
ghost use Rattle.std.specs.Prelude.{◌≡◌};
ghost use Rattle.placings.specs.Pattern.{openings, closings};

use symbols::kind::Kind;

#[derive(Clone, Copy, Debug)]
pub struct RoleCount {
    pub opening: usize,
    pub closing: usize,
}

pub fn count_roles<K: Kind>(kind: &K, symbols: &[K::Symbol]) -> RoleCount
    ensures opening { result.opening ≡ openings (K.Kind.acts kind.now) symbols.now }
    ensures closing { result.closing ≡ closings (K.Kind.acts kind.now) symbols.now }
{
    let mut opening: usize = 0;
    let mut closing: usize = 0;
    for symbol in symbols {
        let role = kind.role(*symbol);
        opening += usize::from(role.opens());
        closing += usize::from(role.closes());
    }
    RoleCount { opening, closing }
}
