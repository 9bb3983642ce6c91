// What a scan is made with.
ghost use Rattle.std.specs.Prelude.{◌≡◌, ◌<◌, ◌≤◌, true, length};
ghost use Rattle.scan.specs.Elements.{all_fit};

use crate::element::Element;
use symbols::kind::Kind;

// A subject, and the pattern that is looked for in it: one to eight elements, which fit the constants.
#[derive(Drop)]
pub(crate) struct Search<'a, K: Kind> {
    pub kind: &'a K,
    pub subject: &'a [K::Symbol],
    pub constants: &'a [K::Symbol],
    pub elements: &'a [Element],
    ghost some: { 0 < length elements.now },
    ghost few: { length elements.now ≤ 8 },
    ghost fit: { all_fit (length constants.now) 0 elements.now ≡ true },
}
