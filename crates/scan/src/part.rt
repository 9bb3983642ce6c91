// The part that an element is compared with, and the comparison.
ghost use Rattle.std.specs.Prelude.{◌≡◌, length};
ghost use Rattle.placings.specs.Enumeration.{same_parts};
ghost use Rattle.scan.specs.Rows.{compared_with, Readable};

use crate::element::{Element, Source};
use crate::row::Row;
use crate::search::Search;
use symbols::kind::Kind;

impl<'a, K: Kind> Search<'a, K> {
    // The part that an element is compared with: one of the constants, or of the subject for a back reference; null for an element that is compared with nothing.
    pub(crate) fn compared(&self, element: Element, rows: &[Row; 8]) -> &'a [K::Symbol]
        requires { Readable (length self.now.subject.now) (length self.now.constants.now) rows.now element }
        ensures { result.now ≡ compared_with self.now.subject.now self.now.constants.now rows.now element }
    {
        match element {
            Element::Compared(Source::Constant { from, to }) => &self.constants[from..to],
            Element::Compared(Source::Back(j)) => &self.subject[rows[j].begin..rows[j].end],
            Element::Fixed(_) | Element::Free(_) => &[],
        }
    }
}

// Whether two parts are equal.
pub(crate) fn equal<K: Kind>(kind: &K, a: &[K::Symbol], b: &[K::Symbol]) -> bool
    ensures { result ≡ same_parts K.Kind.equal a.now b.now }
{
    if a.len() != b.len() {
        return false;
    }
    // The place serves both parts: a zip of the two asks at each symbol whether either has ended, and was slower.
    for (i, symbol) in a.iter().enumerate() {
        if !kind.same(*symbol, b[i]) {
            return false;
        }
    }
    true
}
