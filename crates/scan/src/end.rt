// Where the part of an element can end.
ghost use Rattle.std.specs.Prelude.{◌≡◌, ◌≤◌, length, Some};
ghost use Rattle.scan.specs.Ends.{Next, FirstEnd, NextEnd, compared_end, fixed_end, arbitrary_end};
ghost use Rattle.scan.specs.Rows.{entered, advanced};

use crate::element::{Element, Variable};
use crate::part::equal;
use crate::row::Row;
use crate::search::Search;
use symbols::kind::Kind;

impl<K: Kind> Search<'_, K> {
    // The end of a part that begins at `begin` and equals another.
    fn compared_end(&self, other: &[K::Symbol], begin: usize) -> Option<usize>
        requires { begin ≤ length self.now.subject.now }
        ensures { Next (compared_end K.Kind.equal self.now.subject.now other.now begin) (length self.now.subject.now) 0 result }
    {
        let end = self.fixed_end(other.len(), begin)?;
        equal(self.kind, &self.subject[begin..end], other).then_some(end)
    }

    // The end of a part of a given length.
    fn fixed_end(&self, size: usize, begin: usize) -> Option<usize>
        requires { begin ≤ length self.now.subject.now }
        ensures { Next (fixed_end self.now.subject.now size begin) (length self.now.subject.now) 0 result }
    {
        (size <= self.subject.len() - begin).then(|| begin + size)
    }

    // The first end of an arbitrary part: its beginning, but the subject's end for the last element.
    fn arbitrary_end(&self, last: bool, begin: usize) -> usize
        requires { begin ≤ length self.now.subject.now }
        ensures { Next (arbitrary_end self.now.subject.now last begin) (length self.now.subject.now) 0 (Some result) }
    {
        if last { self.subject.len() } else { begin }
    }

    // The first end of the part of an element that begins at `begin`, where `other` is what the element is compared with.
    fn first_end(
        &self,
        element: Element,
        other: &[K::Symbol],
        last: bool,
        begin: usize,
    ) -> Option<usize>
        requires { begin ≤ length self.now.subject.now }
        ensures { FirstEnd K.Kind.equal (K.Kind.acts self.now.kind.now) self.now.subject.now other.now last element begin result }
    {
        match element {
            Element::Compared(_) => self.compared_end(other, begin),
            Element::Fixed(size) => self.fixed_end(size, begin),
            Element::Free(variable) => match variable {
                Variable::Arbitrary => Some(self.arbitrary_end(last, begin)),
                Variable::Balanced => self.balanced_from(begin),
            },
        }
    }

    // The next end of the part of an element, not the last one. Only a free variable has more than one.
    fn next_end(&self, element: Element, begin: usize, end: usize) -> Option<usize>
        requires { (begin ≤ end) × (end ≤ length self.now.subject.now) }
        ensures { NextEnd K.Kind.equal (K.Kind.acts self.now.kind.now) self.now.subject.now element begin end result }
    {
        match element {
            Element::Compared(_) | Element::Fixed(_) => None,
            Element::Free(variable) => match variable {
                Variable::Arbitrary => (end < self.subject.len()).then(|| end + 1),
                Variable::Balanced => self.balanced_from(end),
            },
        }
    }

    // Lends a row to an element whose part begins at `begin`, which moves the row's end to its first one.
    pub(crate) fn enter(
        &self,
        row: &mut Row,
        element: Element,
        other: &[K::Symbol],
        last: bool,
        begin: usize,
    ) -> Option<usize>
        requires { begin ≤ length self.now.subject.now }
        ensures end { FirstEnd K.Kind.equal (K.Kind.acts self.now.kind.now) self.now.subject.now other.now last element begin result }
        ensures after { row.new ≡ entered row.old begin result }
    {
        let end = self.first_end(element, other, last, begin);
        row.begin = begin;
        row.end = end.unwrap_or(row.end);
        end
    }

    // Lends a row to its element, not the last one, which moves the row's end to the next one.
    pub(crate) fn advance(&self, row: &mut Row, element: Element) -> Option<usize>
        requires { (row.old.begin ≤ row.old.end) × (row.old.end ≤ length self.now.subject.now) }
        ensures end { NextEnd K.Kind.equal (K.Kind.acts self.now.kind.now) self.now.subject.now element row.old.begin row.old.end result }
        ensures after { row.new ≡ advanced row.old result }
    {
        let end = self.next_end(element, row.begin, row.end);
        row.end = end.unwrap_or(row.end);
        end
    }
}
