// A statement of a sheet.
use symbols::kind::Kind;
use tables::listing::Listing;
use tables::row::Row;

// What a statement reads of its sheet, its row and its number.
#[derive_where(Clone, Copy)]
pub struct Statement<'a, K: Kind> {
    pub listing: Listing<'a, K>,
    pub row: &'a Row,
    pub number: usize,
}
