// A row of the scan: where the part of one element begins and ends.
#[derive(Clone, Copy, PartialEq, Eq, Debug)]
pub struct Row {
    pub begin: usize,
    pub end: usize,
}
