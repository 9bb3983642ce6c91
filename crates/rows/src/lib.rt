// Rows: the statements of a sheet, read line by line and written to an area of the host.
#![tactic(auto)]

mod digits;
mod entry;
pub mod fill;
pub mod label;
mod line;
pub mod name;
pub mod naming;
pub mod row;
pub mod table;
pub mod writer;
