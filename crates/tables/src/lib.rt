// The tables of a sheet: its statements as rows, its names, and where it starts; looking up names and labels.
#![tactic(auto)]

pub mod limits;
pub mod listing;
pub mod lookup;
pub mod name;
pub mod places;
pub mod row;
pub mod sheet;
