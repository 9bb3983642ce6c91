// Sheets: the check of all lines of a sheet, and the one refusal that counts.
#![tactic(auto)]

pub mod check;
pub mod fault;
pub mod item;
mod labels;
pub mod outline;
pub mod part;
pub mod reader;
pub mod tally;
