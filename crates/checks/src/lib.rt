// Whether the tables that a host lends fit the sheet that a session was opened with.
#![tactic(auto)]

pub mod admit;
pub mod fit;
mod operand;
mod pattern;
mod row;
mod target;
