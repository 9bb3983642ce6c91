// Sessions: a sheet worked over a store of names, with a record of the accepted calls.
#![tactic(auto)]

pub mod entry;
pub mod refusal;
pub mod session;
pub mod step;
