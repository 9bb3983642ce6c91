// Stores: the interface of a store of numbered strings, what every store means, and lists of puts.
#![tactic(auto)]

pub mod copy;
pub mod limits;
pub mod part;
pub mod put;
pub mod refusal;
pub mod store;
