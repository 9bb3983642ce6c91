// The pattern of a statement, as a scan takes it.
#![tactic(auto)]

mod constant;
mod element;
pub mod gather;
pub mod gathered;
pub mod reference;
pub mod strings;
pub mod variable;
