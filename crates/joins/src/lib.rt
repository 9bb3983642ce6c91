// The right side of a statement: its operands joined, and the new contents of the string reference.
#![tactic(auto)]

pub mod join;
pub mod joined;
pub mod refusal;
pub mod side;
