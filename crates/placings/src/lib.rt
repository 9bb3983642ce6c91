// Placings: how a pattern lies in a subject, the order in which a scan tries, and the theorems on both.
#![tactic(auto)]

pub mod mode;
pub mod theorems;
