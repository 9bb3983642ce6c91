// What a successful statement writes: the variables take their parts, and the string reference its new contents.
#![tactic(auto)]

pub mod after;
pub mod source;
pub mod success;
pub mod write;
