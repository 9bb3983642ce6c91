// Carrying out a statement: its string reference is scanned, and the verdict decides what is written and which statement is next.
#![tactic(auto)]

pub mod carry;
mod goto;
pub mod refusal;
pub mod seek;
mod settle;
pub mod statement;
