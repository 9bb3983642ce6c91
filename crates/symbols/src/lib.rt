// Symbols: what a string is made of, the interface of a kind of symbols, and the two kinds of the bench.
#![tactic(auto)]

pub mod bus;
pub mod bus_event;
pub mod fault;
mod hex;
pub mod kind;
pub mod log;
pub mod log_char;
pub mod role;
pub mod text;
