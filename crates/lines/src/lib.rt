// The lines of a text, and one line of a sheet: which lines are statement lines, how far a line goes as one does, and its tokens.
#![tactic(auto)]

pub mod lexeme;
pub mod line;
pub mod mark;
pub mod placed;
pub mod reading;
pub mod role;
pub mod text;
pub mod token;
pub mod tokens;
