// Reads the tokens and the lines of a Bristol Fashion text.
#![tactic(auto)]

pub mod cursor;
pub mod fault;
pub mod gate;
pub mod header;
pub mod line;
mod number;
pub mod token;
