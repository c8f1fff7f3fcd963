// The memory of a planning: rows of numbers, one for each wire, and the circuit that they hold.
#![tactic(auto)]

pub mod held;
pub mod load;
pub mod rows;
