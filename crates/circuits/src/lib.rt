// Circuits, and the levels of their wires.
#![tactic(auto)]

pub mod answer;
pub mod circuit;
pub mod growth;
pub mod levels;
pub mod making;
pub mod matching;
pub mod table;
