// Calls on a planning, the law that every run of them keeps, and runs.
#![tactic(auto)]

pub mod calls;
pub mod laws;
pub mod planner;
pub mod run;
pub mod steps;
