//! Worked turns in which a filter that computes changes a body.
#![tactic(auto)]

mod laws;

pub use laws::worked_turns;
