//! What a meaning is made of: turns, one after the other; and what a turn is made of: a walk, step by step. Laws over turns speak of these two forms. No code stands here.
#![tactic(auto)]

mod laws;

pub use laws::{meanings_are_turns, turns_are_walks, worked_turns};
