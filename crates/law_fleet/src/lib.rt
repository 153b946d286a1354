//! What the calls of all workers of a fleet come to, as one law; and laws of their lives and of what takes no memory.
#![tactic(auto)]

mod laws;

pub use laws::{
    each_call_of_a_fleet_stands_once, early_lives_took_events, worked_calls, worked_memory,
};
