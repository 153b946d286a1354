//! The meaning of a run: what a worker does at events, one after the other, as one course. What scripts, fleets and lives come to is told by
//! it.
#![tactic(auto)]

mod laws;

pub use laws::{meaning_goes_on, meaning_is_a_function, worked_meanings};
