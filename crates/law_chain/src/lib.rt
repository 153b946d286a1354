//! Laws of what passes one chain of filters.
#![tactic(auto)]

mod laws;

pub use laws::{bodies_pass_through, worked_chains};
