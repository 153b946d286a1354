//! What the host offers to be imported.
#![tactic(auto)]

mod arguments;
mod judging;
pub mod laws;
mod target;

pub use arguments::numbers;
pub use judging::{ProxyLinks, fits_row, is_nothing, is_number};
pub use target::{ImportTarget, target_named};
