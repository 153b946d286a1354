//! The generator of a stated load: the events of its four workers, the module of its filter, and counts of what was received.
#![tactic(auto)]

mod exchanges;
mod filter;
pub mod laws;
mod tally;

pub use exchanges::events;
pub use filter::module;
pub use tally::{Tally, count};
