//! The metrics of one VM name, as one thread uses them.
#![tactic(auto)]

mod metrics;
mod words;

pub use metrics::Metrics;
pub use words::{added, is_kind, put};
