//! The metrics of one VM name over the seats of several workers: they define names in turns, and count in words of their own.
#![tactic(auto)]

mod known;
mod names;
mod place;
mod table;

pub use known::Known;
pub use names::MetricNames;
pub use place::MetricPlace;
pub use table::{MetricTable, MetricsClosed};
