//! The lines that tell what metrics came to.
#![tactic(auto)]

mod law;
mod lines;
mod totals;

pub use law::{metrics_are_told_in_order, worked_lines};
pub use lines::put_metric_lines;
pub use totals::{MetricTotal, metric_totals};
