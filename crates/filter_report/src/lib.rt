//! What a filter's module imports and exports, in lines.
#![tactic(auto)]

mod bytes;
mod functions;
pub mod laws;
mod lines;
mod reporting;

pub use bytes::{ReportEnd, report_bytes};
pub use reporting::report;
