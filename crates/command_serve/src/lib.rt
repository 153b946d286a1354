//! Serving: the site is started, a fleet runs in its worlds, they are given back, and what the stores and the metrics came to is told.
#![tactic(auto)]

mod laws;
mod running;
mod telling;

pub use laws::worked_summary;
pub use running::{ServeEnd, serve};
pub use telling::summary;
