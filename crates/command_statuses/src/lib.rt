//! How a run of the program ends: its statuses, with the number of each and its line on standard error.
#![tactic(auto)]

mod causes;
pub mod laws;
mod lines;
mod status;

pub use lines::write_numbered;
pub use status::{InvokeEnd, Status};
