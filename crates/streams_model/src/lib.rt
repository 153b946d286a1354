//! What a worker is whose lines are streams of bytes: in `specs/` all that its steps and turns mean, with what both kinds of lines share, and the turn that
//! a plan says.
#![tactic(auto)]

mod laws;
mod types;

pub use laws::is_http_without_streams;
pub use types::Change;
