//! A worker whose lines are streams of bytes: what is done on them, what effects of callbacks and deaths of VMs do to them, and its steps until all is
//! at rest.
#![tactic(auto)]

mod asking;
mod dying;
mod effects;
mod ending;
mod lines;
mod opening;
mod rooms;
mod turning;
mod wants;

pub use effects::Streams;
pub use turning::settle;
pub use wants::wants_on;
