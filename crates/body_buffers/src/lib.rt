//! The bytes of a message's body that are held at one place, and the operations on them.
#![tactic(auto)]

mod body;
mod end;
mod laws;
mod pieces;

pub use body::Body;
pub use end::BodyEnd;
pub use laws::{nothing_else_moves, worked_bodies};
