//! Lines that one worker hands to another.
#![tactic(auto)]

mod handoff;
mod law;
mod rule;

pub use handoff::{Giver, Handoff, Note, Taker};
pub use law::{lines_are_taken_in_order, worked_handover, worked_relays, worked_room};
pub use rule::{Hands, HasLine};
