//! What a worker is: the plain types that its parts share, and in `specs/` all that its steps and turns mean.
#![tactic(auto)]

mod laws;
mod no_machines;
mod types;

pub use laws::{more_steps_change_nothing, turns_are_functions, worked_events};
pub use no_machines::NoMachines;
pub use types::{
    Asked, Bodies, Change, ContextAt, Job, Line, NewContext, Next, OtherStep, Owner, ReadBatch,
    Rules, Seen, TcpLine, TcpStep, Turn, Wish,
};
