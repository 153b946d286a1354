//! A worker within a turn: its room, with all that happens to lines, contexts and jobs there, and the callback with what comes of it.
#![tactic(auto)]

mod callout_steps;
mod calls;
mod happening;
mod hearing;
mod making;
mod room;

pub use calls::{call_back, call_live};
pub use making::{is_drawn_out, may_root, may_stream, root_of};
pub use room::{Room, action_of, done_jobs, is_own_stage, is_zero, value_of};
