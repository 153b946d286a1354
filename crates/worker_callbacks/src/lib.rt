//! Callbacks of a worker and what comes of them, whatever its lines carry: how they are called, how VMs start and contexts end, ticks, notices and callouts.
#![tactic(auto)]

mod call_steps;
mod calls;
mod life;
mod notices;
mod traffic;

pub use call_steps::work_call;
pub use calls::{call_back, call_live};
pub use life::{delete, finish, start, tell, tell_made, tell_ready, tick};
pub use notices::take_notice;
pub use traffic::{Http, Traffic};
