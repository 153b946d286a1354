//! A list of members of one type of which the first is taken, proved once for all of them.
#![tactic(auto)]

mod queue;

pub use queue::{Drain, Queue, queued};
