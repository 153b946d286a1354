//! The queues of one shared store, and the notices that it owes to the workers that registered them.
#![tactic(auto)]

mod firsts;
mod notices;
mod queues;

pub use queues::{OctetsList, SharedQueues};
