//! A worker: it takes events from its world, one a turn, passes messages through the filters of its lines, and sends what comes of it.
#![tactic(auto)]

mod agenda;
mod asking;
mod call_steps;
mod call_wants;
mod due;
mod making_worker;
mod picking;
mod turning;
mod worker;

pub use worker::Worker;
pub use worker_model::Turn;
