//! What a worker does at an event, as a course of questions and answers; and the machines of a worker as it sees them.
#![tactic(auto)]

mod host;

pub use host::{Answer, Callback, CallbackEnd, Death, Host};
