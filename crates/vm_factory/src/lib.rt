//! How the machines of a worker are made from its configuration, once for each worker and for each of its lives.
#![tactic(auto)]

mod making;

pub use making::MakesHost;
