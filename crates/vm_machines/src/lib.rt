//! The machines of the VMs of a configuration.
#![tactic(auto)]

mod maker;
mod making;

pub use maker::Machines;
pub use making::machines;
