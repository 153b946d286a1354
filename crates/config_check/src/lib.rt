//! The command `check`: a configuration is read with the modules of its VMs, and how much of everything it has is printed.
#![tactic(auto)]

mod checking;

pub use checking::{CheckEnd, check};
