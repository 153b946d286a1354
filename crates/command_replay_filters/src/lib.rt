//! Scripts over the filters of a configuration: `command_replay` over the machines of its modules.
#![tactic(auto)]

mod filtered;

pub use filtered::play_filtered;
