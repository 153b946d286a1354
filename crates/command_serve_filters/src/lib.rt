//! Serving with the filters of a configuration: `serving` over the machines of its modules.
#![tactic(auto)]

mod filtered;

pub use filtered::serve_filtered;
