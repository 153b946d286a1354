//! The machine: flat code with one stack of values, one of locals, and one of labels and frames.
#![tactic(auto)]

mod access;
mod bulk;
mod kinds;
pub mod laws;
mod locals;
mod machine;
mod run;
mod simple;
mod stack;
mod state;
mod values;

pub use machine::{MOST_PENDING, Machine, Mode, Pending, call_once};
pub use run::Stop;
pub use values::Values;
pub use wasm_flat::{Control, Target, Targets, safety};
