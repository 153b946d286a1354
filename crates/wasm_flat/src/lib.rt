//! The flat machine in definitions, with its laws; and the code that prepares a module for it: its functions, with where their jumps lead.
#![tactic(auto)]

mod control;
mod jumps;
pub mod laws;
mod program;
pub mod safety;

pub use control::{Control, Target};
pub use jumps::Targets;
pub use program::{Callee, Element, Home, Program, code_at, instruction_at};
