//! Copies of valid modules, for workers that begin a new life from a copy of the configuration.
#![tactic(auto)]

mod instr;
mod lists;
mod module;

pub use module::copy_module;
