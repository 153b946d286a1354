//! WebAssembly modules read from bytes.
#![tactic(auto)]

mod code;
mod ends;
mod entries;
mod items;
pub mod laws;
mod locals;
mod module;
mod rules;
mod sections;
mod sizes;
mod types;

pub use ends::ReadEnd;
pub use module::read_module;
