//! WebAssembly modules written as bytes.
#![tactic(auto)]

mod code;
mod entries;
pub mod laws;
mod locals;
mod module;
mod rules;
mod sections;
mod types;

pub use module::write_module;
