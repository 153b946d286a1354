//! Validation: a module is accepted exactly where it is valid (WebAssembly Core 1.0 chapter 3, and the same of Core 2.0 for
//! sign extension, `memory.copy` and `memory.fill`).
#![tactic(auto)]

mod body;
mod checker;
mod code;
mod entries;
mod export;
mod frame;
mod mark;
mod module;
mod names;
mod operands;
mod scope;
mod seen;

pub use module::{ValidEnd, validate};
pub use wasm_syntax::Part;
