//! One call of an exported function of a WebAssembly module, from the module's bytes to its result and the fuel that it used.
#![tactic(auto)]

mod arguments;
mod calls;
mod ends;
mod exports;
pub mod laws;

pub use calls::invoke;
pub use ends::{End, Invoked, Refusal};
