//! A configuration and the modules of its VMs, read from files in their order, and the plain configuration over modules of files.
#![tactic(auto)]

pub mod laws;
mod modules;
mod plain;
mod reading;

pub use modules::{ModuleEnd, ModuleFault, read_code};
pub use plain::load_plain;
pub use reading::{LoadEnd, load};
