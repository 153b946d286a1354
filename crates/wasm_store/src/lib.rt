//! What an instance has beside its code: its memory, its table and its globals, and how a module is linked
//! (WebAssembly Core 1.0 sections 4.2 to 4.5).
#![tactic(auto)]

mod globals;
mod instance;
pub mod laws;
pub mod link_laws;
mod links;
mod memory;
mod segments;
mod table;

pub use globals::Globals;
pub use instance::{Instance, LinkEnd, Parts, fault as link_fault};
pub use links::{Judged, Links, NoLinks};
pub use memory::{Memory, PAGE};
pub use table::Table;
