//! The root contexts of plug-ins are made and kept, so that each filter gets its context. No code stands here.
#![tactic(auto)]

mod laws;

pub use laws::roots_stand;
