//! The keys of one shared store: Get, and Set with compare-and-set by number.
#![tactic(auto)]

mod data;

pub use data::SharedData;
