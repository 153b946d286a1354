//! Laws of metrics over whole histories of asks.
#![tactic(auto)]

mod law;

pub use law::words_are_what_was_asked;
