//! The words of a command: their forms, read by `clap`.
#![tactic(auto)]

mod forms;
mod laws;
mod read;

pub use forms::Form;
pub use laws::worked_words;
pub use read::read_words;
