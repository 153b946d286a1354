//! Worked turns of lines that are streams of bytes.
#![tactic(auto)]

mod laws;

pub use laws::worked_streams;
