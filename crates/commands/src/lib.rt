//! The commands of the program: what its words ask for, done over the files, the sockets and the output that it is given.
#![tactic(auto)]

mod call;
mod check;
mod generate;
pub mod laws;
mod obeying;
mod replay;
mod report;
mod serve;
mod top_call;

pub use top_call::run;
