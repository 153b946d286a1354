//! Scripts of a replay: their text read as commands and events, a world that gives these, and what a run sends printed as text.
#![tactic(auto)]

mod command;
mod events;
mod laws;
mod print;
mod read;
mod script_world;
mod spelling;
mod split;
mod trace;
mod words;

pub use command::Command;
pub use events::{events_of, workers_of};
pub use laws::{one_reading, one_refusal, worked_lines, worked_scripts, worlds_play_their_scripts};
pub use print::{print_on, print_sent};
pub use read::{ScriptEnd, read_script};
pub use script_world::ScriptWorld;
