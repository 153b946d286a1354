//! A configuration read from a text in TOML, or the first refusal with its number and key.
#![tactic(auto)]

mod address;
mod checks;
mod entries;
mod keys;
mod laws;
mod names;
mod read;
mod section;
mod values;
mod words;

pub use keys::{Absent, Key, KeyKind};
pub use laws::{worked_addresses, worked_configurations};
pub use read::{ConfigEnd, read_config};
pub use section::TableArray;
