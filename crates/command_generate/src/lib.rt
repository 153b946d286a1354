//! The command that generates a load: four workers with the filter run over the worlds of the generator, and what they came to is told.
#![tactic(auto)]

mod items;
pub mod laws;
mod running;
mod setting;
mod telling;

pub use items::{put_item_lines, texts_of};
pub use running::{GenerateEnd, generate};
pub use setting::{generator_config, worlds_of};
pub use telling::summary;
