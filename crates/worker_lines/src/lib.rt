//! The open lines of a worker: where each stands, what it wants of the world, and what is done on it.
#![tactic(auto)]

mod beginning;
mod entering;
mod kept;
mod lines;
mod sides;
mod span;
mod wanted;
mod wishes;

pub use beginning::{filters_of, is_blocked, live_filters, new_exchange};
pub use entering::stages_of;
pub use lines::Lines;
pub use sides::{exchange_of, is_last, is_open};
pub use wanted::{cut, earlier, wants_on, with_lines};
