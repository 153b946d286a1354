//! One direction of an exchange: its stages, what waits at them, and what they hold.
#![tactic(auto)]

mod chain;
mod item;
mod laws;
mod stage;
mod waiting;

pub use chain::Chain;
pub use item::{Ask, AskKind, Asking, ChainItem, Held, PassOutcome};
pub use laws::{asking_comes_to_an_end, what_passes_is_what_came, worked_chains};
pub use stage::Stage;
pub use waiting::Waiting;
