//! One value that several workers call, one at a time: their calls are one legal history, which the proofs alone keep.
#![tactic(auto)]

mod law;
mod plays;
mod rule;
mod seat;
mod steps;
mod table;
mod turn;
mod turned;
mod view;

pub use law::{
    a_call_is_recorded_once_or_refused, every_entry_has_its_seat, seats_see_ever_more,
    worked_histories, worked_tables,
};
pub use seat::Seat;
pub use table::TurnTable;
pub use turned::Turned;
pub use view::{Ended, View};
