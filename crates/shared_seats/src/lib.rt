//! The stores and the metrics of all VM names, as a worker among several calls them.
#![tactic(auto)]

mod closed;
mod law;
mod list;
mod making;
mod metrics;
mod seats;
mod shutting;
mod tables;

pub use closed::ClosedTables;
pub use law::{
    each_call_and_definition_stands_once, no_seat_gets_lost, words_are_what_workers_asked,
    worked_metrics,
};
pub use list::SeatList;
pub use seats::StoreSeat;
pub use tables::Tables;
