//! The shared stores of all VM names: as one thread uses them, and as a worker among several does.
#![tactic(auto)]

mod alone;
mod closed;
mod law;
mod lists;
mod seats;
mod store;
mod tables;
mod turned;

pub use alone::Alone;
pub use closed::{ClosedStore, ClosedStores};
pub use law::{
    no_seat_gets_lost, seats_stay_at_their_tables, what_seats_have_seen_is_legal, worked_seats,
    worked_workers, workers_come_and_go,
};
pub use seats::StoreSeat;
pub use shared_queues::OctetsList;
pub use store::Store;
pub use tables::Tables;
