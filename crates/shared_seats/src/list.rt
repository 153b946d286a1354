// A worker's seats at all tables.
ghost use Rattle.std.specs.Prelude.{◌≡◌};
ghost use Rattle.shared_seats.specs.Seats.{no_seats};

use metric_seats::MetricPlace;
use std::alloc::Global;
use std::marker::Model;
use turn_table::Seat;

/// A worker's seats at the tables of all stores, and its places at all metrics, each in the order of the VM names. Clauses see both lists.
#[derive(Drop)]
pub struct SeatList {
    pub(crate) stores: Vec<Seat>,
    pub(crate) metrics: Vec<MetricPlace>,
}

impl Model for SeatList {
    ghost use Rattle.shared_seats.specs.Seats.{SeatsOf};

    ghost Value = { SeatsOf };

    ghost view = { λ s. record { stores = s.stores.items; metrics = s.metrics.items } };
}

impl SeatList {
    /// No seats. It takes no memory.
    pub fn new(alloc: Global) -> SeatList
        ensures { result ≡ no_seats }
    {
        SeatList {
            stores: Vec::new(alloc),
            metrics: Vec::new(alloc),
        }
    }
}
