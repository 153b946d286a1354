// How tables are made, with the seats of all workers.
ghost use Rattle.std.specs.Prelude.{◌≡◌, ◌≤◌, ◌<◌, length, All, IfOk};
ghost use Rattle.shared_seats.specs.Making.{AreBeside};
ghost use Rattle.shared_seats.specs.Places.{MetricsAreNumbered, first_places};
ghost use Rattle.shared_seats.specs.Seats.{AreAt};
ghost use Rattle.shared_seats.specs.Workers.{AreAll, AreNew, AreNumbered};

use crate::metrics::MetricTables;
use crate::{SeatList, Tables};
use gate_base::OutOfMemory;
use metric_seats::MetricPlace;
use std::alloc::Global;
use turn_table::Seat;

impl Tables {
    /// Tables of so many empty stores and as many VM names without metrics, and a list of seats for each of so many workers, in the
    /// order of their numbers.
    pub fn make(alloc: Global, vms: u8, workers: u8) -> Result<(Tables, Vec<SeatList>), OutOfMemory>
        requires { (vms ≤ 16) × (1 ≤ workers) × (workers ≤ 8) }
        ensures tables { IfOk result (λ t. length t.0.stores ≡ vms) }
        ensures metrics { IfOk result (λ t. length t.0.metrics ≡ vms) }
        ensures numbered { IfOk result (λ t. AreNumbered t.0) }
        ensures lists { IfOk result (λ t. AreNew t.0 workers t.1.items) }
        ensures at { IfOk result (λ t. All (AreAt t.0) t.1.items) }
        ensures all { IfOk result (λ t. AreAll t.0 t.1.items) }
    {
        let (stores, seats) = shared_store::Tables::make(alloc, vms, workers)?;
        let (tables, places) = with_metrics(alloc, vms, stores)?;
        let lists = seat_lists(alloc, &tables.metrics, places, seats)?;
        Ok((tables, lists))
    }
}

/// The tables of the stores with those of as many VM names' metrics, and worker 1's places.
fn with_metrics(
    alloc: Global,
    vms: u8,
    stores: shared_store::Tables,
) -> Result<(Tables, Vec<MetricPlace>), OutOfMemory>
    requires { (vms ≤ 16) × (length stores ≡ vms) }
    ensures stores { IfOk result (λ t. t.0.stores ≡ stores) }
    ensures numbered { IfOk result (λ t. MetricsAreNumbered t.0.metrics) }
    ensures places { IfOk result (λ t. t.1.items ≡ first_places t.0.metrics) }
{
    let (metrics, places) = MetricTables::new(alloc, vms)?;
    Ok((Tables { stores, metrics }, places))
}

/// Puts each worker's places beside its seats at the stores.
fn seat_lists(
    alloc: Global,
    tables: &MetricTables,
    places: Vec<MetricPlace>,
    seats: Vec<Vec<Seat>>,
) -> Result<Vec<SeatList>, OutOfMemory>
    requires places { places.items ≡ first_places tables.now }
    requires seats { (1 ≤ length seats.items) × (length seats.items ≤ 8) }
    ensures { IfOk result (λ lists. AreBeside tables.now seats.items lists.items) }
{
    let mut others = seats;
    let mut first = places;
    let stores = others.remove(0);
    let mut lists = Vec::new(alloc);
    for further in others {
        let metrics = tables.split(alloc, &mut first)?;
        lists.push(SeatList {
            stores: further,
            metrics,
        })?;
    }
    lists.insert(
        0,
        SeatList {
            stores,
            metrics: first,
        },
    )?;
    Ok(lists)
}
