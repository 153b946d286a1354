// The tables of the metrics of all VM names.
ghost use Rattle.std.specs.Prelude.{◌≡◌, ◌≤◌, length, All, IfOk, OnErr};
ghost use Rattle.shared_seats.specs.Places.{AllClosed, AllJoined, MetricsAreNumbered, ArePlaces, MayGive, after_split, first_places, next_places};
ghost use Rattle.turn_table.specs.Seats.{HasAll};

use gate_base::{OutOfMemory, VmNo};
use metric_seats::{MetricPlace, MetricTable, MetricsClosed};
use std::alloc::Global;
use std::marker::Model;

/// The tables of each VM name's metrics, in the order of their numbers. Clauses see which tables they are.
#[derive(Drop)]
pub(crate) struct MetricTables {
    pub(crate) tables: Vec<MetricTable>,
    // has room for the metrics of all tables
    closed: Vec<MetricsClosed>,
}

impl Model for MetricTables {
    ghost use Rattle.std.specs.Prelude.{◌≡◌, ◌≤◌, List, [], length};
    ghost use Rattle.std.specs.Vec.{vec_capacity};
    ghost use Rattle.metric_seats.specs.Places.{MetricTableId};
    ghost use Rattle.shared_seats.specs.Places.{MetricsAreNumbered};

    ghost Value = { List MetricTableId };

    ghost view = { λ t. t.tables.items };

    ghost invariant = { λ t. MetricsAreNumbered t.tables.items × (t.closed.items ≡ []) × (length t.tables.items ≤ vec_capacity t.closed) };
}

impl MetricTables {
    /// No metrics of so many VM names, and worker 1's places.
    pub(crate) fn new(
        alloc: Global,
        vms: u8,
    ) -> Result<(MetricTables, Vec<MetricPlace>), OutOfMemory>
        requires { vms ≤ 16 }
        ensures tables { IfOk result (λ t. length t.0 ≡ vms) }
        ensures numbered { IfOk result (λ t. MetricsAreNumbered t.0) }
        ensures places { IfOk result (λ t. t.1.items ≡ first_places t.0) }
    {
        let closed = Vec::with_capacity(alloc, usize::from(vms))?;
        let mut tables = Vec::new(alloc);
        let mut places = Vec::new(alloc);
        for n in 0..vms {
            let vm = VmNo::new(n).unwrap();
            let (table, place) = MetricTable::new(alloc, vm)?;
            tables.push(table)?;
            places.push(place)?;
        }
        Ok((MetricTables { tables, closed }, places))
    }

    /// Gives out the places of the next worker, which has defined nothing.
    pub(crate) fn split(
        &self,
        alloc: Global,
        places: &mut Vec<MetricPlace>,
    ) -> Result<Vec<MetricPlace>, OutOfMemory>
        requires at { ArePlaces self.now places.old.items }
        requires first { All MayGive places.old.items }
        ensures kept { IfOk result (λ next. places.new.items ≡ after_split places.old.items) }
        ensures next { IfOk result (λ next. next.items ≡ next_places places.old.items) }
        ensures err { OnErr result (places.new ≡ places.old) }
    {
        let mut next = Vec::with_capacity(alloc, places.len())?;
        for vm in 0..places.len() {
            let place = self.tables[vm].split(&mut places[vm])?;
            next.push(place)?;
        }
        Ok(next)
    }

    /// Ends a worker's places. Worker 1's then keep the own values of that worker. It takes no memory.
    pub(crate) fn join(&self, places: &mut Vec<MetricPlace>, ended: Vec<MetricPlace>)
        requires at { ArePlaces self.now places.old.items × ArePlaces self.now ended.items }
        requires first { All (λ v. v.names.number ≡ 1) places.old.items }
        ensures { AllJoined places.old.items ended.items places.new.items }
    {
        let mut vm = 0;
        for place in ended {
            self.tables[vm].join(&mut places[vm], place);
            vm += 1;
        }
    }

    /// Ends the tables, at which no other place is left. It takes no memory.
    pub(crate) fn close(self, places: Vec<MetricPlace>) -> Vec<MetricsClosed>
        requires at { ArePlaces self places.items }
        requires first { All (λ v. (v.names.number ≡ 1) × HasAll v.names) places.items }
        ensures closed { AllClosed places.items result.items }
        ensures numbered { MetricsAreNumbered self }
    {
        let MetricTables { tables, closed } = self;
        let mut metrics = closed;
        let mut rest = places.into_iter();
        for table in tables {
            match metrics.push(table.close(rest.next().unwrap())) {
                Ok(()) => {}
                Err(_) => unreachable!(),
            }
        }
        metrics
    }
}
