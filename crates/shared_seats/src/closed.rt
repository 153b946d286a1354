// Stores and metrics whose tables were closed.
ghost use Rattle.std.specs.Prelude.{◌≡◌, ◌<◌, ◌/◌, length, IfOk};
ghost use Rattle.shared_seats.specs.Closed.{metrics_at};
ghost use Rattle.shared_store.specs.Closed.{closed_at};
ghost use Rattle.store_model.specs.QueueLaws.{items_of};
ghost use Rattle.store_model.specs.Queues.{item_count_of};

use gate_base::{OutOfMemory, QueueId, VmNo};
use metric_seats::MetricsClosed;
use shared_store::{ClosedStores, OctetsList};
use std::alloc::Global;
use std::marker::Model;

/// The stores and the metrics of all VM names after the calls and asks of all workers. Clauses see both lists.
#[derive(Drop)]
pub struct ClosedTables {
    pub(crate) stores: ClosedStores,
    pub(crate) metrics: Vec<MetricsClosed>,
}

impl Model for ClosedTables {
    ghost use Rattle.shared_seats.specs.Closed.{ClosedOf};

    ghost Value = { ClosedOf };

    ghost view = { λ c. record { stores = c.stores; metrics = c.metrics.items } };
}

impl ClosedTables {
    /// How many calls a store had, modulo 2^64.
    pub fn calls(&self, vm: VmNo) -> u64
        requires { vm < length self.now.stores }
        ensures { result ≡ (closed_at self.now.stores vm).calls }
    {
        self.stores.calls(vm)
    }

    /// How many keys a store has, and how many items in all its queues.
    pub fn counts(&self, vm: VmNo) -> (u64, u64)
        requires { vm < length self.now.stores }
        ensures keys { result.0 ≡ length (closed_at self.now.stores vm).store.keys.entries }
        ensures items { result.1 ≡ item_count_of (closed_at self.now.stores vm).store.queues }
    {
        self.stores.counts(vm)
    }

    /// A copy of the items of a queue, the first one first; none for an id that is no queue's.
    pub fn items(&self, alloc: Global, queue: QueueId) -> Result<OctetsList, OutOfMemory>
        ensures { IfOk result (λ items. items ≡ items_of (closed_at self.now.stores (queue / 16777216)).store.queues queue) }
    {
        self.stores.items(alloc, queue)
    }

    /// The metrics of a VM name.
    pub fn metrics(&self, vm: VmNo) -> &MetricsClosed
        requires { vm < length self.now.metrics }
        ensures { result.now ≡ metrics_at self.now.metrics vm }
    {
        &self.metrics[vm.get() as usize]
    }
}
