// The stores and metrics of workers that take turns in one thread.
ghost use Rattle.std.specs.Prelude.{◌≡◌, ◌<◌, ◌≤◌, ◌/◌, length, IfOk};
ghost use Rattle.store_model.specs.QueueLaws.{items_of};
ghost use Rattle.store_model.specs.Queues.{item_count_of};
ghost use Rattle.store_model.specs.Sequential.{store_at};
ghost use Rattle.shared_store.specs.Fresh.{fresh_metrics, fresh_stores};

use crate::Store;
use gate_base::{OutOfMemory, QueueId, VmNo, WorkerNo};
use shared_metrics::Metrics;
use shared_queues::OctetsList;
use std::alloc::Global;
use std::marker::Model;
use store_model::{Call, MetricAsk, MetricReply, Reply, Shared};

/// One store and the metrics of each VM name, and the worker whose calls and asks they take. Clauses see `Stores` of `store_model`.
#[derive(Drop)]
pub struct Alone {
    who: WorkerNo,
    stores: Vec<Store>,
    metrics: Vec<Metrics>,
}

impl Model for Alone {
    ghost use Rattle.std.specs.Prelude.{◌≡◌, length};
    ghost use Rattle.store_model.specs.Sequential.{Stores};

    ghost Value = { Stores };

    ghost view = { λ s. record { who = s.who; stores = s.stores.items; metrics = s.metrics.items } };

    ghost invariant = { λ s. length s.metrics.items ≡ length s.stores.items };
}

impl Alone {
    /// So many empty stores with no metrics, and worker 1.
    #[tactic(auto, using(crate::specs::Fresh::fresh_rules))]
    pub fn new(alloc: Global, vms: u8) -> Result<Self, OutOfMemory>
        requires { vms ≤ 16 }
        ensures { IfOk result (λ s. s ≡ record { who = 1; stores = fresh_stores vms; metrics = fresh_metrics vms }) }
    {
        let mut stores = Vec::new(alloc);
        let mut metrics = Vec::new(alloc);
        for n in 0..vms {
            let vm = VmNo::new(n).unwrap();
            stores.push(Store::new(alloc, vm))?;
            metrics.push(Metrics::new(alloc))?;
        }
        let who = WorkerNo::new(1).unwrap();
        Ok(Alone {
            who,
            stores,
            metrics,
        })
    }

    /// Makes the next calls and asks under this worker's number. It takes no memory.
    pub fn as_worker(&mut self, who: WorkerNo)
        ensures { self.new ≡ record self.old { who = who } }
    {
        self.who = who;
    }

    /// How many keys a store has, and how many items in all its queues.
    pub fn counts(&self, vm: VmNo) -> (u64, u64)
        requires { vm < length self.now.stores }
        ensures keys { result.0 ≡ length (store_at self.now vm).keys.entries }
        ensures items { result.1 ≡ item_count_of (store_at self.now vm).queues }
    {
        self.stores[vm.get() as usize].counts()
    }

    /// A copy of the items of a queue, the first one first; none for an id that is no queue's.
    pub fn items(&self, alloc: Global, queue: QueueId) -> Result<OctetsList, OutOfMemory>
        ensures { IfOk result (λ items. items ≡ items_of (store_at self.now (queue / 16777216)).queues queue) }
    {
        let vm = queue.get() / 16_777_216;
        match self.stores.get(vm as usize) {
            Some(store) => store.items(alloc, queue),
            None => Ok(OctetsList::new(alloc)),
        }
    }
}

impl Shared for Alone {
    ghost use Rattle.std.specs.Prelude.{length};
    ghost use Rattle.std.specs.Prelude.{true};
    ghost use Rattle.store_model.specs.Sequential.{Performs, performs_nothing, performs_joined};

    ghost measures = { true };

    ghost stores = { λ s. length s.stores };

    ghost performs = { Performs };

    fn call(&mut self, alloc: Global, vm: VmNo, call: &Call) -> Result<Reply, OutOfMemory> {
        self.stores[vm.get() as usize].apply(alloc, self.who, call)
    }

    fn has_metrics(&self) -> bool {
        true
    }

    fn metric(
        &mut self,
        alloc: Global,
        vm: VmNo,
        ask: &MetricAsk,
    ) -> Result<MetricReply, OutOfMemory> {
        self.metrics[vm.get() as usize].apply(alloc, self.who, ask)
    }

    ghost nothing = { performs_nothing };

    ghost joined = { performs_joined };

    ghost not_built = { λ s vm ask none. Prim.cc };
}
