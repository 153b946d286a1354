// Stores whose tables were closed.
ghost use Rattle.std.specs.Prelude.{◌≡◌, ◌<◌, ◌/◌, length, IfOk};
ghost use Rattle.store_model.specs.QueueLaws.{items_of};
ghost use Rattle.store_model.specs.Queues.{item_count_of};
ghost use Rattle.shared_store.specs.Closed.{closed_at};

use crate::Store;
use gate_base::{OutOfMemory, QueueId, VmNo};
use shared_queues::OctetsList;
use std::alloc::Global;
use std::marker::Model;

/// A store after all calls on it, and how many they were, modulo 2^64.
#[derive(Drop)]
pub struct ClosedStore {
    pub(crate) store: Store,
    pub(crate) calls: u64,
}

/// The stores of all VM names after their calls. Clauses see the list of them.
#[derive(Drop)]
pub struct ClosedStores {
    pub(crate) stores: Vec<ClosedStore>,
}

impl Model for ClosedStores {
    ghost use Rattle.std.specs.Prelude.{List};
    ghost use Rattle.shared_store.specs.declared.closed.ClosedStore.{ClosedStore};

    ghost Value = { List ClosedStore };

    ghost view = { λ s. s.stores.items };
}

impl ClosedStores {
    /// How many calls a store had, modulo 2^64.
    pub fn calls(&self, vm: VmNo) -> u64
        requires { vm < length self.now }
        ensures { result ≡ (closed_at self.now vm).calls }
    {
        self.stores[vm.get() as usize].calls
    }

    /// How many keys a store has, and how many items in all its queues.
    pub fn counts(&self, vm: VmNo) -> (u64, u64)
        requires { vm < length self.now }
        ensures keys { result.0 ≡ length (closed_at self.now vm).store.keys.entries }
        ensures items { result.1 ≡ item_count_of (closed_at self.now vm).store.queues }
    {
        self.stores[vm.get() as usize].store.counts()
    }

    /// A copy of the items of a queue, the first one first; none for an id that is no queue's.
    pub fn items(&self, alloc: Global, queue: QueueId) -> Result<OctetsList, OutOfMemory>
        ensures { IfOk result (λ items. items ≡ items_of (closed_at self.now (queue / 16777216)).store.queues queue) }
    {
        let vm = queue.get() / 16_777_216;
        match self.stores.get(vm as usize) {
            Some(closed) => closed.store.items(alloc, queue),
            None => Ok(OctetsList::new(alloc)),
        }
    }
}
