// One store: its keys and its queues.
ghost use Rattle.std.specs.Prelude.{◌≡◌, true, length, IsOk, IfOk, OnOk, OnErr};
ghost use Rattle.store_model.specs.Queues.{item_count_of};
ghost use Rattle.store_model.specs.QueueLaws.{items_of};
ghost use Rattle.store_model.specs.Replies.{IsReplyTo};
ghost use Rattle.store_model.specs.Store.{applied, empty_store, takes_no_memory};

use gate_base::{OutOfMemory, QueueId, VmNo, WorkerNo};
use shared_data::SharedData;
use shared_queues::{OctetsList, SharedQueues};
use std::alloc::Global;
use std::marker::Model;
use store_model::{Call, Reply};

/// The store of one VM name. Clauses see a `Store` of `store_model`.
#[derive(Drop)]
pub struct Store {
    vm: VmNo,
    data: SharedData,
    queues: SharedQueues,
}

impl Model for Store {
    ghost use Rattle.std.specs.Prelude.{◌≡◌};
    ghost use Rattle.store_model.specs.Store.{Store};

    ghost Value = { Store };

    ghost view = { λ s. record { keys = s.data; queues = s.queues } };

    ghost invariant = { λ s. s.vm ≡ s.queues.vm };
}

impl Store {
    /// The empty store of this number. It takes no memory.
    pub fn new(alloc: Global, vm: VmNo) -> Self
        ensures { result ≡ empty_store vm }
    {
        Store {
            vm,
            data: SharedData::new(alloc),
            queues: SharedQueues::new(alloc, vm),
        }
    }

    /// The number of the VM whose store it is.
    pub(crate) fn number(&self) -> VmNo
        ensures { result ≡ self.now.queues.vm }
    {
        self.vm
    }

    /// Makes a call of a worker. Want of memory is answered before anything is changed.
    pub fn apply(&mut self, alloc: Global, who: WorkerNo, call: &Call) -> Result<Reply, OutOfMemory>
        ensures reply { IfOk result (λ r. r ≡ (applied self.old who call.now).reply) }
        ensures may { IfOk result (IsReplyTo call.now) }
        ensures after { OnOk result (self.new ≡ (applied self.old who call.now).store) }
        ensures err { OnErr result (self.new ≡ self.old) }
        ensures sure { takes_no_memory call.now self.old ≡ true → IsOk result }
    {
        match call {
            Call::Get { .. } | Call::Set { .. } => {
                let other = self.queues.used();
                self.data.apply(alloc, who, call, other)
            }
            _ => {
                let other = self.data.used();
                self.queues.apply(alloc, who, call, other)
            }
        }
    }

    /// How many keys there are, and how many items in all queues.
    pub fn counts(&self) -> (u64, u64)
        ensures keys { result.0 ≡ length self.now.keys.entries }
        ensures items { result.1 ≡ item_count_of self.now.queues }
    {
        (self.data.used().names, self.queues.item_count())
    }

    /// A copy of the items of a queue, the first one first; none for an id that is no queue's.
    pub fn items(&self, alloc: Global, queue: QueueId) -> Result<OctetsList, OutOfMemory>
        ensures { IfOk result (λ items. items ≡ items_of self.now.queues queue) }
    {
        self.queues.items(alloc, queue)
    }
}
