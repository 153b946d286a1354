// Workers call a store in turns.
use crate::Store;
use gate_base::{OutOfMemory, VmNo, WorkerNo};
use std::alloc::Global;
use store_model::{Call, Reply};
use turn_table::Turned;

impl Turned for Store {
    ghost use Rattle.store_model.specs.History.{store_acts};
    ghost use Rattle.store_model.specs.Replies.{IsReplyTo};

    ghost acts = { store_acts };

    ghost number = { λ s. s.queues.vm };

    ghost may = { IsReplyTo };

    fn vm(&self) -> VmNo {
        self.number()
    }

    fn apply(&mut self, alloc: Global, who: WorkerNo, call: &Call) -> Result<Reply, OutOfMemory> {
        Store::apply(self, alloc, who, call)
    }
}
