// What a turn table has at home.
ghost use Rattle.std.specs.Prelude.{◌≡◌, true, IfOk, IsOk, OnOk, OnErr};

use gate_base::{OutOfMemory, VmNo, WorkerNo};
use std::alloc::Global;
use store_model::{Call, Reply};

/// A value that workers call in turns, as the store of a VM name.
pub trait Turned {
    ghost use Rattle.std.specs.Prelude.{ℕ};
    ghost use Rattle.store_model.specs.History.{Acts};
    ghost use Rattle.store_model.specs.declared.call.Call.{Call};
    ghost use Rattle.store_model.specs.declared.call.Reply.{Reply};

    /// The empty value of each number, what a call makes of a value, its reply, and which calls are sure to be answered.
    ghost acts: { Acts Self };

    /// The number of the VM whose value it is, which no call changes.
    ghost number: { Self → ℕ };

    /// The replies that a call may have.
    ghost may: { Call → Reply → Type 0 };

    /// The number of the VM whose value it is.
    fn vm(&self) -> VmNo
        ensures { result ≡ number self.now };

    /// Makes a call of a worker. Want of memory is answered before anything is changed.
    fn apply(&mut self, alloc: Global, who: WorkerNo, call: &Call) -> Result<Reply, OutOfMemory>
        ensures reply { IfOk result (λ reply. reply ≡ acts.reply who call.now self.old) }
        ensures after { OnOk result (self.new ≡ acts.after who call.now self.old) }
        ensures may { IfOk result (λ reply. may call.now reply) }
        ensures number { number self.new ≡ number self.old }
        ensures err { OnErr result (self.new ≡ self.old) }
        ensures sure { acts.sure call.now self.old ≡ true → IsOk result };
}
