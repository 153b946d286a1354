// The trait through which shared calls and metric asks are made.
ghost use Rattle.std.specs.Prelude.{◌≡◌, ◌<◌, ℕ, Bool, true, false, List, [], ◌∷◌, ◌++◌, Ok, IfOk, OnErr};
ghost use Rattle.store_model.specs.Made.{Made, made, made_ask};
ghost use Rattle.store_model.specs.MetricReplies.{IsReplyToAsk};
ghost use Rattle.store_model.specs.Replies.{IsReplyTo};
ghost use Rattle.store_model.specs.declared.metric.MetricAsk.{MetricAsk};
ghost use Rattle.store_model.specs.declared.metric.MetricReply.TheVariants.{NotBuilt};

use crate::{Call, MetricAsk, MetricReply, Reply};
use gate_base::{OutOfMemory, VmNo};
use std::alloc::{AllocError, Global};

/// The stores and the metrics of all VM names, as one worker calls them.
pub trait Shared {
    /// Whether there are metrics.
    ghost measures: { Bool };

    /// How many stores there are, numbered from 0.
    ghost stores: { Self → ℕ };

    /// The second is the first after these calls and asks in order, each with its reply.
    ghost performs: { Self → List Made → Self → Type 0 };

    /// Makes a call on the store of a VM name. Want of memory is answered before anything is recorded.
    fn call(&mut self, alloc: Global, vm: VmNo, call: &Call) -> Result<Reply, OutOfMemory>
        requires { vm < stores self.old }
        ensures stores { stores self.new ≡ stores self.old }
        ensures reply { IfOk result (λ reply. IsReplyTo call.now reply) }
        ensures done { IfOk result (λ reply. performs self.old (made vm call.now reply ∷ []) self.new) }
        ensures err { OnErr result (performs self.old [] self.new) };

    /// Whether there are metrics.
    fn has_metrics(&self) -> bool
        ensures { result ≡ measures };

    /// Asks the metrics of a VM name. Where there are none it is answered so, and nothing is asked; where there are, an implementation
    /// that does not write this function anew has no memory for an answer.
    fn metric(
        &mut self,
        alloc: Global,
        vm: VmNo,
        ask: &MetricAsk,
    ) -> Result<MetricReply, OutOfMemory>
        requires { vm < stores self.old }
        ensures stores { stores self.new ≡ stores self.old }
        ensures reply { IfOk result (λ reply. IsReplyToAsk ask.now reply) }
        ensures done { IfOk result (λ reply. performs self.old (made_ask vm ask.now reply ∷ []) self.new) }
        ensures not_built { result ≡ Ok NotBuilt → (measures ≡ false) × performs self.old [] self.new }
        ensures err { OnErr result (performs self.old [] self.new) }
    {
        if self.has_metrics() {
            return Err(AllocError);
        }
        Ok(MetricReply::NotBuilt)
    }

    ghost nothing: { (s : Self) → performs s [] s };

    ghost joined: { (s t u : Self) (a b : List Made) → performs s a t → performs t b u → performs s (a ++ b) u };

    ghost not_built: { (s : Self) (vm : ℕ) (ask : MetricAsk) → measures ≡ false → performs s (made_ask vm ask NotBuilt ∷ []) s };
}
