// The names of the metrics of one VM name.
ghost use Rattle.std.specs.Prelude.{◌≡◌, ◌<◌, ◌≤◌, ◌+◌, ◌∷◌, ◌++◌, [], true, length, is_some, Some, IsOk, IfOk, OnOk, OnErr, IfSome};
ghost use Rattle.store_model.specs.MetricNames.{IsIdGiven, IsNamesReply, define_after, define_reply, metric_name, names_after, names_reply, names_take_no_memory, no_names, place_among};

use gate_base::{Octets, OutOfMemory, QueueId, VmNo, WorkerNo};
use shared_metrics::is_kind;
use std::alloc::Global;
use std::marker::Model;
use store_model::{Call, MOST_METRICS, MetricKind, MetricName, Reply};
use turn_table::Turned;

/// The kinds and names of the metrics of one VM name, in the order of their ids from 1. Clauses see `Names` of `store_model`.
#[derive(Drop)]
pub struct MetricNames {
    vm: VmNo,
    names: Vec<MetricName>,
}

impl Model for MetricNames {
    ghost use Rattle.std.specs.Prelude.{◌≤◌, length};
    ghost use Rattle.store_model.specs.MetricNames.{Names};
    ghost use Rattle.store_model.specs.declared.used.TheConstants.{MOST_METRICS};

    ghost Value = { Names };

    ghost view = { λ n. record { vm = n.vm; names = n.names.items } };

    ghost invariant = { λ n. length n.names.items ≤ MOST_METRICS };
}

impl MetricNames {
    /// No metrics of the VM of this number. It takes no memory.
    pub fn new(alloc: Global, vm: VmNo) -> Self
        ensures { result ≡ no_names vm }
    {
        MetricNames {
            vm,
            names: Vec::new(alloc),
        }
    }

    /// The number of the VM whose metrics they are.
    pub fn number(&self) -> VmNo
        ensures { result ≡ self.now.vm }
    {
        self.vm
    }

    /// The kinds and names in the order of their ids from 1.
    pub fn names(&self) -> &[MetricName]
        ensures names { result.now ≡ self.now.names }
        ensures few { length result.now ≤ MOST_METRICS }
    {
        self.names.as_slice()
    }

    /// Makes a call of a worker: a Register of a kind's byte and a name defines a metric, and every other call finds nothing. Want of
    /// memory is answered before anything is changed.
    pub fn apply(
        &mut self,
        alloc: Global,
        _who: WorkerNo,
        call: &Call,
    ) -> Result<Reply, OutOfMemory>
        ensures reply { IfOk result (λ r. r ≡ names_reply self.old call.now) }
        ensures may { IfOk result (IsNamesReply call.now) }
        ensures after { OnOk result (self.new ≡ names_after self.old call.now) }
        ensures err { OnErr result (self.new ≡ self.old) }
        ensures sure { names_take_no_memory call.now self.old ≡ true → IsOk result }
    {
        match call {
            Call::Register { name, root: _ } => match name.as_slice() {
                [0, name @ ..] => self.define(alloc, MetricKind::Counter, name),
                [1, name @ ..] => self.define(alloc, MetricKind::Gauge, name),
                _ => Ok(Reply::Absent),
            },
            _ => Ok(Reply::Absent),
        }
    }

    /// The place of a name, if it is there.
    fn place(&self, kind: MetricKind, name: &[u8]) -> Option<usize>
        ensures place { result ≡ place_among self.now.names (metric_name kind name.now) }
        ensures within { IfSome result (λ k. k < length self.now.names) }
    {
        self.names
            .iter()
            .position(|m| is_kind(kind, m.kind) && name == m.name.as_slice())
    }

    /// The id of a kind and a name, which is put last where it is new and there is room.
    fn define(&mut self, alloc: Global, kind: MetricKind, name: &[u8]) -> Result<Reply, OutOfMemory>
        ensures reply { IfOk result (λ r. r ≡ define_reply self.old.names (Some (metric_name kind name.now))) }
        ensures may { IfOk result IsIdGiven }
        ensures after { OnOk result (self.new ≡ record self.old { names = define_after self.old.names (Some (metric_name kind name.now)) }) }
        ensures err { OnErr result (self.new ≡ self.old) }
        ensures sure { is_some (place_among self.old.names (metric_name kind name.now)) ≡ true → IsOk result }
    {
        match self.place(kind, name) {
            Some(k) => Ok(Reply::Id {
                queue: QueueId::new(k as u32 + 1),
            }),
            None if self.names.len() as u64 >= MOST_METRICS => Ok(Reply::Full),
            None => self.put_last(alloc, kind, name),
        }
    }

    /// Puts a new name last.
    fn put_last(
        &mut self,
        alloc: Global,
        kind: MetricKind,
        name: &[u8],
    ) -> Result<Reply, OutOfMemory>
        requires { length self.old.names < MOST_METRICS }
        ensures reply { IfOk result (λ r. r ≡ Reply.Id (length self.old.names + 1)) }
        ensures may { IfOk result IsIdGiven }
        ensures after { OnOk result (self.new ≡ record self.old { names = self.old.names ++ metric_name kind name.now ∷ [] }) }
        ensures err { OnErr result (self.new ≡ self.old) }
    {
        let name = Octets::from_slice(alloc, name)?;
        self.names.push(MetricName { kind, name })?;
        Ok(Reply::Id {
            queue: QueueId::new(self.names.len() as u32),
        })
    }
}

impl Turned for MetricNames {
    ghost use Rattle.store_model.specs.MetricNames.{IsNamesReply, names_acts};

    ghost acts = { names_acts };

    ghost number = { λ n. n.vm };

    ghost may = { IsNamesReply };

    fn vm(&self) -> VmNo {
        self.number()
    }

    fn apply(&mut self, alloc: Global, who: WorkerNo, call: &Call) -> Result<Reply, OutOfMemory> {
        MetricNames::apply(self, alloc, who, call)
    }
}
