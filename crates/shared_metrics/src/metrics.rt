// The metrics of one VM name, as one thread uses them.
ghost use Rattle.std.specs.Prelude.{◌≡◌, ◌<◌, ◌+◌, ◌%◌, ◌^◌, ◌++◌, [], ◌∷◌, true, length, sum_by, slice_set, position, is_some, IsOk, IfOk, OnOk, OnErr, IfSome};
ghost use Rattle.store_model.specs.MetricReplies.{IsDefineReply, IsReplyToAsk};
ghost use Rattle.store_model.specs.Metrics.{applied_ask, ask_takes_no_memory, is_named, known_place, known_to, metric_in, new_metric, share_of, total, with_word};
ghost use Rattle.store_model.specs.Metrics as rules;

use crate::{added, is_kind, put};
use gate_base::{Octets, OutOfMemory, WorkerNo};
use std::alloc::Global;
use std::marker::Model;
use store_model::{MOST_METRICS, Metric, MetricAsk, MetricKind, MetricReply, Share};

/// The metrics of one VM name, in the order of their ids from 1. Clauses see the list of them.
#[derive(Drop)]
pub struct Metrics {
    list: Vec<Metric>,
}

impl Model for Metrics {
    ghost use Rattle.std.specs.Prelude.{List, ◌≤◌, length};
    ghost use Rattle.store_model.specs.declared.metric.Metric.{Metric};
    ghost use Rattle.store_model.specs.declared.used.TheConstants.{MOST_METRICS};

    ghost Value = { List Metric };

    ghost view = { λ m. m.list.items };

    ghost invariant = { λ m. length m.list.items ≤ MOST_METRICS };
}

impl Metrics {
    /// No metrics. It takes no memory.
    pub fn new(alloc: Global) -> Metrics
        ensures { result ≡ [] }
    {
        Metrics {
            list: Vec::new(alloc),
        }
    }

    /// Answers an ask of a worker. Want of memory is answered before anything is changed.
    pub fn apply(
        &mut self,
        alloc: Global,
        who: WorkerNo,
        ask: &MetricAsk,
    ) -> Result<MetricReply, OutOfMemory>
        ensures reply { IfOk result (λ r. r ≡ (applied_ask self.old who ask.now).reply) }
        ensures may { IfOk result (IsReplyToAsk ask.now) }
        ensures after { OnOk result (self.new ≡ (applied_ask self.old who ask.now).metrics) }
        ensures err { OnErr result (self.new ≡ self.old) }
        ensures sure { ask_takes_no_memory ask.now self.old ≡ true → IsOk result }
    {
        match ask {
            MetricAsk::Define { kind, name } => self.define(alloc, who, *kind, name.as_slice()),
            MetricAsk::Add { id, by } => Ok(self.add(who, *id, *by)),
            MetricAsk::Put { id, value } => Ok(self.put(who, *id, *value)),
            MetricAsk::Sum { id } => Ok(self.sum(who, *id)),
        }
    }

    /// The place of the metric of a kind and a name, if it is there.
    fn place(&self, kind: MetricKind, name: &[u8]) -> Option<usize>
        ensures place { result ≡ position (is_named kind name.now) self.now }
        ensures within { IfSome result (λ k. k < length self.now) }
    {
        self.list
            .iter()
            .position(|m| is_kind(kind, m.kind) && name == m.name.as_slice())
    }

    /// The place of the metric of an id, where this worker got the id.
    fn known(&self, who: WorkerNo, id: u32) -> Option<usize>
        ensures place { result ≡ known_place self.now who id }
        ensures within { IfSome result (λ k. k < length self.now) }
    {
        if id == 0 {
            return None;
        }
        let k = id as usize - 1;
        let metric = self.list.get(k)?;
        if metric.shares[who.get() as usize - 1].knows {
            Some(k)
        } else {
            None
        }
    }

    /// The id of a metric, which is made where it is new and there is room; from here on the worker knows it.
    fn define(
        &mut self,
        alloc: Global,
        who: WorkerNo,
        kind: MetricKind,
        name: &[u8],
    ) -> Result<MetricReply, OutOfMemory>
        ensures reply { IfOk result (λ r. r ≡ (rules.defined self.old who kind name.now (position (is_named kind name.now) self.old)).reply) }
        ensures may { IfOk result IsDefineReply }
        ensures after { OnOk result (self.new ≡ (rules.defined self.old who kind name.now (position (is_named kind name.now) self.old)).metrics) }
        ensures err { OnErr result (self.new ≡ self.old) }
        ensures sure { is_some (position (is_named kind name.now) self.old) ≡ true → IsOk result }
    {
        match self.place(kind, name) {
            Some(k) => {
                self.make_known(who, k);
                Ok(MetricReply::Id { id: k as u32 + 1 })
            }
            None if self.list.len() as u64 >= MOST_METRICS => Ok(MetricReply::Full),
            None => self.put_last(alloc, who, kind, name),
        }
    }

    /// Makes a new metric, which the worker knows.
    fn put_last(
        &mut self,
        alloc: Global,
        who: WorkerNo,
        kind: MetricKind,
        name: &[u8],
    ) -> Result<MetricReply, OutOfMemory>
        requires { length self.old < MOST_METRICS }
        ensures reply { IfOk result (λ r. r ≡ MetricReply.Id (length self.old + 1)) }
        ensures may { IfOk result IsDefineReply }
        ensures after { OnOk result (self.new ≡ self.old ++ known_to who (new_metric kind name.now) ∷ []) }
        ensures err { OnErr result (self.new ≡ self.old) }
    {
        let name = Octets::from_slice(alloc, name)?;
        let mut shares = [Share {
            knows: false,
            word: 0,
        }; 8];
        shares[who.get() as usize - 1].knows = true;
        self.list.push(Metric { kind, name, shares })?;
        Ok(MetricReply::Id {
            id: self.list.len() as u32,
        })
    }

    /// The worker knows the id of the metric at a place.
    fn make_known(&mut self, who: WorkerNo, k: usize)
        requires { k < length self.old }
        ensures { self.new ≡ slice_set self.old k (known_to who (metric_in self.old k)) }
    {
        self.list[k].shares[who.get() as usize - 1].knows = true;
    }

    /// The kind of the metric at a place, and the worker's own word of it.
    fn word(&self, who: WorkerNo, k: usize) -> (MetricKind, u64)
        requires { k < length self.now }
        ensures kind { result.0 ≡ (metric_in self.now k).kind }
        ensures word { result.1 ≡ (share_of (metric_in self.now k) who).word }
    {
        let metric = &self.list[k];
        (metric.kind, metric.shares[who.get() as usize - 1].word)
    }

    /// Writes the worker's own word of the metric at a place.
    fn set_word(&mut self, who: WorkerNo, k: usize, word: u64)
        requires { k < length self.old }
        ensures { self.new ≡ slice_set self.old k (with_word (metric_in self.old k) who word) }
    {
        self.list[k].shares[who.get() as usize - 1].word = word;
    }

    /// Adds to the worker's own word.
    fn add(&mut self, who: WorkerNo, id: u32, by: i64) -> MetricReply
        ensures reply { result ≡ (applied_ask self.old who (MetricAsk.Add id by)).reply }
        ensures after { self.new ≡ (applied_ask self.old who (MetricAsk.Add id by)).metrics }
    {
        match self.known(who, id) {
            Some(k) => {
                let (kind, word) = self.word(who, k);
                let (word, reply) = added(kind, word, by);
                self.set_word(who, k, word);
                reply
            }
            None => MetricReply::Unknown,
        }
    }

    /// Puts a value into the worker's own word.
    fn put(&mut self, who: WorkerNo, id: u32, value: u64) -> MetricReply
        ensures reply { result ≡ (applied_ask self.old who (MetricAsk.Put id value)).reply }
        ensures after { self.new ≡ (applied_ask self.old who (MetricAsk.Put id value)).metrics }
    {
        match self.known(who, id) {
            Some(k) => {
                let (kind, word) = self.word(who, k);
                let (word, reply) = put(kind, word, value);
                self.set_word(who, k, word);
                reply
            }
            None => MetricReply::Unknown,
        }
    }

    /// The sum of all workers' words.
    fn sum(&self, who: WorkerNo, id: u32) -> MetricReply
        ensures { result ≡ (applied_ask self.now who (MetricAsk.Sum id)).reply }
    {
        match self.known(who, id) {
            Some(k) => MetricReply::Total {
                value: total_of(&self.list[k].shares),
            },
            None => MetricReply::Unknown,
        }
    }
}

/// The sum of the words, modulo 2^64.
fn total_of(shares: &[Share]) -> u64
    ensures { result ≡ sum_by (λ s. s.word) shares.now % 2 ^ 64 }
{
    let mut total = 0u64;
    for share in shares {
        total = total.wrapping_add(share.word);
    }
    total
}
