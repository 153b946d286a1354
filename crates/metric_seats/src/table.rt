// The tables of a VM name's metrics, and the asks of them.
ghost use Rattle.std.specs.Prelude.{◌≡◌, ◌≢◌, ◌<◌, ◌≤◌, ◌+◌, ◌-◌, ◌%◌, ◌^◌, ◌++◌, [], ◌∷◌, length, slice_set, IsOk, IfOk, IfSome, OnErr, Ok};
ghost use Rattle.metric_seats.specs.Places.{Asked, CountedIf, IsCount, Defined, IsSamePlace, PlaceStays, PlacesJoined, Summed, SummedIf, define_call, first_place, kind_for, looked_own, next_place, own_word, raised_own, tables_of};
ghost use Rattle.metric_seats.specs.Totals.{total_in};
ghost use Rattle.metric_table.specs.Seats.{Shut};
ghost use Rattle.store_model.specs.History.{own};
ghost use Rattle.store_model.specs.MetricNames.{names_acts};
ghost use Rattle.turn_table.specs.Seats.{Closed, HasAll};
ghost use Rattle.store_model.specs.Metrics.{raise_reply};
ghost use Rattle.store_model.specs.declared.metric.MetricKind.TheVariants.{Counter};
ghost use Rattle.store_model.specs.MetricReplies.{IsReplyToAsk, IsDefineReply};

use crate::{Known, MetricNames, MetricPlace};
use gate_base::{ContextId, Octets, OutOfMemory, VmNo, WorkerNo};
use gate_io::Gate;
use metric_table::{MetricTotals, MetricWords};
use std::alloc::Global;
use std::marker::Model;
use std::sync::Wait;
use store_model::{Call, MetricAsk, MetricKind, MetricReply, Reply};
use turn_table::TurnTable;

/// The names and the words of a VM name's metrics. Clauses see which tables they are.
#[derive(Drop)]
pub struct MetricTable {
    names: TurnTable<MetricNames>,
    words: MetricWords,
}

impl Model for MetricTable {
    ghost use Rattle.metric_seats.specs.Places.{MetricTableId};

    ghost Value = { MetricTableId };

    ghost view = { λ t. record { names = t.names; words = t.words } };
}

/// The names of the metrics and the words of all workers, where their tables were closed, and how many definitions were asked for, modulo 2^64.
#[derive(Drop)]
pub struct MetricsClosed {
    pub names: MetricNames,
    pub totals: MetricTotals,
    pub definitions: u64,
}

impl MetricsClosed {
    /// The sum of all workers' words of a metric, modulo 2^64.
    pub fn total(&self, kind: MetricKind, id: u32) -> u64
        requires { (1 ≤ id) × (id ≤ 64) }
        ensures { result ≡ total_in self.now.totals kind id }
    {
        let mut total = 0u64;
        for number in 1..9u8 {
            let who = WorkerNo::new(number).unwrap();
            total = total.wrapping_add(self.totals.word(who, kind, id));
        }
        total
    }
}

/// The call that defines a metric.
fn definition(alloc: Global, kind: MetricKind, name: &[u8]) -> Result<Call, OutOfMemory>
    ensures { IfOk result (λ call. call ≡ define_call kind name.now) }
{
    let mut bytes = Octets::new(alloc);
    bytes.push(match kind {
        MetricKind::Counter => 0,
        MetricKind::Gauge => 1,
    })?;
    bytes.extend_from_slice(name)?;
    Ok(Call::Register {
        name: bytes,
        root: ContextId::new(0),
    })
}

impl MetricTable {
    /// No metrics of the VM of this number, and worker 1's place.
    pub fn new(alloc: Global, vm: VmNo) -> Result<(MetricTable, MetricPlace), OutOfMemory>
        ensures { IfOk result (λ t. (t.0.names.vm ≡ vm) × (t.1 ≡ first_place t.0)) }
    {
        let (names, names_seat) = TurnTable::new(alloc, MetricNames::new(alloc, vm))?;
        let (words, words_seat) = MetricWords::new(alloc)?;
        let place = MetricPlace {
            names: names_seat,
            words: words_seat,
            known: Known::new(),
        };
        Ok((MetricTable { names, words }, place))
    }

    /// Gives out the place of the next worker, which has defined nothing. It takes no memory.
    pub fn split(&self, place: &mut MetricPlace) -> Result<MetricPlace, OutOfMemory>
        requires at { tables_of place.old ≡ self.now }
        requires first { (place.old.names.number ≡ 1) × (place.old.names.given < 8) }
        requires none { own (place.old.names.given + 1) place.old.names.seen ≡ [] }
        ensures kept { IfOk result (λ next. place.new ≡ record { names = record place.old.names { given = place.old.names.given + 1 }; words = record place.old.words { given = place.old.words.given + 1 } }) }
        ensures next { IfOk result (λ next. next ≡ next_place place.old) }
        ensures ok { IsOk result }
    {
        let names = self.names.split(&mut place.names)?;
        let words = self.words.split(&mut place.words)?;
        Ok(MetricPlace {
            names,
            words,
            known: Known::new(),
        })
    }

    /// Ends a worker's place. Worker 1's then keeps the own values of that worker. It takes no memory.
    pub fn join(&self, place: &mut MetricPlace, ended: MetricPlace)
        requires at { (tables_of place.old ≡ self.now) × (tables_of ended ≡ self.now) }
        requires first { place.old.names.number ≡ 1 }
        ensures { PlacesJoined place.old ended place.new }
    {
        let MetricPlace {
            names,
            words,
            known: _,
        } = ended;
        self.names.join(&mut place.names, names);
        self.words.join(&mut place.words, words);
    }

    /// Ends the tables, at which no other place is left. It takes no memory.
    pub fn close(self, place: MetricPlace) -> MetricsClosed
        requires at { tables_of place ≡ self }
        requires first { (place.names.number ≡ 1) × HasAll place.names }
        ensures names { Closed names_acts place.names result.names result.definitions }
        ensures words { Shut place.words result.totals }
    {
        let MetricTable { names, words } = self;
        let MetricPlace {
            names: names_seat,
            words: words_seat,
            known: _,
        } = place;
        let (names, definitions) = names.close(names_seat);
        MetricsClosed {
            names,
            totals: words.close(words_seat),
            definitions,
        }
    }

    /// Answers a worker's ask: a Define in turn with the others, and any other ask without a turn and without memory.
    pub fn ask<R: Wait, G: Gate>(
        &self,
        rt: &R,
        alloc: Global,
        place: &mut MetricPlace,
        ask: &MetricAsk,
        gate: &G,
    ) -> Result<MetricReply, OutOfMemory>
        requires { tables_of place.old ≡ self.now }
        ensures same { IsSamePlace place.old place.new }
        ensures done { IfOk result (λ reply. Asked place.old ask.now reply place.new) }
        ensures may { IfOk result (λ reply. IsReplyToAsk ask.now reply) }
        ensures built { result ≢ Ok MetricReply.NotBuilt }
        ensures sure { IsCount ask.now → IsOk result }
        ensures err { OnErr result (PlaceStays place.old place.new) }
    {
        match ask {
            MetricAsk::Define { kind, name } => {
                self.define(rt, alloc, place, *kind, name.as_slice(), gate)
            }
            MetricAsk::Add { id, by } => Ok(self.add(place, *id, *by)),
            MetricAsk::Put { id, value } => Ok(self.put(place, *id, *value)),
            MetricAsk::Sum { id } => Ok(self.sum(place, *id)),
        }
    }

    /// Defines a metric, and knows its id from here on.
    fn define<R: Wait, G: Gate>(
        &self,
        rt: &R,
        alloc: Global,
        place: &mut MetricPlace,
        kind: MetricKind,
        name: &[u8],
        gate: &G,
    ) -> Result<MetricReply, OutOfMemory>
        requires { tables_of place.old ≡ self.now }
        ensures same { IsSamePlace place.old place.new }
        ensures done { IfOk result (λ reply. Defined place.old kind name.now reply place.new) }
        ensures may { IfOk result (λ reply. IsDefineReply reply × (reply ≢ MetricReply.NotBuilt)) }
        ensures err { OnErr result (PlaceStays place.old place.new) }
    {
        let call = definition(alloc, kind, name)?;
        let reply = self
            .names
            .with_turn(rt, alloc, &mut place.names, &call, gate)?;
        match reply {
            Reply::Id { queue } => {
                place.known.learn(kind, queue.get());
                Ok(MetricReply::Id { id: queue.get() })
            }
            _ => Ok(MetricReply::Full),
        }
    }

    /// Adds to the own word.
    fn add(&self, place: &mut MetricPlace, id: u32, by: i64) -> MetricReply
        requires { tables_of place.old ≡ self.now }
        ensures same { IsSamePlace place.old place.new }
        ensures done { CountedIf (kind_for place.old id) place.old id (MetricAsk.Add id by) result place.new }
    {
        match place.known.kind(id) {
            Some(MetricKind::Counter) if by < 0 => {
                self.own_word(place, MetricKind::Counter, id);
                MetricReply::BadKind
            }
            Some(MetricKind::Counter) => self.raise(place, id, by as u64),
            Some(MetricKind::Gauge) => {
                self.own_word(place, MetricKind::Gauge, id);
                self.words.bump(&mut place.words, MetricKind::Gauge, id, by.cast_unsigned());
                MetricReply::Done
            }
            None => MetricReply::Unknown,
        }
    }

    /// Puts a value into the own word.
    fn put(&self, place: &mut MetricPlace, id: u32, value: u64) -> MetricReply
        requires { tables_of place.old ≡ self.now }
        ensures same { IsSamePlace place.old place.new }
        ensures done { CountedIf (kind_for place.old id) place.old id (MetricAsk.Put id value) result place.new }
    {
        match place.known.kind(id) {
            Some(MetricKind::Counter) => self.raise(place, id, value),
            Some(MetricKind::Gauge) => {
                self.own_word(place, MetricKind::Gauge, id);
                self.words.put(&mut place.words, id, value);
                MetricReply::Done
            }
            None => MetricReply::Unknown,
        }
    }

    /// Reads the own word of a metric.
    fn own_word(&self, place: &mut MetricPlace, kind: MetricKind, id: u32) -> u64
        requires at { tables_of place.old ≡ self.now }
        requires id { (1 ≤ id) × (id ≤ 64) }
        ensures value { result ≡ own_word place.old kind id }
        ensures looked { place.new ≡ looked_own place.old kind id }
    {
        let who = place.words.who();
        self.words.look(&mut place.words, who, kind, id)
    }

    /// Adds to the own word of a counter, up to 2^64 - 1.
    fn raise(&self, place: &mut MetricPlace, id: u32, by: u64) -> MetricReply
        requires at { tables_of place.old ≡ self.now }
        requires id { (1 ≤ id) × (id ≤ 64) }
        ensures reply { result ≡ raise_reply (own_word place.old Counter id) by }
        ensures raised { place.new ≡ raised_own place.old id by }
    {
        let word = self.own_word(place, MetricKind::Counter, id);
        if by > u64::MAX - word {
            return MetricReply::Full;
        }
        self.words
            .bump(&mut place.words, MetricKind::Counter, id, by);
        MetricReply::Done
    }

    /// Adds up the words of all workers, by one look at each.
    fn sum(&self, place: &mut MetricPlace, id: u32) -> MetricReply
        requires { tables_of place.old ≡ self.now }
        ensures same { IsSamePlace place.old place.new }
        ensures done { SummedIf (kind_for place.old id) place.old id result place.new }
    {
        match place.known.kind(id) {
            Some(kind) => MetricReply::Total {
                value: self.total(place, kind, id),
            },
            None => MetricReply::Unknown,
        }
    }

    /// The sum of the words of the workers 1 to 8, modulo 2^64, by one look at each.
    fn total(&self, place: &mut MetricPlace, kind: MetricKind, id: u32) -> u64
        requires at { tables_of place.old ≡ self.now }
        requires id { (1 ≤ id) × (id ≤ 64) }
        ensures { Summed place.old kind id (MetricReply.Total result) place.new }
    {
        let mut total = 0u64;
        for number in 1..9u8 {
            let who = WorkerNo::new(number).unwrap();
            let word = self.words.look(&mut place.words, who, kind, id);
            total = total.wrapping_add(word);
        }
        total
    }
}
