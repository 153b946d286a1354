// A worker's seats at the tables, as its calls and asks use them.
ghost use Rattle.std.specs.Prelude.{◌≡◌, ◌≢◌, ◌<◌, length, Ok, IsOk, IfOk, OnErr};
ghost use Rattle.metric_seats.specs.Places.{Asked, IsCount, PlaceStays};
ghost use Rattle.shared_seats.specs.Seats.{AreAt, OneWent};
ghost use Rattle.store_model.specs.MetricReplies.{IsReplyToAsk};

use crate::{SeatList, Tables};
use gate_base::{OutOfMemory, VmNo};
use gate_io::Gate;
use metric_seats::MetricPlace;
use std::alloc::Global;
use std::marker::Model;
use std::sync::Wait;
use store_model::{Call, MetricAsk, MetricReply, Reply, Shared};

/// A worker's seats over the tables: a call waits for the turn at the store of its VM, a Define for that at the names, and any other ask
/// waits for nobody. Clauses see the seats.
#[derive(Drop)]
pub struct StoreSeat<'a, R: Wait, G: Gate> {
    rt: &'a R,
    tables: &'a Tables,
    stores: shared_store::StoreSeat<'a, R, G>,
    metrics: Vec<MetricPlace>,
    gate: &'a G,
}

impl<'a, R: Wait, G: Gate> Model for StoreSeat<'a, R, G> {
    ghost use Rattle.shared_seats.specs.Seats.{AreAtMetrics, SeatsOf};

    ghost Value = { SeatsOf };

    ghost view = { λ s. record { stores = s.stores; metrics = s.metrics.items } };

    ghost invariant = { λ s. AreAtMetrics s.tables.now s.stores s.metrics.items };
}

impl<'a, R: Wait, G: Gate> StoreSeat<'a, R, G> {
    /// A worker's calls and asks over these tables, at each of which it has its seat. It takes no memory.
    pub fn over(rt: &'a R, tables: &'a Tables, seats: SeatList, gate: &'a G) -> StoreSeat<'a, R, G>
        requires { AreAt tables.now seats }
        ensures { result ≡ seats }
    {
        let SeatList { stores, metrics } = seats;
        StoreSeat {
            rt,
            tables,
            stores: shared_store::StoreSeat::over(rt, &tables.stores, stores, gate),
            metrics,
            gate,
        }
    }

    /// Asks the metrics of this VM from the place at its tables. An ask other than a Define is answered without memory.
    pub fn measure(
        &mut self,
        alloc: Global,
        vm: VmNo,
        ask: &MetricAsk,
    ) -> Result<MetricReply, OutOfMemory>
        requires { vm < length self.old.stores }
        ensures done { IfOk result (λ reply. OneWent self.old vm self.new (λ v w. Asked v ask.now reply w)) }
        ensures may { IfOk result (λ reply. IsReplyToAsk ask.now reply) }
        ensures built { result ≢ Ok MetricReply.NotBuilt }
        ensures sure { IsCount ask.now → IsOk result }
        ensures err { OnErr result (OneWent self.old vm self.new PlaceStays) }
    {
        let at = vm.get() as usize;
        let tables = self.tables;
        let place = &mut self.metrics[at];
        tables.metrics.tables[at].ask(self.rt, alloc, place, ask, self.gate)
    }

    /// Gives back the seats. It takes no memory.
    pub fn give_back(self) -> SeatList
        ensures { result ≡ self.entry }
    {
        let StoreSeat {
            rt: _,
            tables: _,
            stores,
            metrics,
            gate: _,
        } = self;
        SeatList {
            stores: stores.give_back(),
            metrics,
        }
    }
}

impl<'a, R: Wait, G: Gate> Shared for StoreSeat<'a, R, G> {
    ghost use Rattle.std.specs.Prelude.{◌≡◌, ◌<◌, true, [], ◌∷◌, length, IsOk, IfOk, OnErr};
    ghost use Rattle.store_model.specs.History.{store_acts};
    ghost use Rattle.store_model.specs.Made.{made};
    ghost use Rattle.store_model.specs.Replies.{IsReplyTo};
    ghost use Rattle.store_model.specs.Store.{Store, takes_no_memory};
    ghost use Rattle.turn_table.specs.Seats.{Called, Refused};
    ghost use Rattle.shared_seats.specs.Seats.{StoreWent};
    ghost use Rattle.shared_seats.specs.Moving.{SeatsGoOn, seats_nothing, seats_joined, never_unbuilt};

    ghost measures = { true };

    ghost stores = { λ s. length s.stores };

    ghost performs = { SeatsGoOn };

    // An answer is one entry of the history of its store, and a refusal none. A call that takes no memory of any store is answered.
    fn call(&mut self, alloc: Global, vm: VmNo, call: &Call) -> Result<Reply, OutOfMemory>
        requires { vm < length self.old.stores }
        ensures stores { length self.new.stores ≡ length self.old.stores }
        ensures reply { IfOk result (λ reply. IsReplyTo call.now reply) }
        ensures done { IfOk result (λ reply. SeatsGoOn self.old (made vm call.now reply ∷ []) self.new) }
        ensures went { IfOk result (λ reply. StoreWent self.old vm self.new (λ v w. Called store_acts v w call.now reply)) }
        ensures sure { ((s : Store) → takes_no_memory call.now s ≡ true) → IsOk result }
        ensures err { OnErr result (SeatsGoOn self.old [] self.new) }
        ensures refused { OnErr result (StoreWent self.old vm self.new (λ v w. Refused store_acts v w call.now)) }
    {
        self.stores.ask(alloc, vm, call)
    }

    fn has_metrics(&self) -> bool {
        true
    }

    fn metric(
        &mut self,
        alloc: Global,
        vm: VmNo,
        ask: &MetricAsk,
    ) -> Result<MetricReply, OutOfMemory> {
        self.measure(alloc, vm, ask)
    }

    ghost nothing = { seats_nothing };

    ghost joined = { seats_joined };

    ghost not_built = { never_unbuilt };
}
