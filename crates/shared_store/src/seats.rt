// A worker's seats at the tables.
ghost use Rattle.std.specs.Prelude.{◌≡◌, ◌<◌, true, length, IsOk, IfOk, OnErr};
ghost use Rattle.shared_store.specs.Moving.{OneWent};
ghost use Rattle.shared_store.specs.Tables.{AreAt};
ghost use Rattle.store_model.specs.History.{store_acts};
ghost use Rattle.store_model.specs.Replies.{IsReplyTo};
ghost use Rattle.store_model.specs.Store.{Store, takes_no_memory};
ghost use Rattle.turn_table.specs.Seats.{Called, Refused};

use crate::Tables;
use gate_base::{OutOfMemory, VmNo};
use gate_io::Gate;
use std::alloc::Global;
use std::marker::Model;
use std::sync::Wait;
use store_model::{Call, Reply, Shared};
use turn_table::Seat;

/// A worker's seats over the tables: each call waits for the turn at the table of its VM. Clauses see the seats.
#[derive(Drop)]
pub struct StoreSeat<'a, R: Wait, G: Gate> {
    rt: &'a R,
    tables: &'a Tables,
    seats: Vec<Seat>,
    gate: &'a G,
}

impl<'a, R: Wait, G: Gate> Model for StoreSeat<'a, R, G> {
    ghost use Rattle.std.specs.Prelude.{List};
    ghost use Rattle.turn_table.specs.Seats.{Seated};
    ghost use Rattle.shared_store.specs.Tables.{AreAt};

    ghost Value = { List Seated };

    ghost view = { λ s. s.seats.items };

    ghost invariant = { λ s. AreAt s.tables.now s.seats.items };
}

impl<'a, R: Wait, G: Gate> StoreSeat<'a, R, G> {
    /// A worker's calls over these tables, at each of which it has its seat. It takes no memory.
    pub fn over(rt: &'a R, tables: &'a Tables, seats: Vec<Seat>, gate: &'a G) -> StoreSeat<'a, R, G>
        requires { AreAt tables.now seats.items }
        ensures { result ≡ seats.items }
    {
        StoreSeat {
            rt,
            tables,
            seats,
            gate,
        }
    }

    /// Makes a call by the seat at the table of this VM, which then has seen what it had seen, entries of other workers, and this
    /// entry; a call that is refused memory is not in the history. A call that takes no memory of any store is answered.
    pub fn ask(&mut self, alloc: Global, vm: VmNo, call: &Call) -> Result<Reply, OutOfMemory>
        requires { vm < length self.old }
        ensures done { IfOk result (λ reply. OneWent self.old vm self.new (λ v w. Called store_acts v w call.now reply)) }
        ensures may { IfOk result (IsReplyTo call.now) }
        ensures sure { ((s : Store) → takes_no_memory call.now s ≡ true) → IsOk result }
        ensures err { OnErr result (OneWent self.old vm self.new (λ v w. Refused store_acts v w call.now)) }
    {
        let at = vm.get() as usize;
        let tables = self.tables;
        let seat = &mut self.seats[at];
        tables.tables[at].with_turn(self.rt, alloc, seat, call, self.gate)
    }

    /// Gives back the seats. It takes no memory.
    pub fn give_back(self) -> Vec<Seat>
        ensures { result.items ≡ self.entry }
    {
        let StoreSeat {
            rt: _,
            tables: _,
            seats,
            gate: _,
        } = self;
        seats
    }
}

impl<'a, R: Wait, G: Gate> Shared for StoreSeat<'a, R, G> {
    ghost use Rattle.std.specs.Prelude.{length};
    ghost use Rattle.std.specs.Prelude.{false};
    ghost use Rattle.shared_store.specs.Moving.{SeatsGoOn, seats_nothing, seats_joined, seats_unmeasured};

    ghost measures = { false };

    ghost stores = { length };

    ghost performs = { SeatsGoOn };

    fn call(&mut self, alloc: Global, vm: VmNo, call: &Call) -> Result<Reply, OutOfMemory> {
        self.ask(alloc, vm, call)
    }

    fn has_metrics(&self) -> bool {
        false
    }

    ghost nothing = { seats_nothing };

    ghost joined = { seats_joined };

    ghost not_built = { seats_unmeasured };
}
