// The turn tables of all stores.
ghost use Rattle.std.specs.Prelude.{◌≡◌, ◌<◌, ◌≤◌, length, All, IfOk, OnErr};
ghost use Rattle.shared_store.specs.Tables.{AreAt, AreNumbered, first_seats, after_split, next_seats, SeatsJoined, TablesClosed};
ghost use Rattle.turn_table.specs.Seats.{HasAll};

use crate::{ClosedStore, ClosedStores, Store};
use gate_base::{OutOfMemory, VmNo};
use std::alloc::Global;
use std::marker::Model;
use turn_table::{Seat, TurnTable};

/// One turn table for each store, in the order of their numbers. Clauses see which tables they are.
#[derive(Drop)]
pub struct Tables {
    pub(crate) tables: Vec<TurnTable<Store>>,
    // has room for the stores of all tables
    closed: Vec<ClosedStore>,
}

impl Model for Tables {
    ghost use Rattle.std.specs.Prelude.{◌≡◌, ◌≤◌, List, [], length};
    ghost use Rattle.std.specs.Vec.{vec_capacity};
    ghost use Rattle.turn_table.specs.Seats.{TurnTableId};
    ghost use Rattle.shared_store.specs.Tables.{AreNumbered};

    ghost Value = { List TurnTableId };

    ghost view = { λ t. t.tables.items };

    ghost invariant = { λ t. AreNumbered t.tables.items × (t.closed.items ≡ []) × (length t.tables.items ≤ vec_capacity t.closed) };
}

impl Tables {
    /// Tables of so many empty stores, and worker 1's seats at them.
    pub fn new(alloc: Global, vms: u8) -> Result<(Tables, Vec<Seat>), OutOfMemory>
        requires { vms ≤ 16 }
        ensures tables { IfOk result (λ t. length t.0 ≡ vms) }
        ensures numbered { IfOk result (λ t. AreNumbered t.0) }
        ensures seats { IfOk result (λ t. t.1.items ≡ first_seats t.0) }
    {
        let closed = Vec::with_capacity(alloc, usize::from(vms))?;
        let mut tables = Vec::new(alloc);
        let mut seats = Vec::new(alloc);
        for n in 0..vms {
            let vm = VmNo::new(n).unwrap();
            let (table, seat) = TurnTable::new(alloc, Store::new(alloc, vm))?;
            tables.push(table)?;
            seats.push(seat)?;
        }
        Ok((Tables { tables, closed }, seats))
    }

    /// Gives out the seats of the next worker, which have seen as much as worker 1's.
    pub fn split(&self, alloc: Global, seats: &mut Vec<Seat>) -> Result<Vec<Seat>, OutOfMemory>
        requires at { AreAt self.now seats.old.items }
        requires first { All (λ s. (s.number ≡ 1) × (s.given < 8)) seats.old.items }
        ensures kept { IfOk result (λ next. seats.new.items ≡ after_split seats.old.items) }
        ensures next { IfOk result (λ next. next.items ≡ next_seats seats.old.items) }
        ensures err { OnErr result (seats.new ≡ seats.old) }
    {
        let mut next = Vec::with_capacity(alloc, seats.len())?;
        for vm in 0..seats.len() {
            let seat = self.tables[vm].split(&mut seats[vm])?;
            next.push(seat)?;
        }
        Ok(next)
    }

    /// Ends a worker's seats. Worker 1's seats have then seen what the longer of two at a table had. It takes no memory.
    pub fn join(&self, seats: &mut Vec<Seat>, ended: Vec<Seat>)
        requires at { AreAt self.now seats.old.items × AreAt self.now ended.items }
        requires first { All (λ s. s.number ≡ 1) seats.old.items }
        ensures { SeatsJoined seats.old.items ended.items seats.new.items }
    {
        let mut vm = 0;
        for seat in ended {
            self.tables[vm].join(&mut seats[vm], seat);
            vm += 1;
        }
    }

    /// Ends the tables, at which no other seat is left. It takes no memory.
    pub fn close(self, seats: Vec<Seat>) -> ClosedStores
        requires at { AreAt self seats.items }
        requires first { All (λ s. (s.number ≡ 1) × HasAll s) seats.items }
        ensures closed { TablesClosed seats.items result }
        ensures numbered { AreNumbered self }
    {
        let Tables { tables, closed } = self;
        let mut stores = closed;
        let mut rest = seats.into_iter();
        for table in tables {
            let (store, calls) = table.close(rest.next().unwrap());
            match stores.push(ClosedStore { store, calls }) {
                Ok(()) => {}
                Err(_) => unreachable!(),
            }
        }
        ClosedStores { stores }
    }
}
