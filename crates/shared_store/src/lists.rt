// The seats of all workers at the tables of all stores.
ghost use Rattle.std.specs.Prelude.{◌≡◌, ◌≤◌, length, All, IfOk};
ghost use Rattle.shared_store.specs.Tables.{AreAt, AreNumbered};
ghost use Rattle.shared_store.specs.Workers.{AreNew, AreAll, AreShut};

use crate::{ClosedStores, Tables};
use gate_base::OutOfMemory;
use std::alloc::Global;
use turn_table::Seat;

impl Tables {
    /// Tables of so many empty stores, and a list of seats for each of so many workers, in the order of their numbers.
    pub fn make(
        alloc: Global,
        vms: u8,
        workers: u8,
    ) -> Result<(Tables, Vec<Vec<Seat>>), OutOfMemory>
        requires { (vms ≤ 16) × (1 ≤ workers) × (workers ≤ 8) }
        ensures tables { IfOk result (λ t. length t.0 ≡ vms) }
        ensures numbered { IfOk result (λ t. AreNumbered t.0) }
        ensures lists { IfOk result (λ t. AreNew t.0 workers t.1.items) }
        ensures at { IfOk result (λ t. All (λ l. AreAt t.0 l.items) t.1.items) }
        ensures all { IfOk result (λ t. AreAll t.0 t.1.items) }
    {
        let (tables, mut first) = Tables::new(alloc, vms)?;
        let mut lists = Vec::new(alloc);
        for _ in 1..workers {
            lists.push(tables.split(alloc, &mut first)?)?;
        }
        lists.insert(0, first)?;
        Ok((tables, lists))
    }

    /// Ends the tables and the seats of all workers: each store is what its one history leaves. It takes no memory.
    pub fn shut(self, lists: Vec<Vec<Seat>>) -> ClosedStores
        requires { AreAll self lists.items }
        ensures { AreShut self lists.items result }
    {
        let mut others = lists;
        let mut first = others.remove(0);
        for seats in others {
            self.join(&mut first, seats);
        }
        self.close(first)
    }
}
