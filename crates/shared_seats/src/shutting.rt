// How tables are shut, with the seats of all workers.
ghost use Rattle.shared_seats.specs.Workers.{AreAll, AreShut};

use crate::{ClosedTables, SeatList, Tables};

impl Tables {
    /// Ends the tables and the seats of all workers: each store and the names of each VM name's metrics are what their one history
    /// leaves, and each word is the value that its worker's place has. It takes no memory.
    pub fn shut(self, lists: Vec<SeatList>) -> ClosedTables
        requires { AreAll self lists.items }
        ensures { AreShut self lists.items result }
    {
        let Tables { stores, metrics } = self;
        let mut others = lists;
        let SeatList {
            stores: mut seats,
            metrics: mut places,
        } = others.remove(0);
        for list in others {
            let SeatList {
                stores: further,
                metrics: ended,
            } = list;
            stores.join(&mut seats, further);
            metrics.join(&mut places, ended);
        }
        ClosedTables {
            stores: stores.close(seats),
            metrics: metrics.close(places),
        }
    }
}
