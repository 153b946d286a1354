// A call that is refused memory, on a table of its own.
use crate::asks::{spelled, vm_of};
use gate_base::{ContextId, Octets, OutOfMemory, VmNo, WorkerNo};
use gate_io::NoGate;
use std::alloc::{AllocError, Global};
use std::marker::Model;
use std::sync::Wait;
use store_model::{Call, Reply};
use turn_table::{TurnTable, Turned};

/// A number that refuses memory to each Register, as `Tally`.
#[derive(Drop)]
struct Number {
    vm: VmNo,
    number: u32,
}

impl Model for Number {
    ghost use Rattle.turn_table.specs.Tally.{Tally, tally};

    ghost Value = { Tally };

    ghost view = { λ n. tally n.vm n.number };
}

impl Turned for Number {
    ghost use Rattle.turn_table.specs.Tally.{tally_acts};

    ghost acts = { tally_acts };

    ghost number = { λ n. n.vm };

    ghost may = { λ call reply. Unit {0} };

    fn vm(&self) -> VmNo {
        self.vm
    }

    fn apply(&mut self, alloc: Global, who: WorkerNo, call: &Call) -> Result<Reply, OutOfMemory> {
        let _ = who;
        match call {
            Call::Get { key } => Ok(Reply::Value {
                value: key.copy(alloc)?,
                number: self.number,
            }),
            Call::Set {
                key: _,
                value: _,
                number,
            } => {
                if *number == self.number {
                    self.number = self.number.wrapping_add(1);
                    Ok(Reply::Done {
                        number: self.number,
                    })
                } else {
                    Ok(Reply::CasMismatch)
                }
            }
            Call::Register { .. } => Err(AllocError),
            Call::Resolve { .. } | Call::Enqueue { .. } | Call::Dequeue { .. } => Ok(Reply::Absent),
            Call::Notice => Ok(Reply::NoneOwed),
        }
    }
}

/// Whether a call was refused memory, what the next call gives, the number of the VM, and how many calls the table had.
pub(crate) fn refused<R: Wait>(rt: &R, alloc: Global) -> Result<String, OutOfMemory> {
    let register = Call::Register {
        name: Octets::new(alloc),
        root: ContextId::new(1),
    };
    let get = Call::Get {
        key: Octets::from_slice(alloc, b"key")?,
    };
    let number = Number {
        vm: vm_of(1),
        number: 0,
    };
    let (table, mut seat) = TurnTable::new(alloc, number)?;
    let is_refused = table
        .with_turn(rt, alloc, &mut seat, &register, &NoGate)
        .is_err();
    let reply = table.with_turn(rt, alloc, &mut seat, &get, &NoGate)?;
    let (number, calls) = table.close(seat);
    let reply = spelled(alloc, &reply)?;
    let vm = number.vm.get();
    format!(in alloc;
        "refused {is_refused}\n{}\nvm {vm} calls {calls}\n",
        reply.as_str()
    )
}
