// The table and its calls.
ghost use Rattle.std.specs.Prelude.{◌≡◌, ◌<◌, ◌+◌, true, IfOk, IsOk, OnErr};
ghost use Rattle.turn_table.specs.Seats.{Called, Refused, Joined, Closed, HasAll, IsSameSeat, first_seat, next_seat};

use crate::plays::{Looks, Meets, Parts};
use crate::rule::InTurn;
use crate::seat::{Pass, pass_out};
use crate::steps::{COUNT, HOME, TURN};
use crate::turn::turn;
use crate::{Seat, Turned, View};
use atomic_table::Table;
use gate_base::{OutOfMemory, VmNo, WorkerNo};
use gate_io::Gate;
use std::alloc::{AllocError, Global};
use std::marker::Model;
use std::sync::Wait;
use store_model::{Call, Reply};

/// One value that workers call in turns. Clauses see which table it is, and the number of its VM.
#[derive(Drop)]
pub struct TurnTable<S: Turned> {
    pub(crate) table: Table<S, View, VmNo, InTurn<S>, Global>,
}

impl<S: Turned> Model for TurnTable<S> {
    ghost use Rattle.turn_table.specs.Seats.{TurnTableId, turn_table, HasShape};

    ghost Value = { TurnTableId };

    ghost view = { λ t. turn_table t.table.shared.table_id t.table.shared.key };

    ghost invariant = { λ t. HasShape t.table.shared.table_id };
}

impl<S: Turned + Drop> TurnTable<S> {
    /// A table whose history is empty, and worker 1's seat.
    pub fn new(alloc: Global, start: S) -> Result<(TurnTable<S>, Seat), OutOfMemory>
        requires { start ≡ S.acts.empty (S.number start) }
        ensures { IfOk result (λ t. (t.0.vm ≡ S.number start) × (t.1 ≡ first_seat t.0)) }
    {
        let who = WorkerNo::new(1).unwrap();
        let vm = start.vm();
        let mut slots = Vec::new(alloc);
        slots.push(start)?;
        match Table::new(alloc, &[0, 0, 0], slots, &vm) {
            Ok((table, pass)) => Ok((
                TurnTable { table },
                Seat {
                    who,
                    given: 1,
                    badge: pass.into_badge(),
                },
            )),
            Err(_) => Err(AllocError),
        }
    }
}

impl<S: Turned> TurnTable<S> {
    /// Gives out the seat of the next number, which has seen as much. It takes no memory.
    pub fn split(&self, seat: &mut Seat) -> Result<Seat, OutOfMemory>
        requires { (seat.old.table ≡ self.now) × (seat.old.number ≡ 1) × (seat.old.given < 8) }
        ensures ok { IsOk result }
        ensures kept { seat.new ≡ record seat.old { given = seat.old.given + 1 } }
        ensures next { IfOk result (λ next. next ≡ next_seat seat.old) }
    {
        let mut pass: Pass<S> = pass_out(&mut seat.badge);
        let next = self.table.shared.split_seat::<Parts>(&mut pass);
        seat.badge = pass.into_badge();
        seat.given += 1;
        Ok(Seat {
            who: WorkerNo::new(seat.given).unwrap(),
            given: 0,
            badge: next.into_badge(),
        })
    }

    /// Ends a seat. The seat of number 1 has then seen what the longer of the two had.
    pub fn join(&self, seat: &mut Seat, other: Seat)
        requires { (seat.old.table ≡ self.now) × (other.table ≡ self.now) × (seat.old.number ≡ 1) }
        ensures { Joined S.acts seat.old other seat.new }
    {
        let Seat {
            who: _,
            given: _,
            badge,
        } = other;
        let top = &self.table.shared;
        let mut pass: Pass<S> = pass_out(&mut seat.badge);
        top.join_seat::<Meets>(&mut pass, badge.into_seat());
        top.load::<Looks<S>>(&mut pass, TURN);
        seat.badge = pass.into_badge();
    }

    /// Ends the table, of which no other seat is left: the value, and the length of the history modulo 2^64.
    pub fn close(self, seat: Seat) -> (S, u64)
        requires { (seat.table ≡ self) × (seat.number ≡ 1) × HasAll seat }
        ensures { Closed S.acts seat result.0 result.1 }
    {
        let Seat {
            who: _,
            given: _,
            badge,
        } = seat;
        let TurnTable { table } = self;
        let mut closed = table.close_with(badge.into_seat());
        let count = closed.word(COUNT);
        let value = closed.take(HOME);
        closed.free();
        (value, count)
    }

    /// Waits for the turn, makes the call, and gives the turn back. A call that is refused memory is not in the history.
    pub fn with_turn<R: Wait, G: Gate>(
        &self,
        rt: &R,
        alloc: Global,
        seat: &mut Seat,
        call: &Call,
        gate: &G,
    ) -> Result<Reply, OutOfMemory>
        requires { seat.old.table ≡ self.now }
        ensures same { IsSameSeat seat.old seat.new }
        ensures done { IfOk result (λ reply. Called S.acts seat.old seat.new call.now reply) }
        ensures may { IfOk result (λ reply. S.may call.now reply) }
        ensures sure { ((s : S) → S.acts.sure call.now s ≡ true) → IsOk result }
        ensures err { OnErr result (Refused S.acts seat.old seat.new call.now) }
    {
        let mut pass = pass_out(&mut seat.badge);
        let result = turn(
            rt,
            alloc,
            &self.table.shared,
            &mut pass,
            seat.who,
            call,
            gate,
        );
        seat.badge = pass.into_badge();
        result
    }
}
