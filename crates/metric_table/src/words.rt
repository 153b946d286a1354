// The words and the calls on them.
ghost use Rattle.std.specs.Prelude.{◌≡◌, ◌<◌, ◌≤◌, ◌+◌, ◌%◌, ◌^◌, [], ◌∷◌, ◌++◌, slice_index, slice_set, IfOk, IsOk};
ghost use Rattle.metric_table.specs.Places.{column_of, place_of};
ghost use Rattle.metric_table.specs.Seats.{HasAll, Joined, Looked, Shut, first_seat, next_seat};
ghost use Rattle.store_model.specs.declared.metric.MetricKind.TheVariants.{Counter, Gauge};

use crate::plays::{Bumps, Looks, Meets, Parts, Writes};
use crate::rule::OwnWords;
use crate::seat::pass_out;
use crate::{MetricSeat, MetricTotals, View};
use atomic_table::Table;
use gate_base::{OutOfMemory, WorkerNo};
use std::alloc::Global;
use std::marker::Model;
use store_model::MetricKind;

/// The place of the word of a worker, a kind and an id.
pub(crate) fn place(who: WorkerNo, kind: MetricKind, id: u32) -> usize
    requires { (1 ≤ id) × (id ≤ 64) }
    ensures value { result ≡ place_of who kind id }
    ensures range { result < 1024 }
{
    let row = (who.get() as usize - 1) * 128;
    let column = id as usize - 1;
    match kind {
        MetricKind::Counter => row + column,
        MetricKind::Gauge => row + 64 + column,
    }
}

/// The words of the metrics of one VM name. Clauses see which table it is.
#[derive(Drop)]
pub struct MetricWords {
    table: Table<(), View, (), OwnWords, Global>,
    // has room for all words
    room: Vec<u64>,
}

impl Model for MetricWords {
    ghost use Rattle.std.specs.Prelude.{◌≡◌, ◌≤◌, []};
    ghost use Rattle.std.specs.Vec.{vec_capacity};
    ghost use Rattle.atomic_table.specs.Seated.{TableId};
    ghost use Rattle.metric_table.specs.Seats.{HasShape};

    ghost Value = { TableId };

    ghost view = { λ t. t.table.shared.table_id };

    ghost invariant = { λ t. HasShape t.table.shared.table_id × (t.room.items ≡ []) × (1024 ≤ vec_capacity t.room) };
}

impl MetricWords {
    /// Words that are all 0, and worker 1's seat.
    pub fn new(alloc: Global) -> Result<(MetricWords, MetricSeat), OutOfMemory>
        ensures { IfOk result (λ t. t.1 ≡ first_seat t.0) }
    {
        let who = WorkerNo::new(1).unwrap();
        let room = Vec::with_capacity(alloc, 1024)?;
        let words = [0; 1024];
        let (table, pass) = Table::of_words(alloc, &words, &())?;
        let seat = MetricSeat {
            who,
            given: 1,
            badge: pass.into_badge(),
        };
        Ok((MetricWords { table, room }, seat))
    }

    /// Gives out the seat of the next number, whose words are 0. It takes no memory.
    pub fn split(&self, seat: &mut MetricSeat) -> Result<MetricSeat, OutOfMemory>
        requires { (seat.old.table ≡ self.now) × (seat.old.number ≡ 1) × (seat.old.given < 8) }
        ensures ok { IsOk result }
        ensures kept { seat.new ≡ record seat.old { given = seat.old.given + 1 } }
        ensures next { IfOk result (λ next. next ≡ next_seat seat.old) }
    {
        let mut pass = pass_out(&mut seat.badge);
        let next = self.table.shared.split_seat::<Parts>(&mut pass);
        seat.badge = pass.into_badge();
        seat.given += 1;
        Ok(MetricSeat {
            who: WorkerNo::new(seat.given).unwrap(),
            given: 0,
            badge: next.into_badge(),
        })
    }

    /// Ends a seat, whose own values worker 1's then keeps. It takes no memory.
    pub fn join(&self, seat: &mut MetricSeat, other: MetricSeat)
        requires { (seat.old.table ≡ self.now) × (other.table ≡ self.now) × (seat.old.number ≡ 1) }
        ensures { Joined seat.old other seat.new }
    {
        let MetricSeat {
            who: _,
            given: _,
            badge,
        } = other;
        let mut pass = pass_out(&mut seat.badge);
        self.table
            .shared
            .join_seat::<Meets>(&mut pass, badge.into_seat());
        seat.badge = pass.into_badge();
    }

    /// Adds to the own word of a kind and an id, modulo 2^64. It takes no memory.
    pub fn bump(&self, seat: &mut MetricSeat, kind: MetricKind, id: u32, by: u64)
        requires seat { seat.old.table ≡ self.now }
        requires id { (1 ≤ id) × (id ≤ 64) }
        requires counter { kind ≡ Counter → slice_index seat.old.own (column_of kind id) + by < 2 ^ 64 }
        ensures { seat.new ≡ record seat.old { own = slice_set seat.old.own (column_of kind id) ((slice_index seat.old.own (column_of kind id) + by) % 2 ^ 64) } }
    {
        let at = place(seat.who, kind, id);
        let mut pass = pass_out(&mut seat.badge);
        self.table.shared.fetch_add::<Bumps>(&mut pass, at, by);
        seat.badge = pass.into_badge();
    }

    /// Writes the own word of a gauge. It takes no memory.
    pub fn put(&self, seat: &mut MetricSeat, id: u32, value: u64)
        requires seat { seat.old.table ≡ self.now }
        requires id { (1 ≤ id) × (id ≤ 64) }
        ensures { seat.new ≡ record seat.old { own = slice_set seat.old.own (column_of Gauge id) value } }
    {
        let at = place(seat.who, MetricKind::Gauge, id);
        let mut pass = pass_out(&mut seat.badge);
        self.table.shared.store::<Writes>(&mut pass, at, value);
        seat.badge = pass.into_badge();
    }

    /// Reads the word of a worker, a kind and an id, by one look. It takes no memory.
    pub fn look(&self, seat: &mut MetricSeat, who: WorkerNo, kind: MetricKind, id: u32) -> u64
        requires seat { seat.old.table ≡ self.now }
        requires id { (1 ≤ id) × (id ≤ 64) }
        ensures { Looked seat.old who kind id result seat.new }
    {
        let at = place(who, kind, id);
        let mut pass = pass_out(&mut seat.badge);
        let found = self.table.shared.load::<Looks>(&mut pass, at);
        seat.badge = pass.into_badge();
        found
    }

    /// Ends the words, of which no other seat is left. It takes no memory.
    pub fn close(self, seat: MetricSeat) -> MetricTotals
        requires { (seat.table ≡ self) × (seat.number ≡ 1) × HasAll seat }
        ensures { Shut seat result }
    {
        let MetricSeat {
            who: _,
            given: _,
            badge,
        } = seat;
        let MetricWords { table, room } = self;
        let closed = table.close_with(badge.into_seat());
        let mut words = room;
        for place in 0..1024 {
            match words.push(closed.word(place)) {
                Ok(()) => {}
                Err(_) => unreachable!(),
            }
        }
        closed.free();
        MetricTotals { words }
    }
}
