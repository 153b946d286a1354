// What waits for a world that takes less than it is given.
ghost use Rattle.std.specs.Prelude.{◌≡◌, ◌≤◌, ◌↔◌, ◌++◌, [], IsTrue, IfOk, OnOk, OnErr};
ghost use Rattle.send_queue.specs.Cleared.{still_waiting, without};
ghost use Rattle.send_queue.specs.Delivery.{Offered};
ghost use Rattle.send_queue.specs.Joined.{join_neighbours};
ghost use Rattle.std.specs.Bool.{OnTrue};
ghost use Rattle.send_queue.specs.Places.{IsFull, octets_in, marks_at};
ghost use Rattle.send_queue.specs.Sorted.{rank, IsSorted, IsSortedFrom};

use crate::held::{Unsent, bytes_for, bytes_left, is_for, rank_of};
use crate::joining::joined;
use crate::offer::{offer_all, offer_sent, offer_waiting};
use crate::place::{Destination, ended_by, rank};
use crate::sorted::end_near;
use gate_base::{LineNo, OutOfMemory};
use gate_io::{Sent, Side, What, World};
use std::alloc::Global;
use std::marker::Model;
use std::mem;

/// So many bytes of output that wait on a side of a line are enough.
const FULL: usize = 65_536;

/// What waits to be handed over, in order. Clauses see the list of its members.
#[derive(Drop)]
pub struct Outbox {
    waiting: Vec<Unsent>,
    /// What waits was left by a world: it is sorted by places, so that a turn costs no more for what waits elsewhere than to offer it.
    is_sorted: bool,
}

impl Model for Outbox {
    ghost use Rattle.std.specs.Bool.{OnTrue};
    ghost use Rattle.std.specs.Prelude.{List};
    ghost use Rattle.gate_io.specs.declared.event.Sent.{Sent};
    ghost use Rattle.send_queue.specs.Sorted.{IsSorted};

    ghost Value = { List Sent };

    ghost view = { λ o. o.waiting.items };

    ghost invariant = { λ o. OnTrue o.is_sorted (IsSorted o.waiting.items) };
}

impl Outbox {
    /// Nothing waits. It takes no memory.
    pub fn new(alloc: Global) -> Self
        ensures { result ≡ [] }
    {
        Outbox {
            waiting: Vec::new(alloc),
            is_sorted: true,
        }
    }

    /// What waits, in order.
    pub fn waiting(&self) -> &[Unsent]
        ensures { result.now ≡ self.now }
    {
        &self.waiting
    }

    /// Drops what can't be sent any more once this happened. It takes no memory.
    pub fn clear(&mut self, what: &What)
        ensures { self.new ≡ still_waiting what.now self.old }
    {
        if let Some(place) = ended_by(what) {
            forget(&mut self.waiting, &place);
        }
    }

    /// Puts these after what waits, all or none.
    pub fn append(&mut self, sent: Vec<Sent>) -> Result<(), OutOfMemory>
        ensures ok { OnOk result (self.new ≡ self.old ++ sent.items) }
        ensures err { OnErr result (self.new ≡ self.old) }
    {
        let mut sent = held(sent)?;
        self.is_sorted = false;
        self.waiting.append(&mut sent)?;
        Ok(())
    }

    /// Delivers what a turn sends, once this happened: drops what can't be sent any more, puts the list, with its neighbours
    /// joined, after what waits, and hands all over. After an Err it is to be used no more: something may be lost.
    pub fn deliver<W: World>(
        &mut self,
        alloc: Global,
        world: &mut W,
        what: &What,
        sent: Vec<Sent>,
    ) -> Result<(), OutOfMemory>
        ensures last { W.last world.new ≡ W.last world.old }
        ensures nature { W.nature world.new ≡ W.nature world.old }
        ensures faults { W.faults world.old ≤ W.faults world.new }
        ensures offered { Offered (W.nature world.old).takes_whole (W.trace world.old) [] (still_waiting what.now self.old ++ join_neighbours sent.items) result (W.trace world.new) self.new }
    {
        self.clear(what);
        let sent = joined(alloc, sent)?;
        self.hand_over_with(alloc, world, sent)
    }

    /// Offers all that waits, in order: a member is offered unless one before it waits on its side of its line. What the world
    /// does not take waits on. After an Err nothing waits: what was not handed over by then is lost.
    pub fn hand_over<W: World>(&mut self, alloc: Global, world: &mut W) -> Result<(), OutOfMemory>
        ensures last { W.last world.new ≡ W.last world.old }
        ensures nature { W.nature world.new ≡ W.nature world.old }
        ensures faults { W.faults world.old ≤ W.faults world.new }
        ensures offered { Offered (W.nature world.old).takes_whole (W.trace world.old) [] self.old result (W.trace world.new) self.new }
        ensures err { OnErr result (self.new ≡ []) }
    {
        self.hand_over_with(alloc, world, Vec::new(alloc))
    }

    /// Offers all that waits, and these after it. What is left by a world is offered where it waits.
    fn hand_over_with<W: World>(
        &mut self,
        alloc: Global,
        world: &mut W,
        sent: Vec<Sent>,
    ) -> Result<(), OutOfMemory>
        ensures last { W.last world.new ≡ W.last world.old }
        ensures nature { W.nature world.new ≡ W.nature world.old }
        ensures faults { W.faults world.old ≤ W.faults world.new }
        ensures offered { Offered (W.nature world.old).takes_whole (W.trace world.old) [] (self.old ++ sent.items) result (W.trace world.new) self.new }
        ensures err { OnErr result (self.new ≡ []) }
    {
        let mut left = mem::replace(&mut self.waiting, Vec::new(alloc));
        offer_again(alloc, world, &mut left, self.is_sorted)?;
        offer_sent(alloc, world, &mut left, sent)?;
        self.waiting = left;
        self.is_sorted = true;
        Ok(())
    }

    /// Whether at least 65,536 bytes wait on a side of a line. Of sides that are asked for one after the other what waits is walked through from the
    /// place at which the last one was looked for, so that sides by rising number of their lines, the client's first, cost no search. The answer is
    /// the same at any place.
    pub fn is_full_near(&self, line: LineNo, side: Side, at: &mut usize) -> bool
        ensures { IsTrue result ↔ IsFull line side self.now }
    {
        if self.waiting.is_empty() {
            return false;
        }
        let place = Destination::Peer { line, side };
        if !self.is_sorted {
            return is_full_in(&self.waiting, &place);
        }
        let first = end_near(&self.waiting, rank(&place) - 1, *at);
        let full = is_full_from(&self.waiting[first..], &place);
        // Of a side that is full the first member is passed over, which is most often its last.
        *at = if full { first + 1 } else { first };
        full
    }
}

/// Members of which nothing was taken.
fn held(sent: Vec<Sent>) -> Result<Vec<Unsent>, OutOfMemory>
    ensures { IfOk result (λ list. list.items ≡ sent.items) }
{
    let mut list = Vec::with_capacity(*sent.allocator(), sent.len())?;
    for member in sent {
        list.push(Unsent::new(member))?;
    }
    Ok(list)
}

/// Offers what waits, in order. What is left is sorted.
fn offer_again<W: World>(
    alloc: Global,
    world: &mut W,
    waiting: &mut Vec<Unsent>,
    is_sorted: bool,
) -> Result<(), OutOfMemory>
    requires { OnTrue is_sorted (IsSorted waiting.old.items) }
    ensures last { W.last world.new ≡ W.last world.old }
    ensures nature { W.nature world.new ≡ W.nature world.old }
    ensures faults { W.faults world.old ≤ W.faults world.new }
    ensures offered { Offered (W.nature world.old).takes_whole (W.trace world.old) [] waiting.old.items result (W.trace world.new) waiting.new.items }
    ensures sorted { OnOk result (IsSorted waiting.new.items) }
{
    if is_sorted {
        return offer_waiting(alloc, world, waiting);
    }
    let members = mem::replace(waiting, Vec::new(alloc));
    offer_all(alloc, world, waiting, members)
}

/// Whether at least 65,536 bytes of these wait for a place.
fn is_full_in(members: &[Unsent], place: &Destination) -> bool
    ensures { IsTrue result ↔ (65536 ≤ octets_in (marks_at place.now members.now)) }
{
    let mut room = FULL;
    for member in members {
        let n = bytes_for(member, place);
        if room <= n {
            return true;
        }
        room -= n;
    }
    false
}

/// The same of sorted ones, of which none is in front of those for the place. They are read as far as they are for it.
fn is_full_from(members: &[Unsent], place: &Destination) -> bool
    requires { IsSortedFrom (rank place.now) members.now }
    ensures { IsTrue result ↔ (65536 ≤ octets_in (marks_at place.now members.now)) }
{
    let most = rank(place);
    let mut room = FULL;
    for member in members {
        if rank_of(member) > most {
            return false;
        }
        let n = bytes_left(member);
        if room <= n {
            return true;
        }
        room -= n;
    }
    false
}

/// Drops what waits for a place.
fn forget(waiting: &mut Vec<Unsent>, place: &Destination)
    ensures { waiting.new.items ≡ without place.now waiting.old.items }
{
    waiting.retain(|member| !is_for(member, place));
}
