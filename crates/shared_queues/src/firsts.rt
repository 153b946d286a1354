// The first notice owed for each queue, in a tree that knows the least one of each worker.
ghost use Rattle.std.specs.Prelude.{◌≡◌, ℕ, ◌-◌, ◌<◌, ◌≤◌, [], ◌∷◌, ◌++◌, length, map, take, OnOk, OnErr, MatchOption, slice_index, slice_index_or, slice_set};
ghost use Rattle.shared_queues.specs.Firsts.{IsEarliest, NoneOwedTo};
ghost use Rattle.shared_queues.specs.Tree.{AllRight, AllRightBut, joined, least_at, own, place_at, whos_of, firsts_of};

use gate_base::{OutOfMemory, WorkerNo};
use std::alloc::Global;
use std::marker::Model;
use store_model::MOST_NAMES;

/// In place of the number of a first notice, where none is owed.
pub(crate) const NONE: u64 = u64::MAX;

/// A queue's registrant, and the number of the first notice that is owed for it. Below the place of index `k` stand those of
/// index `2 k + 1` and `2 k + 2`. `least` has, for each worker, the least number among its queues at this place and below it.
#[derive(Drop)]
struct Place {
    who: WorkerNo,
    first: u64,
    least: [u64; 8],
}

/// For each queue its registrant, and the number of the first notice owed for it.
#[derive(Drop)]
pub(crate) struct Firsts {
    places: Vec<Place>,
}

impl Model for Firsts {
    ghost use Rattle.shared_queues.specs.Firsts.{Standing};

    ghost Value = { Standing };

    ghost use Rattle.shared_queues.specs.Tree.{IsTree, whos_of, firsts_of};

    ghost view = { λ s. record { whos = whos_of s.places.items; firsts = firsts_of s.places.items } };

    ghost invariant = { λ s. IsTree s.places.items };
}

impl Firsts {
    /// No queues. It takes no memory.
    pub(crate) fn new(alloc: Global) -> Self
        ensures { result ≡ record { whos = []; firsts = [] } }
    {
        Firsts {
            places: Vec::new(alloc),
        }
    }

    /// Adds a queue for which nothing is owed.
    pub(crate) fn add(&mut self, who: WorkerNo) -> Result<(), OutOfMemory>
        requires { length self.old.whos < MOST_NAMES }
        ensures ok { OnOk result (self.new ≡ record { whos = self.old.whos ++ who ∷ []; firsts = self.old.firsts ++ NONE ∷ [] }) }
        ensures err { OnErr result (self.new ≡ self.old) }
    {
        self.places.push(Place {
            who,
            first: NONE,
            least: [NONE; 8],
        })?;
        Ok(())
    }

    /// Takes back the last queue, for which nothing is owed.
    pub(crate) fn forget_last(&mut self)
        requires some { 0 < length self.old.whos }
        requires none_owed { slice_index_or self.old.firsts (length self.old.whos - 1) NONE ≡ NONE }
        ensures { self.new ≡ record { whos = take (length self.old.whos - 1) self.old.whos; firsts = take (length self.old.whos - 1) self.old.firsts } }
    {
        self.places.pop();
    }

    /// Says who the registrant of a queue is from now on. It takes no memory.
    pub(crate) fn set_who(&mut self, index: usize, who: WorkerNo)
        requires { index < length self.old.whos }
        ensures { self.new ≡ record self.old { whos = slice_set self.old.whos index who } }
    {
        put_who(self.places.as_mut_slice(), index, who);
    }

    /// Says what the first notice of a queue is from now on. It takes no memory.
    pub(crate) fn set_first(&mut self, index: usize, first: u64)
        requires { index < length self.old.whos }
        ensures { self.new ≡ record self.old { firsts = slice_set self.old.firsts index first } }
    {
        put_first(self.places.as_mut_slice(), index, first);
    }

    /// The queue of this registrant whose first notice has the least number.
    pub(crate) fn earliest(&self, who: WorkerNo) -> Option<usize>
        ensures { MatchOption result (NoneOwedTo self.now who) (IsEarliest self.now who) }
    {
        let worker = who.get() as usize - 1;
        let places = self.places.as_slice();
        let least = least_at(places, 0, worker);
        if least == NONE {
            return None;
        }
        Some(place_of(places, worker, least))
    }
}

/// Gives the queue at a place another registrant.
fn put_who(places: &mut [Place], index: usize, who: WorkerNo)
    requires few { length places.old ≤ MOST_NAMES }
    requires at { index < length places.old }
    requires right { AllRight places.old }
    ensures right { AllRight places.new }
    ensures whos { whos_of places.new ≡ slice_set (whos_of places.old) index who }
    ensures firsts { firsts_of places.new ≡ firsts_of places.old }
{
    let place = &mut places[index];
    place.who = who;
    climb(places, index);
}

/// Gives the queue at a place another first notice.
fn put_first(places: &mut [Place], index: usize, first: u64)
    requires few { length places.old ≤ MOST_NAMES }
    requires at { index < length places.old }
    requires right { AllRight places.old }
    ensures right { AllRight places.new }
    ensures whos { whos_of places.new ≡ whos_of places.old }
    ensures firsts { firsts_of places.new ≡ slice_set (firsts_of places.old) index first }
{
    let place = &mut places[index];
    if place.first == first {
        return;
    }
    place.first = first;
    climb(places, index);
}

/// The place at which a worker's queue has the number that is the least one of them all.
fn place_of(places: &[Place], worker: usize, least: u64) -> usize
    requires few { length places.now ≤ MOST_NAMES }
    requires worker { worker < 8 }
    requires right { AllRight places.now }
    requires least { least_at places.now 0 worker ≡ least }
    requires some { least < NONE }
    ensures within { result < length places.now }
    ensures here { own (place_at places.now result) worker ≡ least }
{
    let mut at = 0;
    while own(&places[at], worker) != least {
        let left = 2 * at + 1;
        at = if least_at(places, left, worker) == least {
            left
        } else {
            left + 1
        };
    }
    at
}

/// The number of a place's first notice, if its queue is this worker's.
fn own(place: &Place, worker: usize) -> u64
    requires { worker < 8 }
    ensures { result ≡ own place.now worker }
{
    if place.who.get() as usize == worker + 1 {
        place.first
    } else {
        NONE
    }
}

/// The least number of a worker at a place and below it; past the last place there is none.
fn least_at(places: &[Place], at: usize, worker: usize) -> u64
    requires { worker < 8 }
    ensures { result ≡ least_at places.now at worker }
{
    if at < places.len() {
        places[at].least[worker]
    } else {
        NONE
    }
}

/// The least number of a worker at a place and below it, from what stands at the place and what is known of those below it.
fn joined(places: &[Place], at: usize, worker: usize) -> u64
    requires few { length places.now ≤ MOST_NAMES }
    requires at { at < length places.now }
    requires worker { worker < 8 }
    ensures { result ≡ joined places.now at worker }
{
    let left = least_at(places, 2 * at + 1, worker);
    let right = least_at(places, 2 * at + 2, worker);
    u64::min(own(&places[at], worker), u64::min(left, right))
}

/// The least number of each worker at a place and below it.
fn all_joined(places: &[Place], at: usize) -> [u64; 8]
    requires few { length places.now ≤ MOST_NAMES }
    requires at { at < length places.now }
    ensures { (w : ℕ) → w < 8 → slice_index result w ≡ joined places.now at w }
{
    let mut least = [NONE; 8];
    for worker in 0..8 {
        least[worker] = joined(places, at, worker);
    }
    least
}

/// Makes a place right again.
fn refresh(places: &mut [Place], at: usize)
    requires few { length places.old ≤ MOST_NAMES }
    requires at { at < length places.old }
    ensures least { (w : ℕ) → w < 8 → least_at places.new at w ≡ joined places.old at w }
    ensures own { (w : ℕ) → own (place_at places.new at) w ≡ own (place_at places.old at) w }
    ensures others { (k : ℕ) → (k ≡ at → ⊥) → place_at places.new k ≡ place_at places.old k }
    ensures whos { whos_of places.new ≡ whos_of places.old }
    ensures firsts { firsts_of places.new ≡ firsts_of places.old }
{
    let least = all_joined(places, at);
    let place = &mut places[at];
    place.least = least;
}

/// Makes all places right again after a change at one of them.
fn climb(places: &mut [Place], index: usize)
    requires few { length places.old ≤ MOST_NAMES }
    requires at { index < length places.old }
    requires right { AllRightBut places.old index }
    ensures right { AllRight places.new }
    ensures whos { whos_of places.new ≡ whos_of places.old }
    ensures firsts { firsts_of places.new ≡ firsts_of places.old }
{
    let mut at = index;
    while at > 0 {
        refresh(places, at);
        at = (at - 1) / 2;
    }
    refresh(places, 0);
}
