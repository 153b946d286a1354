// The notices that a store owes.
ghost use Rattle.std.specs.Prelude.{◌≡◌, ◌<◌, ◌≤◌, ◌-◌, [], ◌∷◌, ◌++◌, length, take, OnOk, OnErr, IfSome, All, slice_set};
ghost use Rattle.shared_queues.specs.Owing.{oldest, but_oldest, owes_more, first_number};

use crate::firsts::{Firsts, NONE};
use gate_base::{OutOfMemory, WorkerNo};
use std::alloc::{AllocError, Global};
use std::collections::VecDeque;
use std::marker::Model;
use store_model::{MOST_NAMES, MOST_NOTICES};

/// The notices that are owed for each queue, by numbers that rise as they come to be owed, and the number of the next one.
/// Of each queue the registrant and the first number are known.
#[derive(Drop)]
pub(crate) struct Notices {
    firsts: Firsts,
    numbers: Vec<VecDeque<u64>>,
    next: u64,
}

impl Model for Notices {
    ghost use Rattle.shared_queues.specs.Owing.{Owing, IsNumbered, lists_of, owed_from};

    ghost Value = { Owing };

    ghost view = { λ s. record { whos = s.firsts.whos; owed = owed_from s.next 0 (lists_of s.numbers.items) } };

    ghost invariant = { λ s. IsNumbered s.firsts (lists_of s.numbers.items) s.next };
}

impl Notices {
    /// No queues, and nothing owed. It takes no memory.
    pub(crate) fn new(alloc: Global) -> Self
        ensures { result ≡ record { whos = []; owed = [] } }
    {
        Notices {
            firsts: Firsts::new(alloc),
            numbers: Vec::new(alloc),
            next: 0,
        }
    }

    /// Adds a queue with its registrant.
    pub(crate) fn add(&mut self, alloc: Global, who: WorkerNo) -> Result<(), OutOfMemory>
        requires { length self.old.whos < MOST_NAMES }
        ensures ok { OnOk result (self.new ≡ record self.old { whos = self.old.whos ++ who ∷ [] }) }
        ensures err { OnErr result (self.new ≡ self.old) }
        ensures indexes { All (λ k. k < length self.old.whos) self.old.owed }
    {
        self.numbers.reserve(1)?;
        self.firsts.add(who)?;
        self.numbers.push(VecDeque::new(alloc))?;
        Ok(())
    }

    /// Takes back the last queue, for which nothing is owed.
    pub(crate) fn forget_last(&mut self)
        requires some { 0 < length self.old.whos }
        requires none_owed { All (λ k. k < length self.old.whos - 1) self.old.owed }
        ensures { self.new ≡ record self.old { whos = take (length self.old.whos - 1) self.old.whos } }
    {
        self.firsts.forget_last();
        self.numbers.pop();
    }

    /// Says who the registrant of a queue is from now on. It takes no memory.
    pub(crate) fn set(&mut self, index: usize, who: WorkerNo)
        requires { index < length self.old.whos }
        ensures { self.new ≡ record self.old { whos = slice_set self.old.whos index who } }
    {
        self.firsts.set_who(index, who);
    }

    /// Owes one more notice for a queue, after all others, where not too many are owed for it.
    pub(crate) fn owe(&mut self, index: usize) -> Result<(), OutOfMemory>
        requires { index < length self.old.whos }
        ensures ok { OnOk result (self.new ≡ record self.old { owed = owes_more self.old.owed index }) }
        ensures err { OnErr result (self.new ≡ self.old) }
    {
        let owed = self.numbers[index].len();
        if (owed as u64) < MOST_NOTICES {
            if self.next == NONE {
                return Err(AllocError);
            }
            self.numbers[index].push_back(self.next)?;
            let first = first_of(&self.numbers[index]);
            self.firsts.set_first(index, first);
            self.next += 1;
        }
        Ok(())
    }

    /// Takes the oldest notice for a queue of this registrant. It takes no memory.
    pub(crate) fn take(&mut self, who: WorkerNo) -> Option<usize>
        ensures index { result ≡ oldest self.old who self.old.owed }
        ensures owed { self.new ≡ record self.old { owed = but_oldest self.old who self.old.owed } }
        ensures within { IfSome result (λ k. k < length self.old.whos) }
    {
        let index = self.firsts.earliest(who)?;
        self.numbers[index].pop_front();
        let first = first_of(&self.numbers[index]);
        self.firsts.set_first(index, first);
        Some(index)
    }
}

/// The first of a queue's numbers.
fn first_of(numbers: &VecDeque<u64>) -> u64
    ensures { result ≡ first_number numbers.now.items }
{
    match numbers.front() {
        None => NONE,
        Some(first) => *first,
    }
}
