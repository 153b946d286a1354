// A list whose members are put behind and taken in front.
ghost use Rattle.std.specs.Prelude.{◌≡◌, [], ◌∷◌, ◌++◌, ◌<◌, ◌≤◌, ◌↔◌, length, OnOk, OnErr, IfOk, IsTrue, MatchOption, Some, slice_get, slice_set, insert, remove};

use gate_base::{Members, OutOfMemory};
use std::alloc::{AllocError, Global};
use std::marker::Model;

/// A list of members that is taken from the front. Clauses see the list of what its members are.
#[derive(Drop)]
pub struct Queue<M> {
    items: Vec<M>,
}

impl<M> Model for Queue<M> {
    ghost use Rattle.std.specs.Prelude.{List};

    ghost Value = { List M };

    ghost view = { λ q. q.items.items };
}

impl<M> Queue<M> {
    /// No members. It takes no memory.
    pub fn new(alloc: Global) -> Self
        ensures { result ≡ [] }
    {
        Queue {
            items: Vec::new(alloc),
        }
    }

    /// The members of a vector.
    pub fn from_vec(items: Vec<M>) -> Self
        ensures { result ≡ items.items }
    {
        Queue { items }
    }

    /// The members as a vector.
    pub fn into_vec(self) -> Vec<M>
        ensures { result.items ≡ self }
    {
        self.items
    }

    /// The members, to be taken one after the other.
    pub fn drain(self) -> Drain<M>
        ensures { result ≡ self }
    {
        let mut items = self.items;
        items.reverse();
        Drain { items }
    }

    /// Puts a member after the others. One that is refused is dropped.
    pub fn push(&mut self, member: M) -> Result<(), OutOfMemory>
    where
        M: Drop,
        ensures ok { OnOk result (self.new ≡ self.old ++ member ∷ []) }
        ensures err { OnErr result (self.new ≡ self.old) }
    {
        self.items.push(member)?;
        Ok(())
    }

    /// Puts a member in front of the others. One that is refused is dropped.
    pub fn push_first(&mut self, member: M) -> Result<(), OutOfMemory>
    where
        M: Drop,
        ensures ok { OnOk result (self.new ≡ member ∷ self.old) }
        ensures err { OnErr result (self.new ≡ self.old) }
    {
        self.items.insert(0, member)?;
        Ok(())
    }

    /// A member stands in the place of all others, in the memory that they had: so it is refused only where there are none.
    pub fn restart(&mut self, member: M) -> Result<(), OutOfMemory>
    where
        M: Drop,
        ensures ok { OnOk result (self.new ≡ member ∷ []) }
        ensures err { OnErr result (self.new ≡ self.old) }
        ensures sure { OnErr result (self.old ≡ []) }
    {
        if self.items.is_empty() {
            self.items.push(member)?;
        } else {
            self.items.truncate(1);
            self.items[0] = member;
        }
        Ok(())
    }

    /// The members of another queue come behind. They are dropped where there is no room.
    pub fn append(&mut self, other: Queue<M>) -> Result<(), OutOfMemory>
    where
        M: Drop,
        ensures ok { OnOk result (self.new ≡ self.old ++ other) }
        ensures err { OnErr result (self.new ≡ self.old) }
    {
        let mut items = other.items;
        self.items.append(&mut items)?;
        Ok(())
    }

    /// The members of two queues come behind, all of them or none. Where there is no room, the second keeps its own.
    pub fn append_both(&mut self, first: Queue<M>, second: &mut Queue<M>) -> Result<(), OutOfMemory>
    where
        M: Drop,
        ensures ok { OnOk result (self.new ≡ self.old ++ (first ++ second.old)) }
        ensures moved { OnOk result (second.new ≡ []) }
        ensures err { OnErr result (self.new ≡ self.old) }
        ensures kept { OnErr result (second.new ≡ second.old) }
    {
        let mut items = first.items;
        let Some(many) = items.len().checked_add(second.items.len()) else {
            return Err(AllocError);
        };
        self.items.reserve(many)?;
        self.items.append(&mut items)?;
        self.items.append(&mut second.items)
    }

    /// Takes the first member. There is none exactly where the queue is empty.
    pub fn pop_first(&mut self) -> Option<M>
        ensures { MatchOption result ((self.old ≡ []) × (self.new ≡ [])) (λ m. self.old ≡ m ∷ self.new) }
    {
        if self.items.is_empty() {
            return None;
        }
        Some(self.items.remove(0))
    }

    /// Takes the member at a place, from 0.
    pub fn remove(&mut self, at: usize) -> M
        requires { at < length self.old }
        ensures value { slice_get self.old at ≡ Some result }
        ensures rest { self.new ≡ remove self.old at }
    {
        self.items.remove(at)
    }

    /// Puts a member at a place, from 0; those from there on come after it.
    pub fn insert(&mut self, at: usize, member: M) -> Result<(), OutOfMemory>
    where
        M: Drop,
        requires { at ≤ length self.old }
        ensures ok { OnOk result (self.new ≡ insert self.old at member) }
        ensures err { OnErr result (self.new ≡ self.old) }
    {
        self.items.insert(at, member)?;
        Ok(())
    }

    /// Puts a member in the place of another.
    pub fn set(&mut self, at: usize, member: M)
    where
        M: Drop,
        requires { at < length self.old }
        ensures { self.new ≡ slice_set self.old at member }
    {
        self.items[at] = member;
    }

    /// How many members there are.
    pub fn len(&self) -> usize
        ensures { result ≡ length self.now }
    {
        self.items.len()
    }

    /// Whether there is no member.
    pub fn is_empty(&self) -> bool
        ensures { IsTrue result ↔ (self.now ≡ []) }
    {
        self.items.is_empty()
    }

    /// The members in order.
    pub fn as_slice(&self) -> &[M]
        ensures { result.now ≡ self.now }
    {
        self.items.as_slice()
    }
}

/// The members of a queue that are taken one after the other, each at the same cost however many are left. Clauses see the list of what is left.
#[derive(Drop)]
pub struct Drain<M> {
    /// What is left, the last first.
    items: Vec<M>,
}

impl<M> Model for Drain<M> {
    ghost use Rattle.std.specs.Prelude.{List, reverse};

    ghost Value = { List M };

    ghost view = { λ d. reverse d.items.items };
}

impl<M> Drain<M> {
    /// Takes the first member. There is none exactly where none is left.
    pub fn pop_first(&mut self) -> Option<M>
        ensures { MatchOption result ((self.old ≡ []) × (self.new ≡ [])) (λ m. self.old ≡ m ∷ self.new) }
    {
        self.items.pop()
    }
}

/// The members of a list, as a queue.
pub fn queued<M: Drop>(alloc: Global, list: Members<M>) -> Result<Queue<M>, OutOfMemory>
    ensures { IfOk result (λ queue. queue ≡ list) }
{
    let mut list = list;
    let mut items = Vec::new(alloc);
    while let Some(member) = list.pop() {
        items.push(member)?;
    }
    items.reverse();
    Ok(Queue { items })
}
