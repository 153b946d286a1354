// A list whose members come and go.
ghost use Rattle.std.specs.Prelude.{◌≡◌, [], ◌∷◌, ◌++◌, ◌<◌, length, OnOk, OnErr, slice_index_or};
ghost use Rattle.std.specs.List.{remove};
ghost use Rattle.std.specs.Borrow.{sem};

use gate_base::OutOfMemory;
use std::alloc::Global;
use std::marker::Model;

/// A list whose members come and go. Clauses see the list of what its members are.
#[derive(Drop)]
pub struct Roster<M> {
    items: Vec<M>,
}

impl<M> Model for Roster<M> {
    ghost use Rattle.std.specs.Prelude.{List};

    ghost Value = { List M };

    ghost view = { λ a. a.items.items };
}

impl<M> Roster<M> {
    ghost use Rattle.contexts.specs.RosterLending.{LendsPlace};

    /// No members. It takes no memory.
    pub fn new(alloc: Global) -> Self
        ensures { result ≡ [] }
    {
        Roster {
            items: Vec::new(alloc),
        }
    }

    /// Puts a member at the end. A member that is refused is dropped.
    pub fn push(&mut self, member: M) -> Result<(), OutOfMemory>
    where
        M: Drop,
        ensures ok { OnOk result (self.new ≡ self.old ++ member ∷ []) }
        ensures err { OnErr result (self.new ≡ self.old) }
    {
        self.items.push(member)?;
        Ok(())
    }

    /// Takes the member at a place out, from 0; those after it move down. It takes no memory.
    pub fn remove(&mut self, at: usize) -> M
        requires { at < length self.old }
        ensures member { result ≡ slice_index_or self.old at result }
        ensures rest { self.new ≡ remove self.old at }
    {
        self.items.remove(at)
    }

    /// How many members there are.
    pub fn len(&self) -> usize
        ensures { result ≡ length self.now }
    {
        self.items.len()
    }

    /// The member at a place, from 0, to be written.
    pub fn get_mut(&mut self, at: usize) -> &mut M
        requires { at < length self.old }
        ensures* lends { sem 𝓛 (LendsPlace M.row self.entry at result) }
        ensures value { result.now ≡ slice_index_or self.old at result.now }
    {
        &mut self.items[at]
    }

    /// The members in order.
    pub fn as_slice(&self) -> &[M]
        ensures { result.now ≡ self.now }
    {
        self.items.as_slice()
    }
}
