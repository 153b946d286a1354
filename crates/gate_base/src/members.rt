// A list of members of one type, proved once for all of them.
ghost use Rattle.std.specs.Prelude.{◌≡◌, [], ◌∷◌, ◌++◌, ◌<◌, ◌↔◌, length, OnOk, OnErr, IfNone, IfSome, IsTrue, slice_index_or};
ghost use Rattle.std.specs.Borrow.{sem};

use crate::{LineNo, Octets, OutOfMemory};
use std::alloc::Global;
use std::marker::Model;

/// A list of members. Clauses see the list of what its members are.
#[derive(Drop)]
pub struct Members<M> {
    items: Vec<M>,
}

/// A list of line numbers.
pub type LineList = Members<LineNo>;

/// A list of numbers of calls.
pub type CallNos = Members<u64>;

/// A list of pairs of bytes, as of names and values.
pub type Pairs = Members<(Octets, Octets)>;

impl<M> Model for Members<M> {
    ghost use Rattle.std.specs.Prelude.{List};

    ghost Value = { List M };

    ghost view = { λ a. a.items.items };
}

impl<M> Members<M> {
    ghost use Rattle.gate_base.specs.Lending.{LendsMember};

    /// No members. It takes no memory.
    pub fn new(alloc: Global) -> Self
        ensures { result ≡ [] }
    {
        Members {
            items: Vec::new(alloc),
        }
    }

    /// Puts a member at the end. A member that is refused is dropped.
    pub fn push(&mut self, member: M) -> Result<(), OutOfMemory>
    where
        M: Drop,
        ensures ok { OnOk result (self.new ≡ self.old ++ member ∷ []) }
        ensures err { OnErr result (self.new ≡ self.old) }
    {
        self.items.push(member)?;
        Ok(())
    }

    /// Takes the last member off. There is none exactly where the list is empty.
    pub fn pop(&mut self) -> Option<M>
        ensures some { IfSome result (λ m. self.old ≡ self.new ++ m ∷ []) }
        ensures none { IfNone result ((self.old ≡ []) × (self.new ≡ [])) }
    {
        self.items.pop()
    }

    /// How many members there are.
    pub fn len(&self) -> usize
        ensures { result ≡ length self.now }
    {
        self.items.len()
    }

    /// Whether there is no member.
    pub fn is_empty(&self) -> bool
        ensures { IsTrue result ↔ (self.now ≡ []) }
    {
        self.items.is_empty()
    }

    /// The member at a place, from 0.
    pub fn get(&self, at: usize) -> &M
        requires { at < length self.now }
        ensures { result.now ≡ slice_index_or self.now at result.now }
    {
        &self.items[at]
    }

    /// The member at a place, from 0, to be written.
    pub fn get_mut(&mut self, at: usize) -> &mut M
        requires { at < length self.old }
        ensures* lends { sem 𝓛 (LendsMember M.row self.entry at result) }
        ensures value { result.now ≡ slice_index_or self.old at result.now }
    {
        &mut self.items[at]
    }

    /// The members in order.
    pub fn as_slice(&self) -> &[M]
        ensures { result.now ≡ self.now }
    {
        self.items.as_slice()
    }
}
