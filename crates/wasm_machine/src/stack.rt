//! Stacks that are reserved at the start.

ghost use Rattle.std.specs.Prelude.{◌≡◌, ◌<◌, ◌≤◌, ◌+◌, [], ◌∷◌, ◌++◌, length, take, drop, slice_get, IfOk, MatchOption};
ghost use Rattle.wasm_flat.specs.Parts.{lowest};
ghost use Rattle.wasm_machine.specs.Held.{held};

use gate_base::OutOfMemory;
use std::alloc::Global;
use std::marker::Model;

/// A stack with room for so many members. Clauses see them, the topmost first, and the room.
#[derive(Drop)]
pub(crate) struct Stack<T> {
    /// The topmost is the last.
    items: Vec<T>,
}

impl<T> Model for Stack<T> {
    ghost use Rattle.std.specs.Prelude.{reverse};
    ghost use Rattle.std.specs.Vec.{vec_capacity};
    ghost use Rattle.wasm_machine.specs.Held.{Held, held};

    ghost Value = { Held T };

    ghost view = { λ a. held (reverse a.items.items) (vec_capacity a.items) };
}

impl<T: Copy + Drop> Stack<T> {
    /// None, with room for so many.
    pub(crate) fn new(alloc: Global, room: usize) -> Result<Self, OutOfMemory>
        ensures { IfOk result (λ s. s ≡ held [] room) }
    {
        Ok(Stack {
            items: Vec::with_capacity(alloc, room)?,
        })
    }

    /// How many there are.
    pub(crate) fn len(&self) -> usize
        ensures { result ≡ length self.now.members }
    {
        self.items.len()
    }

    /// One more on top.
    pub(crate) fn push(&mut self, x: T)
        requires { length self.old.members < self.old.room }
        ensures { self.new ≡ held (x ∷ self.old.members) self.old.room }
    {
        self.items.push_reserved(x);
    }

    /// Takes the topmost off.
    pub(crate) fn pop(&mut self) -> Option<T>
        ensures members { MatchOption result ((self.old.members ≡ []) × (self.new.members ≡ [])) (λ x. self.old.members ≡ x ∷ self.new.members) }
        ensures room { self.new.room ≡ self.old.room }
    {
        self.items.pop()
    }

    /// The one below so many.
    pub(crate) fn get(&self, depth: usize) -> Option<T>
        ensures { result ≡ slice_get self.now.members depth }
    {
        let count = self.items.len();
        if depth < count {
            Some(self.items[count - 1 - depth])
        } else {
            None
        }
    }

    /// Takes so many off.
    pub(crate) fn forget(&mut self, count: usize)
        requires { count ≤ length self.old.members }
        ensures { self.new ≡ held (drop count self.old.members) self.old.room }
    {
        let left = self.items.len() - count;
        self.items.truncate(left);
    }

    /// Keeps so many on top, and of the others the lowest.
    pub(crate) fn cut(&mut self, keep: usize, height: usize)
        requires { height + keep ≤ length self.old.members }
        ensures { self.new ≡ held (take keep self.old.members ++ lowest height self.old.members) self.old.room }
    {
        let count = self.items.len();
        let from = count - keep;
        self.items.copy_within(from..count, height);
        self.items.truncate(height + keep);
    }
}
