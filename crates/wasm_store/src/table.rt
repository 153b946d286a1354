//! Tables (WebAssembly Core 1.0 section 4.2.7).

ghost use Rattle.std.specs.Prelude.{◌≡◌, ◌≤◌, ◌+◌, length, map, replicate, Some, None, IfOk};
ghost use Rattle.wasm_syntax.specs.Memory.{written};
ghost use Rattle.wasm_syntax.specs.Stores.{element_at};

use gate_base::OutOfMemory;
use std::alloc::Global;
use std::marker::Model;

/// The functions of a table, by the indices that the module gives them: none where an element was never
/// set. Clauses see the list.
#[derive(Drop)]
pub struct Table {
    elements: Vec<Option<u32>>,
}

impl Model for Table {
    ghost use Rattle.std.specs.Prelude.{List, ℕ, Option};

    ghost Value = { List (Option ℕ) };

    ghost view = { λ a. a.elements.items };
}

impl Table {
    /// So many elements, none of them set.
    pub(crate) fn new(alloc: Global, size: u32) -> Result<Table, OutOfMemory>
        ensures { IfOk result (λ t. t ≡ replicate size None) }
    {
        let mut elements = Vec::new(alloc);
        elements.resize(size as usize, None)?;
        Ok(Table { elements })
    }

    /// How many elements there are.
    pub fn len(&self) -> usize
        ensures { result ≡ length self.now }
    {
        self.elements.len()
    }

    /// The function at an index: none where the index is outside, or the element was never set.
    pub fn function(&self, index: u32) -> Option<u32>
        ensures { result ≡ element_at self.now index }
    {
        match self.elements.as_slice().get(index as usize) {
            Some(f) => *f,
            None => None,
        }
    }

    /// Sets the elements from a place on.
    pub(crate) fn put(&mut self, at: usize, functions: &[u32])
        requires { at + length functions.now ≤ length self.old }
        ensures { self.new ≡ written self.old at (map Some functions.now) }
    {
        let mut to = at;
        for f in functions {
            self.elements[to] = Some(*f);
            to += 1;
        }
    }
}
