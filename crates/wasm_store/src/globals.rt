//! Globals (WebAssembly Core 1.0 section 4.2.9).

ghost use Rattle.std.specs.Prelude.{◌≡◌, ◌<◌, length, map, slice_index_or, slice_set, IfOk};
ghost use Rattle.wasm_syntax.specs.Stores.{initial, initial_globals};

use crate::segments::initial_value;
use gate_base::OutOfMemory;
use std::alloc::Global as Memory;
use std::marker::Model;
use wasm_syntax::{Module, Value};

/// The values of the globals of an instance, by index. Clauses see the list.
#[derive(Drop)]
pub struct Globals {
    values: Vec<Value>,
}

impl Model for Globals {
    ghost use Rattle.std.specs.Prelude.{List};
    ghost use Rattle.wasm_syntax.specs.declared.types.Value.{Value as Values};

    ghost Value = { List Values };

    ghost view = { λ a. a.values.items };
}

impl Globals {
    /// Their values at the start.
    pub(crate) fn initial(alloc: Memory, m: &Module) -> Result<Globals, OutOfMemory>
        ensures { IfOk result (λ g. g ≡ initial_globals m.now) }
    {
        let mut values = Vec::new(alloc);
        for g in m.globals.as_slice() {
            values.push(initial_value(g.initial.as_slice()))?;
        }
        Ok(Globals { values })
    }

    /// How many there are.
    pub fn len(&self) -> usize
        ensures { result ≡ length self.now }
    {
        self.values.len()
    }

    /// The values in order.
    pub fn as_slice(&self) -> &[Value]
        ensures { result.now ≡ self.now }
    {
        self.values.as_slice()
    }

    /// The value of the one at this index.
    pub fn get(&self, at: usize) -> Value
        requires { at < length self.now }
        ensures { result ≡ slice_index_or self.now at result }
    {
        self.values[at]
    }

    /// Gives the one at this index another value.
    pub fn set(&mut self, at: usize, value: Value)
        requires { at < length self.old }
        ensures { self.new ≡ slice_set self.old at value }
    {
        self.values[at] = value;
    }
}
