//! The arguments of a call of the host.

ghost use Rattle.std.specs.Prelude.{◌≡◌, ◌≤◌, ◌<◌, ◌++◌, [], ◌∷◌, length, take, reverse};

use crate::stack::Stack;
use std::marker::Model;
use wasm_syntax::Value;

/// At most 16 values, in place. Clauses see the list.
#[derive(Drop)]
pub struct Values {
    items: [Value; 16],
    count: usize,
}

impl Model for Values {
    ghost use Rattle.std.specs.Prelude.{List, ◌≤◌, take};
    ghost use Rattle.wasm_syntax.specs.declared.types.Value.{Value as One};

    ghost Value = { List One };

    ghost view = { λ a. take a.count a.items };

    ghost invariant = { λ a. a.count ≤ 16 };
}

impl Values {
    /// None.
    fn new() -> Values
        ensures { result ≡ [] }
    {
        Values {
            items: [Value::I32(0); 16],
            count: 0,
        }
    }

    /// One more.
    fn push(&mut self, v: Value)
        requires { length self.old < 16 }
        ensures { self.new ≡ self.old ++ v ∷ [] }
    {
        self.items[self.count] = v;
        self.count += 1;
    }

    /// The topmost of a stack, the topmost last.
    pub(crate) fn topmost(values: &Stack<Value>, count: usize) -> Values
        requires few { count ≤ 16 }
        requires there { count ≤ length values.now.members }
        ensures { result ≡ reverse (take count values.now.members) }
    {
        let mut taken = Values::new();
        let mut depth = count;
        while depth > 0 {
            depth -= 1;
            if let Some(v) = values.get(depth) {
                taken.push(v);
            }
        }
        taken
    }

    /// The values in order.
    pub fn as_slice(&self) -> &[Value]
        ensures { result.now ≡ self.now }
    {
        &self.items[..self.count]
    }
}
