//! The names seen so far, of which a new one is told from an old one in logarithmic time.

ghost use Rattle.std.specs.Prelude.{◌≡◌, ◌⊎◌, ◌↔◌, ℕ, List, IfOk, OnOk, OnErr, MatchBool};
ghost use Rattle.std.specs.Bool.{OnFalse};
ghost use Rattle.wasm_validator.specs.Seen.{IsSeen};

use gate_base::OutOfMemory;
use std::alloc::Global;
use std::collections::BTreeSet;
use std::marker::Model;

/// The names seen so far. Clauses see the list of their bytes, in order.
#[derive(Drop)]
pub(crate) struct Seen {
    names: BTreeSet<String>,
}

impl Model for Seen {
    ghost use Rattle.std.specs.Prelude.{List, ℕ, map, string_bytes};

    ghost Value = { List (List ℕ) };

    ghost view = { λ a. map string_bytes a.names.keys };
}

impl Seen {
    /// No name is seen. It takes no memory.
    pub(crate) fn new(alloc: Global) -> Self
        ensures { (q : List ℕ) → IsSeen result q → ⊥ }
    {
        Seen {
            names: BTreeSet::new(alloc),
        }
    }

    /// Puts a name in. It tells whether the name is new.
    pub(crate) fn add(&mut self, alloc: Global, name: &str) -> Result<bool, OutOfMemory>
        ensures told { IfOk result (λ is_new. MatchBool is_new (IsSeen self.old name.now → ⊥) (IsSeen self.old name.now)) }
        ensures seen { OnOk result ((q : List ℕ) → IsSeen self.new q ↔ (IsSeen self.old q ⊎ (q ≡ name.now))) }
        ensures same { IfOk result (λ is_new. OnFalse is_new (self.new ≡ self.old)) }
        ensures err { OnErr result (self.new ≡ self.old) }
    {
        let key = String::from_str(alloc, name)?;
        let is_new = self.names.insert(key)?;
        Ok(is_new)
    }
}
