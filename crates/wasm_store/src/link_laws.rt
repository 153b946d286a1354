//! Which cause is told where several stand against linking. The function has nothing to do: its contract is the law.

ghost use Rattle.std.specs.Prelude.{◌≡◌, ◌↔◌, ℕ, Some, None};
ghost use Rattle.wasm_syntax.specs.declared.module.Module.{Module as Modules};
ghost use Rattle.wasm_store.specs.declared.instance.LinkEnd.{LinkEnd as LinkEnds};
ghost use Rattle.wasm_store.specs.Linking.{Host, link_fault};
ghost use Rattle.wasm_store.specs.LinkCauses.{StandsAgainst, IsFirst};

/// A cause is told exactly where it is the first of those that stand, and none exactly where none stands.
pub fn the_first_cause_is_told()
    ensures told { (host : Host) (m : Modules) (pages : ℕ) (e : LinkEnds) → (link_fault host m pages ≡ Some e) ↔ IsFirst (StandsAgainst host m pages) e }
    ensures none { (host : Host) (m : Modules) (pages : ℕ) → (link_fault host m pages ≡ None) ↔ ((e : LinkEnds) → StandsAgainst host m pages e → ⊥) }
{}
