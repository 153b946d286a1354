//! Laws of what is written. The functions have nothing to do: their contracts are the laws.

ghost use Rattle.std.specs.Prelude.{◌≡◌, List, ℕ, Ok, [], ◌∷◌, ◌++◌};
ghost use Rattle.wasm_syntax.specs.declared.types.ValueType.TheVariants.{I32, I64};
ghost use Rattle.wasm_syntax.specs.declared.module.Module.{Module as Modules};
ghost use Rattle.wasm_syntax.specs.Numbers.{AreBytes, IsShortest};
ghost use Rattle.wasm_syntax.specs.Grammar.{Spells, module_read, empty_module, header};
ghost use Rattle.wasm_syntax.specs.Examples.{bytes_of_example, example};
ghost use Rattle.wasm_writer.specs.Written.{module_bytes, group, groups_of};

/// What is written for a module that some bytes spell spells it, and no bytes that do are fewer.
pub fn written_is_shortest()
    ensures { (b : List ℕ) (m : Modules) → AreBytes b → Spells b m → IsShortest (λ text. Spells text m) (module_bytes m) }
{}

/// What is written for it is read as the same module.
pub fn written_is_read()
    ensures { (b : List ℕ) (m : Modules) → AreBytes b → Spells b m → module_read (module_bytes m) ≡ Ok m }
{}

/// What is written, worked out by hand.
pub fn worked_bytes()
    ensures nothing { module_bytes empty_module ≡ header }
    ensures whole { module_bytes example ≡ bytes_of_example }
    ensures no_groups { groups_of [] ≡ [] }
    ensures joined { groups_of (I32 ∷ I32 ∷ I64 ∷ I32 ∷ []) ≡ group 2 I32 ∷ group 1 I64 ∷ group 1 I32 ∷ [] }
{}
