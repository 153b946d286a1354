//! A law of the bounds. The function has nothing to do: its contract is the law.

ghost use Rattle.std.specs.Prelude.{ℕ, List};
ghost use Rattle.wasm_syntax.specs.declared.module.Module.{Module as Modules};
ghost use Rattle.wasm_syntax.specs.Grammar.{Spells};
ghost use Rattle.wasm_syntax.specs.Spelled.{IsSpelled};

/// Every module that bytes spell keeps the bounds of the profile.
pub fn spelled_modules_keep_bounds()
    ensures { (b : List ℕ) (m : Modules) → Spells b m → IsSpelled m }
{}
