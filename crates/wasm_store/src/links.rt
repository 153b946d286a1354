//! What a host offers to be imported.

ghost use Rattle.std.specs.Prelude.{◌≡◌, ◌≤◌, ℕ, List, length};
ghost use Rattle.wasm_syntax.specs.declared.types.FunctionType.{FunctionType as FunctionTypes};
ghost use Rattle.wasm_store.specs.declared.links.Judged.{Judged as Judgements};
ghost use Rattle.wasm_store.specs.declared.links.Judged.TheVariants.{Linked};

use wasm_syntax::FunctionType;

/// What a host says of a function that a module wants to import.
#[derive(Clone, Copy, PartialEq, Eq)]
pub enum Judged {
    /// The host has it.
    Linked,
    /// The host has no function of that name.
    Unknown,
    /// The host has one of another type.
    OtherType,
}

/// The functions that a host offers. What it says is a function of the two names and the type, and it has
/// functions of at most 16 parameters.
pub trait Links {
    /// What it says of the name of a module, a name in it, and a type.
    ghost judged: { Self → List ℕ → List ℕ → FunctionTypes → Judgements };

    /// Whether it has the function `name` of the module `module` with this type.
    fn judge(&self, module: &[u8], name: &[u8], of: &FunctionType) -> Judged
        ensures { result ≡ judged self.now «module».now name.now of.now };

    /// No function that it has takes more than 16 values.
    ghost linked_is_short: { (l : Self) (home name : List ℕ) (t : FunctionTypes) → judged l home name t ≡ Linked → length t.parameters ≤ 16 };
}

/// A host that has nothing.
#[derive(Clone, Copy, PartialEq, Eq)]
pub struct NoLinks;

impl Links for NoLinks {
    ghost use Rattle.std.proofs.Common.{rules};
    ghost use Rattle.wasm_store.specs.declared.links.Judged.TheVariants.{Unknown};

    ghost judged = { λ _ _ _ _. Unknown };

    ghost linked_is_short = { Prim.search rules };

    fn judge(&self, _module: &[u8], _name: &[u8], _of: &FunctionType) -> Judged {
        Judged::Unknown
    }
}
