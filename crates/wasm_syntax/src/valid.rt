//! Valid modules (WebAssembly Core 1.0 section 3.4).

ghost use Rattle.std.specs.Prelude.{◌≡◌};

use crate::module::Module;
use std::marker::Model;

/// A part of a module, in the order in which validation looks at them.
#[derive(Clone, Copy, Debug, PartialEq, Eq)]
pub enum Part {
    /// An entry of the types.
    Signature,
    Import,
    Function,
    Table,
    Memory,
    Global,
    Element,
    /// A data segment.
    Segment,
    Start,
    Export,
    Code,
}

/// A module that is valid. Clauses see the module.
#[derive(Drop)]
pub struct ValidModule {
    module: Module,
}

impl Model for ValidModule {
    ghost use Rattle.wasm_syntax.specs.declared.module.Module.{Module as Modules};
    ghost use Rattle.wasm_syntax.specs.Validity.{IsValid};

    ghost Value = { Modules };

    ghost view = { λ a. a.module };

    ghost invariant = { λ a. IsValid a.module };
}

impl ValidModule {
    ghost use Rattle.wasm_syntax.specs.Validity.{IsValid};

    /// The module, which is valid.
    pub fn hold(m: Module) -> ValidModule
        requires { IsValid m }
        ensures { result ≡ m }
    {
        ValidModule { module: m }
    }

    /// What it holds.
    pub fn module(&self) -> &Module
        ensures holds { result.now ≡ self.now }
        ensures valid { IsValid result.now }
    {
        &self.module
    }
}
