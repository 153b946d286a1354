//! What a body may name.

ghost use Rattle.std.specs.Prelude.{◌≡◌, ◌≤◌, IfSome, IfNone, Some, None, length, slice_get};
ghost use Rattle.wasm_syntax.specs.Typing.{left_by};
ghost use Rattle.wasm_syntax.specs.Validity.{IsSignature};
ghost use Rattle.wasm_validator.specs.Checking.{and_then};
ghost use Rattle.wasm_validator.specs.Scopes.{context_in};

use crate::scope::Scope;
use wasm_syntax::{BlockType, FunctionType, GlobalType, LocalList, Module, ValueType};

/// What a body may name.
#[derive(Clone, Copy)]
pub(crate) struct Names<'a> {
    pub(crate) module: &'a Module,
    pub(crate) scope: &'a Scope,
    /// The type of the function.
    pub(crate) function: &'a FunctionType,
    /// The types of its locals, parameters left out.
    pub(crate) locals: &'a LocalList,
}

impl Names<'_> {
    /// The type of a local.
    pub(crate) fn local(self, x: u32) -> Option<ValueType>
        ensures { result ≡ slice_get (context_in self.exit).locals x }
    {
        let x = x as usize;
        let parameters = self.function.parameters.as_slice();
        match parameters.get(x) {
            Some(t) => Some(*t),
            None => self.locals.get((x - parameters.len()) as u32),
        }
    }

    /// The type of a global.
    pub(crate) fn global(self, x: u32) -> Option<GlobalType>
        ensures { result ≡ slice_get (context_in self.exit).globals x }
    {
        self.scope.globals.as_slice().get(x as usize).copied()
    }

    /// A type.
    pub(crate) fn signature(&self, x: u32) -> Option<&FunctionType>
        ensures some { IfSome result (λ f. slice_get (context_in self.now).types x ≡ Some f.now) }
        ensures none { IfNone result (slice_get (context_in self.now).types x ≡ None) }
    {
        self.module.types.as_slice().get(x as usize)
    }

    /// The type of a function.
    pub(crate) fn callee(&self, x: u32) -> Option<&FunctionType>
        ensures some { IfSome result (λ f. and_then (slice_get (context_in self.now).functions x) (slice_get (context_in self.now).types) ≡ Some f.now) }
        ensures none { IfNone result (and_then (slice_get (context_in self.now).functions x) (slice_get (context_in self.now).types) ≡ None) }
    {
        let index = self.scope.functions.as_slice().get(x as usize)?;
        self.signature(*index)
    }
}

/// What a function gives.
pub(crate) fn result_of(f: &FunctionType) -> BlockType
    ensures { IsSignature f.now → left_by result ≡ f.now.results }
{
    match f.results.as_slice().first() {
        Some(t) => BlockType::Value(*t),
        None => BlockType::Empty,
    }
}
