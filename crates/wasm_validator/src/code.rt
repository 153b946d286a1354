//! The codes of a module.

ghost use Rattle.std.specs.Prelude.{◌≡◌, ◌<◌, IfOk, length};
ghost use Rattle.wasm_syntax.specs.declared.valid.Part.TheVariants as part;
ghost use Rattle.wasm_syntax.specs.Spelled.{IsSpelled};
ghost use Rattle.wasm_validator.specs.Codes.{FindsCode, AllGood};
ghost use Rattle.wasm_validator.specs.Scopes.{IsScope};

use crate::body::first_untyped;
use crate::names::Names;
use crate::scope::Scope;
use gate_base::OutOfMemory;
use std::alloc::Global;
use wasm_syntax::Module;

/// A place in a code.
#[derive(Clone, Copy)]
pub(crate) struct Fault {
    /// Which code.
    pub(crate) index: usize,
    /// Which instruction of it.
    pub(crate) place: usize,
}

/// The first code that is not valid, and its first instruction up to which it cannot be typed.
pub(crate) fn first_bad_code(
    alloc: Global,
    m: &Module,
    scope: &Scope,
) -> Result<Option<Fault>, OutOfMemory>
    requires spelled { IsSpelled m.now }
    requires scope { IsScope scope.now m.now }
    requires signatures { AllGood m.now part.Signature }
    requires functions { AllGood m.now part.Function }
    ensures { IfOk result (FindsCode m.now) }
{
    let mut index = 0;
    while index < m.codes.len() {
        let code = m.codes.get(index);
        let function = m.types.get(*m.functions.get(index) as usize);
        let names = Names {
            module: m,
            scope,
            function,
            locals: &code.locals,
        };
        if let Some(place) = first_untyped(alloc, names, code.body.as_slice())? {
            return Ok(Some(Fault { index, place }));
        }
        index += 1;
    }
    Ok(None)
}
