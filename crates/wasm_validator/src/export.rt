//! The exports of a module.

ghost use Rattle.std.specs.Prelude.{◌≡◌, IfOk};
ghost use Rattle.wasm_syntax.specs.declared.valid.Part.TheVariants as part;
ghost use Rattle.wasm_validator.specs.Parts.{Finds};
ghost use Rattle.wasm_validator.specs.Scopes.{IsScope};

use crate::entries::is_exported;
use crate::scope::Scope;
use crate::seen::Seen;
use gate_base::OutOfMemory;
use std::alloc::Global;
use wasm_syntax::Module;

/// The first export of what is not there, or under a name that an earlier one has.
pub(crate) fn first_bad_export(
    alloc: Global,
    m: &Module,
    scope: &Scope,
) -> Result<Option<usize>, OutOfMemory>
    requires { IsScope scope.now m.now }
    ensures { IfOk result (Finds m.now part.Export) }
{
    let mut seen = Seen::new(alloc);
    let mut n = 0;
    while n < m.exports.len() {
        let e = m.exports.get(n);
        if !is_exported(m, scope, e.kind) {
            return Ok(Some(n));
        }
        if !seen.add(alloc, e.name.as_str())? {
            return Ok(Some(n));
        }
        n += 1;
    }
    Ok(None)
}
