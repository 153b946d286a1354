//! What a module exports.

ghost use Rattle.std.specs.Prelude.{◌≡◌};
ghost use Rattle.wasm_invoke.specs.Exports.{exported, function_in};

use wasm_syntax::{Export, ExportKind};

/// The index of the function, where it is one.
fn function_in(kind: ExportKind) -> Option<u32>
    ensures { result ≡ function_in kind }
{
    match kind {
        ExportKind::Function(x) => Some(x),
        ExportKind::Table(_) => None,
        ExportKind::Memory(_) => None,
        ExportKind::Global(_) => None,
    }
}

/// The index of the function that is exported under a name.
pub(crate) fn exported(name: &str, exports: &[Export]) -> Option<u32>
    ensures { result ≡ exported name.now exports.now }
{
    for e in exports {
        if e.name.as_str() == name
            && let Some(x) = function_in(e.kind)
        {
            return Some(x);
        }
    }
    None
}
