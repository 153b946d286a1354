// The types of functions by index.
ghost use Rattle.std.specs.Prelude.{◌≡◌, ◌++◌, [], IfOk, OnOk, slice_get};
ghost use Rattle.std.specs.List.{cons_option};
ghost use Rattle.std.specs.Option.{option_copied};
ghost use Rattle.wasm_syntax.specs.Validity.{function_of, functions_of, imports_of};
ghost use Rattle.vm_host.specs.Fits.{type_in};

use gate_base::{Members, OutOfMemory};
use std::alloc::Global;
use wasm_syntax::{FunctionType, Import, ImportKind, Indices, Module};

/// The indices of the types of all functions.
pub(crate) fn function_types(alloc: Global, m: &Module) -> Result<Indices, OutOfMemory>
    ensures { IfOk result (λ fs. fs ≡ functions_of m.now) }
{
    let mut all = imported_types(alloc, m.imports.as_slice())?;
    for f in m.functions.as_slice() {
        all.push(*f)?;
    }
    Ok(all)
}

/// The indices of the types of the imported functions.
fn imported_types(alloc: Global, imports: &[Import]) -> Result<Indices, OutOfMemory>
    ensures { IfOk result (λ fs. fs ≡ imports_of function_of imports.now) }
{
    let mut all = Members::new(alloc);
    for i in imports {
        push_type(&mut all, i.kind)?;
    }
    Ok(all)
}

/// Puts the index of the type of what is imported at the end, where it is a function.
fn push_type(all: &mut Indices, kind: ImportKind) -> Result<(), OutOfMemory>
    ensures { OnOk result (all.new ≡ all.old ++ cons_option (function_of kind) []) }
{
    match kind {
        ImportKind::Function(k) => all.push(k),
        ImportKind::Table(_) | ImportKind::Memory(_) | ImportKind::Global(_) => Ok(()),
    }
}

/// The type of the function of an index.
#[tactic(auto, unfolding(vm_host::specs::Fits::type_in))]
pub(crate) fn type_of<'a>(m: &'a Module, functions: &[u32], x: u32) -> Option<&'a FunctionType>
    requires { functions.now ≡ functions_of m.now }
    ensures { option_copied result ≡ type_in m.now x }
{
    match number_at(functions, x as usize) {
        Some(k) => m.types.as_slice().get(k as usize),
        None => None,
    }
}

/// The number at a place.
fn number_at(numbers: &[u32], at: usize) -> Option<u32>
    ensures { result ≡ slice_get numbers.now at }
{
    numbers.get(at).copied()
}
