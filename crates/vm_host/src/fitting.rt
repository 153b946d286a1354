//! Whether a module is one of a filter.

ghost use Rattle.std.specs.Prelude.{◌≡◌, ◌++◌, Bool, IfSome, IfNone, slice_get};
ghost use Rattle.std.specs.Option.{option_copied, option_or};
ghost use Rattle.std.specs.List.{list_any};
ghost use Rattle.wasm_syntax.specs.Validity.{function_of as imported_function, imports_of, functions_of};
ghost use Rattle.abi_links.specs.Judging.{same_types};
ghost use Rattle.vm_host.specs.Roles.{role_named as named_of};
ghost use Rattle.vm_host.specs.Fits.{function_in as function_of_kind, exported as exported_in, type_in, results_for, role_results, fits_type as fits_type_of, fits_function as fits_function_of, misfits_role, unlinked as unlinked_of, is_misfit as is_misfit_of, is_marker as is_marker_of, no_marker as no_marker_in, a_misfit as a_misfit_in, fit_fault, fitting};

use crate::roles::{Role, gives_number, role_named, role_row};
use abi_links::{ProxyLinks, fits_row, is_nothing, is_number};
use wasm_store::{LinkEnd, link_fault};
use wasm_syntax::{
    Export, ExportKind, FunctionType, Import, ImportKind, Module, ValidModule, ValueType,
};

/// Why a module is none of a filter: the first of these that stands, in this order.
#[derive(Clone, Copy)]
pub enum FitEnd {
    /// It cannot be linked with the calls of the host.
    Unlinked(LinkEnd),
    /// It exports no function that says for which interface it was made.
    NoAbi,
    /// It exports something under a name of the table of exports that is no function of the type there.
    CallbackType,
}

/// The index of the function that is exported, where it is one.
fn function_in(kind: ExportKind) -> Option<u32>
    ensures { result ≡ function_of_kind kind }
{
    match kind {
        ExportKind::Function(x) => Some(x),
        ExportKind::Table(_) | ExportKind::Memory(_) | ExportKind::Global(_) => None,
    }
}

/// The function that a module exports under a name, where there is one.
pub fn exported(name: &[u8], exports: &[Export]) -> Option<u32>
    ensures { result ≡ exported_in name.now exports.now }
{
    for e in exports {
        if e.name.as_str().as_bytes() == name
            && let Some(x) = function_in(e.kind)
        {
            return Some(x);
        }
    }
    None
}

/// The type of a function that is imported, by its index.
fn imported_type(kind: ImportKind) -> Option<u32>
    ensures { result ≡ imported_function kind }
{
    match kind {
        ImportKind::Function(x) => Some(x),
        ImportKind::Table(_) | ImportKind::Memory(_) | ImportKind::Global(_) => None,
    }
}

/// The number at a place.
fn number_at(numbers: &[u32], at: usize) -> Option<u32>
    ensures { result ≡ slice_get numbers.now at }
{
    numbers.get(at).copied()
}

/// The type of the function of an index, by its own index: imports stand first.
fn type_index(imports: &[Import], own: &[u32], x: usize) -> Option<u32>
    ensures { result ≡ slice_get (imports_of imported_function imports.now ++ own.now) x }
{
    let mut left = x;
    for i in imports {
        if let Some(of) = imported_type(i.kind) {
            if left == 0 {
                return Some(of);
            }
            left -= 1;
        }
    }
    number_at(own, left)
}

/// The type of the function of an index.
#[tactic(auto, unfolding(crate::specs::Fits::type_in))]
fn type_of(m: &Module, x: u32) -> Option<&FunctionType>
    ensures { option_copied result ≡ type_in m.now x }
{
    match type_index(m.imports.as_slice(), m.functions.as_slice(), x as usize) {
        Some(k) => m.types.as_slice().get(k as usize),
        None => None,
    }
}

/// The types are a number, or nothing.
fn gives(types: &[ValueType], number: bool) -> bool
    ensures { result ≡ same_types types.now (results_for number) }
{
    if number {
        is_number(types)
    } else {
        is_nothing(types)
    }
}

/// Whether the function of an index is what the table wants.
fn fits_type(m: &Module, role: Role, x: u32) -> bool
    ensures { result ≡ fits_type_of role (type_in m.now x) }
{
    match type_of(m, x) {
        Some(t) => {
            fits_row(t.parameters.as_slice(), role_row(role))
                && gives(t.results.as_slice(), gives_number(role))
        }
        None => false,
    }
}

/// Whether a function is what the table wants.
pub fn fits_function(m: &Module, role: Role, function: Option<u32>) -> bool
    ensures { result ≡ fits_function_of m.now role function }
{
    match function {
        Some(x) => fits_type(m, role, x),
        None => false,
    }
}

/// Whether a function, or what is none, has a name of the table and not the type there.
fn misfits_name(m: &Module, function: Option<u32>, name: &[u8]) -> bool
    ensures { result ≡ misfits_role m.now function (named_of name.now) }
{
    match role_named(name) {
        Some(role) => !fits_function(m, role, function),
        None => false,
    }
}

/// Whether an export has a name of the table and is no function of the type there.
#[tactic(auto, unfolding(crate::specs::Fits::is_misfit))]
fn is_misfit(m: &Module, e: &Export) -> bool
    ensures { result ≡ is_misfit_of m.now e.now }
{
    misfits_name(m, function_in(e.kind), e.name.as_str().as_bytes())
}

/// Whether an export says for which interface its module was made.
#[tactic(auto, unfolding(crate::specs::Fits::is_marker))]
fn is_marker(e: &Export) -> bool
    ensures { result ≡ is_marker_of e.now }
{
    if function_in(e.kind).is_none() {
        return false;
    }
    let name = e.name.as_str().as_bytes();
    name == b"proxy_abi_version_0_2_1".as_slice() || name == b"proxy_abi_version_0_2_0".as_slice()
}

/// Whether an export does.
fn has_marker(exports: &[Export]) -> bool
    ensures { result ≡ list_any is_marker_of exports.now }
{
    exports.iter().any(|e| is_marker(e))
}

/// Whether an export is of another type.
fn has_misfit(m: &Module) -> bool
    ensures { result ≡ list_any (is_misfit_of m.now) m.now.exports }
{
    m.exports.as_slice().iter().any(|e| is_misfit(m, e))
}

/// That no export says for which interface the module was made.
#[tactic(auto, unfolding(crate::specs::Fits::no_marker))]
fn no_marker(m: &Module) -> Option<FitEnd>
    ensures { result ≡ no_marker_in m.now.exports }
{
    let is_marked = has_marker(m.exports.as_slice());
    if is_marked { None } else { Some(FitEnd::NoAbi) }
}

/// That an export is of another type.
#[tactic(auto, unfolding(crate::specs::Fits::a_misfit))]
fn a_misfit(m: &Module) -> Option<FitEnd>
    ensures { result ≡ a_misfit_in m.now }
{
    let is_bad = has_misfit(m);
    if is_bad {
        Some(FitEnd::CallbackType)
    } else {
        None
    }
}

/// That something stands against linking.
#[tactic(auto, unfolding(crate::specs::Fits::unlinked))]
fn unlinked(m: &Module, pages: u32) -> Option<FitEnd>
    ensures { result ≡ unlinked_of m.now pages }
{
    match link_fault(&ProxyLinks, m, pages) {
        Some(end) => Some(FitEnd::Unlinked(end)),
        None => None,
    }
}

/// The first of three.
fn first_of(a: Option<FitEnd>, b: Option<FitEnd>, c: Option<FitEnd>) -> Result<(), FitEnd>
    ensures { result ≡ fitting (option_or a (option_or b c)) }
{
    if let Some(end) = a {
        return Err(end);
    }
    if let Some(end) = b {
        return Err(end);
    }
    match c {
        Some(end) => Err(end),
        None => Ok(()),
    }
}

/// Whether a module is one of a filter, whose memory may have so many pages: each refusal comes exactly where it is the
/// first that stands. It takes no memory, so it is never want of it.
pub fn fits(m: &ValidModule, pages: u32) -> Result<(), FitEnd>
    ensures { result ≡ fitting (fit_fault m.now pages) }
{
    let module = m.module();
    first_of(unlinked(module, pages), no_marker(module), a_misfit(module))
}
