// The lines of a report.
ghost use Rattle.std.specs.Prelude.{◌≡◌, ◌++◌, ◌∷◌, [], OnOk, map};
ghost use Rattle.wasm_syntax.specs.Validity.{functions_of};
ghost use Rattle.hex.specs.Hex.{encode_lower};
ghost use Rattle.std.specs.Option.{option_copied};
ghost use Rattle.filter_report.specs.Report.{hex_name, letter, letters, typed_func, func_kind, import_kind, export_kind, import_line, export_line, has_callback, callback_line};

use crate::functions::type_of;
use gate_base::{Octets, OutOfMemory};
use std::alloc::Global;
use vm_host::{Role, exported, fits_function, role_name};
use wasm_syntax::{Export, ExportKind, FunctionType, Import, ImportKind, Module, ValueType};

/// Puts the line of an import at the end.
pub(crate) fn put_import(
    alloc: Global,
    out: &mut Octets,
    m: &Module,
    i: &Import,
) -> Result<(), OutOfMemory>
    ensures { OnOk result (out.new ≡ out.old ++ import_line m.now i.now) }
{
    out.extend_from_slice(b"import ")?;
    put_hex(alloc, out, i.module.as_str().as_bytes())?;
    out.push(b' ')?;
    put_import_name(alloc, out, m, i)
}

/// Puts the rest of that line at the end: the name, and what is imported.
fn put_import_name(
    alloc: Global,
    out: &mut Octets,
    m: &Module,
    i: &Import,
) -> Result<(), OutOfMemory>
    ensures { OnOk result (out.new ≡ out.old ++ (hex_name i.now.name ++ (32 ∷ (import_kind m.now i.now.kind ++ 10 ∷ [])))) }
{
    put_hex(alloc, out, i.name.as_str().as_bytes())?;
    out.push(b' ')?;
    put_import_kind(out, m, i.kind)?;
    out.push(b'\n')
}

/// Puts the line of an export at the end.
pub(crate) fn put_export(
    alloc: Global,
    out: &mut Octets,
    m: &Module,
    functions: &[u32],
    e: &Export,
) -> Result<(), OutOfMemory>
    requires { functions.now ≡ functions_of m.now }
    ensures { OnOk result (out.new ≡ out.old ++ export_line m.now e.now) }
{
    out.extend_from_slice(b"export ")?;
    put_hex(alloc, out, e.name.as_str().as_bytes())?;
    out.push(b' ')?;
    put_export_end(out, m, functions, e.kind)
}

/// Puts the rest of that line at the end: what is exported.
fn put_export_end(
    out: &mut Octets,
    m: &Module,
    functions: &[u32],
    kind: ExportKind,
) -> Result<(), OutOfMemory>
    requires { functions.now ≡ functions_of m.now }
    ensures { OnOk result (out.new ≡ out.old ++ (export_kind m.now kind ++ 10 ∷ [])) }
{
    put_export_kind(out, m, functions, kind)?;
    out.push(b'\n')
}

/// Whether the module exports the callback of a role.
fn has_callback(m: &Module, role: Role) -> bool
    ensures { result ≡ has_callback m.now role }
{
    fits_function(m, role, exported(role_name(role), m.exports.as_slice()))
}

/// Puts the line of a role at the end, where the module exports its callback.
pub(crate) fn put_callback(out: &mut Octets, m: &Module, role: Role) -> Result<(), OutOfMemory>
    ensures { OnOk result (out.new ≡ out.old ++ callback_line m.now role) }
{
    if !has_callback(m, role) {
        return Ok(());
    }
    out.extend_from_slice(b"callback ")?;
    out.extend_from_slice(role_name(role))?;
    out.push(b'\n')
}

/// Puts a name in hexadecimal at the end, or `-` where it is empty.
fn put_hex(alloc: Global, out: &mut Octets, name: &[u8]) -> Result<(), OutOfMemory>
    ensures { OnOk result (out.new ≡ out.old ++ hex_name name.now) }
{
    match name {
        [] => out.push(b'-'),
        [_, ..] => put_digits(alloc, out, name),
    }
}

/// Puts the digits of bytes at the end.
fn put_digits(alloc: Global, out: &mut Octets, bytes: &[u8]) -> Result<(), OutOfMemory>
    ensures { OnOk result (out.new ≡ out.old ++ encode_lower bytes.now) }
{
    let digits = hex::encode(alloc, bytes)?;
    out.extend_from_slice(digits.as_bytes())
}

/// Puts what is imported at the end.
fn put_import_kind(out: &mut Octets, m: &Module, kind: ImportKind) -> Result<(), OutOfMemory>
    ensures { OnOk result (out.new ≡ out.old ++ import_kind m.now kind) }
{
    match kind {
        ImportKind::Function(k) => put_func(out, m.types.as_slice().get(k as usize)),
        ImportKind::Table(_) => out.extend_from_slice(b"table"),
        ImportKind::Memory(_) => out.extend_from_slice(b"memory"),
        ImportKind::Global(_) => out.extend_from_slice(b"global"),
    }
}

/// Puts what is exported at the end.
fn put_export_kind(
    out: &mut Octets,
    m: &Module,
    functions: &[u32],
    kind: ExportKind,
) -> Result<(), OutOfMemory>
    requires { functions.now ≡ functions_of m.now }
    ensures { OnOk result (out.new ≡ out.old ++ export_kind m.now kind) }
{
    match kind {
        ExportKind::Function(x) => put_func(out, type_of(m, functions, x)),
        ExportKind::Table(_) => out.extend_from_slice(b"table"),
        ExportKind::Memory(_) => out.extend_from_slice(b"memory"),
        ExportKind::Global(_) => out.extend_from_slice(b"global"),
    }
}

/// Puts a function with its type at the end.
fn put_func(out: &mut Octets, of: Option<&FunctionType>) -> Result<(), OutOfMemory>
    ensures { OnOk result (out.new ≡ out.old ++ func_kind (option_copied of.entry)) }
{
    match of {
        Some(t) => put_typed(out, t),
        None => out.extend_from_slice(b"func"),
    }
}

/// Puts a function with the letters of its type at the end.
fn put_typed(out: &mut Octets, t: &FunctionType) -> Result<(), OutOfMemory>
    ensures { OnOk result (out.new ≡ out.old ++ typed_func t.now) }
{
    out.extend_from_slice(b"func ")?;
    put_letters(out, t.parameters.as_slice())?;
    out.push(b' ')?;
    put_letters(out, t.results.as_slice())
}

/// The letter of a type.
fn letter(t: ValueType) -> u8
    ensures { result ≡ letter t }
{
    match t {
        ValueType::I32 => b'i',
        ValueType::I64 => b'I',
    }
}

/// Puts the letters of types at the end, or `-` where there are none.
fn put_letters(out: &mut Octets, types: &[ValueType]) -> Result<(), OutOfMemory>
    ensures { OnOk result (out.new ≡ out.old ++ letters types.now) }
{
    match types {
        [] => out.push(b'-'),
        [_, ..] => put_each(out, types),
    }
}

/// Puts the letter of each type at the end.
fn put_each(out: &mut Octets, types: &[ValueType]) -> Result<(), OutOfMemory>
    ensures { OnOk result (out.new ≡ out.old ++ map letter types.now) }
{
    for t in types {
        out.push(letter(*t))?;
    }
    Ok(())
}
