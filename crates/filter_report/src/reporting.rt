// The report of a module.
ghost use Rattle.std.specs.Prelude.{◌≡◌, ◌++◌, OnOk, OnErr};
ghost use Rattle.std.specs.List.{flat_map};
ghost use Rattle.wasm_syntax.specs.Validity.{functions_of};
ghost use Rattle.filter_report.specs.Report.{import_line, export_line, callback_line, has_marker, abi_line, report_of};

use crate::functions::function_types;
use crate::lines::{put_callback, put_export, put_import};
use gate_base::{Octets, OutOfMemory};
use std::alloc::Global;
use vm_host::{ROLES, Role, exported};
use wasm_syntax::{Module, ValidModule};

/// Puts the report of a module at the end: a line for each import and each export, a line for each callback in the order of their table, and the
/// interface for which it was made. After a refusal the text is as before.
pub fn report(alloc: Global, out: &mut Octets, m: &ValidModule) -> Result<(), OutOfMemory>
    ensures ok { OnOk result (out.new ≡ out.old ++ report_of m.now) }
    ensures err { OnErr result (out.new ≡ out.old) }
{
    let mut lines = Octets::new(alloc);
    put_report(alloc, &mut lines, m.module())?;
    out.extend_from_slice(lines.as_slice())
}

/// Puts all lines at the end.
fn put_report(alloc: Global, out: &mut Octets, m: &Module) -> Result<(), OutOfMemory>
    ensures { OnOk result (out.new ≡ out.old ++ report_of m.now) }
{
    put_imports(alloc, out, m)?;
    put_exports(alloc, out, m)?;
    put_callbacks(out, m, &ROLES)?;
    out.extend_from_slice(abi_line(m))
}

/// Puts the lines of the imports at the end.
fn put_imports(alloc: Global, out: &mut Octets, m: &Module) -> Result<(), OutOfMemory>
    ensures { OnOk result (out.new ≡ out.old ++ flat_map (import_line m.now) m.now.imports) }
{
    for i in m.imports.as_slice() {
        put_import(alloc, out, m, i)?;
    }
    Ok(())
}

/// Puts the lines of the exports at the end.
fn put_exports(alloc: Global, out: &mut Octets, m: &Module) -> Result<(), OutOfMemory>
    ensures { OnOk result (out.new ≡ out.old ++ flat_map (export_line m.now) m.now.exports) }
{
    let functions = function_types(alloc, m)?;
    put_each_export(alloc, out, m, functions.as_slice())
}

/// The same, with the indices of the types of all functions.
fn put_each_export(
    alloc: Global,
    out: &mut Octets,
    m: &Module,
    functions: &[u32],
) -> Result<(), OutOfMemory>
    requires { functions.now ≡ functions_of m.now }
    ensures { OnOk result (out.new ≡ out.old ++ flat_map (export_line m.now) m.now.exports) }
{
    for e in m.exports.as_slice() {
        put_export(alloc, out, m, functions, e)?;
    }
    Ok(())
}

/// Puts the lines of some roles at the end.
fn put_callbacks(out: &mut Octets, m: &Module, roles: &[Role]) -> Result<(), OutOfMemory>
    ensures { OnOk result (out.new ≡ out.old ++ flat_map (callback_line m.now) roles.now) }
{
    for role in roles {
        put_callback(out, m, *role)?;
    }
    Ok(())
}

/// Whether a function is exported under a name.
fn has_marker(name: &[u8], m: &Module) -> bool
    ensures { result ≡ has_marker name.now m.now }
{
    exported(name, m.exports.as_slice()).is_some()
}

/// The line of the interface.
fn abi_line(m: &Module) -> &'static [u8]
    ensures { result.now ≡ abi_line m.now }
{
    if has_marker(b"proxy_abi_version_0_2_1", m) {
        b"abi 0.2.1\n"
    } else if has_marker(b"proxy_abi_version_0_2_0", m) {
        b"abi 0.2.0\n"
    } else {
        b"abi none\n"
    }
}
