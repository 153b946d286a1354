//! What the host says of an import.

ghost use Rattle.std.specs.Prelude.{◌≡◌, ◌∷◌, []};
ghost use Rattle.wasm_syntax.specs.declared.types.ValueType.TheVariants.{I32};
ghost use Rattle.abi_links.specs.Judging.{types_in, same_type, same_types, has_type, wasi_results, is_lenient as is_lenient_of, fits_target as fits_of, misfit as misfit_of};

use crate::target::{ImportTarget, target_named};
use abi_model::{Param, WasiCall, call_row, wasi_call_row};
use wasm_store::{Judged, Links};
use wasm_syntax::{FunctionType, ValueType};

/// Two types are the same.
fn is_same(t: ValueType, u: ValueType) -> bool
    ensures { result ≡ same_type t u }
{
    match (t, u) {
        (ValueType::I32, ValueType::I32) => true,
        (ValueType::I64, ValueType::I64) => true,
        _ => false,
    }
}

/// There is no type.
pub fn is_nothing(types: &[ValueType]) -> bool
    ensures { result ≡ same_types types.now [] }
{
    match types.split_first() {
        None => true,
        Some(_) => false,
    }
}

/// The types are one number of 32 bits.
pub fn is_number(types: &[ValueType]) -> bool
    ensures { result ≡ same_types types.now (I32 ∷ []) }
{
    match types.split_first() {
        Some((t, rest)) => is_same(*t, ValueType::I32) && is_nothing(rest),
        None => false,
    }
}

/// Types are those of the parameters of a row.
pub fn fits_row(types: &[ValueType], row: &[Param]) -> bool
    ensures { result ≡ same_types types.now (types_in row.now) }
{
    let Some((first, rest)) = row.split_first() else {
        return is_nothing(types);
    };
    let Some((t, more)) = types.split_first() else {
        return false;
    };
    match first {
        Param::Wide => is_same(*t, ValueType::I64) && fits_row(more, rest),
        Param::Number | Param::Result | Param::WideResult => {
            is_same(*t, ValueType::I32) && fits_row(more, rest)
        }
        Param::Input | Param::Output => match more.split_first() {
            Some((u, further)) => {
                is_same(*t, ValueType::I32)
                    && is_same(*u, ValueType::I32)
                    && fits_row(further, rest)
            }
            None => false,
        },
    }
}

/// The types are those of what a call of WASI gives.
fn fits_results(types: &[ValueType], call: WasiCall) -> bool
    ensures { result ≡ same_types types.now (wasi_results call) }
{
    match call {
        WasiCall::ProcExit => is_nothing(types),
        _ => is_number(types),
    }
}

/// It takes at most 16 values, and gives a number.
fn is_lenient(of: &FunctionType) -> bool
    ensures { result ≡ is_lenient_of of.now }
{
    of.parameters.len() <= 16 && is_number(of.results.as_slice())
}

/// Whether a target is of a type.
fn fits_target(target: ImportTarget, of: &FunctionType) -> bool
    ensures { result ≡ fits_of target of.now }
{
    let takes = of.parameters.as_slice();
    let gives = of.results.as_slice();
    match target {
        ImportTarget::Proxy(call) => fits_row(takes, call_row(call)) && is_number(gives),
        ImportTarget::OtherProxy | ImportTarget::OtherWasi => is_lenient(of),
        ImportTarget::MemoryGrowth => is_number(takes) && is_nothing(gives),
        ImportTarget::Wasi(call) => fits_row(takes, wasi_call_row(call))
            && fits_results(gives, call),
    }
}

/// What is said of a target that is of another type.
fn misfit(target: ImportTarget) -> Judged
    ensures { result ≡ misfit_of target }
{
    match target {
        ImportTarget::Proxy(_) | ImportTarget::Wasi(_) => Judged::OtherType,
        ImportTarget::OtherProxy | ImportTarget::MemoryGrowth | ImportTarget::OtherWasi =>
            Judged::Unknown,
    }
}

/// The host of filters: it has the calls of the tables with their types. Any other call of `env` whose name begins with
/// `proxy_`, and any other of a WASI module, is linked where it takes at most 16 values and gives a number.
#[derive(Clone, Copy)]
pub struct ProxyLinks;

impl Links for ProxyLinks {
    ghost use Rattle.abi_links.specs.Judging.{judged_of};
    ghost use Rattle.abi_links.specs.Short.{linked_is_short};

    ghost judged = { λ _ home name t. judged_of home name t };

    ghost linked_is_short = { λ _ home name t is. linked_is_short home name t is };

    fn judge(&self, module: &[u8], name: &[u8], of: &FunctionType) -> Judged {
        match target_named(module, name) {
            None => Judged::Unknown,
            Some(found) => {
                if fits_target(found, of) {
                    Judged::Linked
                } else {
                    misfit(found)
                }
            }
        }
    }
}
