// The names of causes, as lines of statuses write them.
ghost use Rattle.std.specs.Prelude.{◌≡◌};
ghost use Rattle.command_statuses.specs.Causes.{end_line, fault_name, fault_place, fit_name, link_name, refusal_name, refusal_place, row_name};

use crate::status::InvokeEnd;
use config_files::ModuleFault;
use gate_base::Cause;
use vm_host::FitEnd;
use wasm_invoke::Refusal;
use wasm_store::LinkEnd;

/// The name of a VM's refusal.
pub(crate) fn fault_name(fault: ModuleFault) -> &'static [u8]
    ensures { result.now ≡ fault_name fault }
{
    match fault {
        ModuleFault::Unread { number, .. } => row_name(number),
        ModuleFault::Invalid => b"Invalid",
        ModuleFault::Misfit { end } => fit_name(end),
    }
}

/// The place of a VM's refusal, where it has one.
pub(crate) fn fault_place(fault: ModuleFault) -> Option<usize>
    ensures { result ≡ fault_place fault }
{
    match fault {
        ModuleFault::Unread { place, .. } => Some(place),
        ModuleFault::Invalid | ModuleFault::Misfit { .. } => None,
    }
}

/// The name of a call's refusal.
pub(crate) fn refusal_name(refusal: Refusal) -> &'static [u8]
    ensures { result.now ≡ refusal_name refusal }
{
    match refusal {
        Refusal::Unread { number, .. } => row_name(number),
        Refusal::Invalid => b"Invalid",
        Refusal::Unlinked(end) => link_name(end),
        Refusal::NoExport => b"NoExport",
        Refusal::Arguments => b"Arguments",
    }
}

/// The place of a call's refusal, where it has one.
pub(crate) fn refusal_place(refusal: Refusal) -> Option<usize>
    ensures { result ≡ refusal_place refusal }
{
    match refusal {
        Refusal::Unread { place, .. } => Some(place),
        Refusal::Invalid | Refusal::Unlinked(_) | Refusal::NoExport | Refusal::Arguments => None,
    }
}

/// The name of the row of a reader's fault.
fn row_name(number: u8) -> &'static [u8]
    ensures { result.now ≡ row_name number }
{
    match number {
        1 => b"BadHeader",
        2 => b"Truncated",
        3 => b"BadInteger",
        4 => b"BadSection",
        5 => b"BadOpcode",
        6 => b"FloatOutOfProfile",
        7 => b"BadName",
        8 => b"SizeMismatch",
        _ => b"OverLimit",
    }
}

/// The name of what stands against a filter's module.
fn fit_name(end: FitEnd) -> &'static [u8]
    ensures { result.now ≡ fit_name end }
{
    match end {
        FitEnd::Unlinked(end) => link_name(end),
        FitEnd::NoAbi => b"NoAbi",
        FitEnd::CallbackType => b"CallbackType",
    }
}

/// The name of what stands against linking.
fn link_name(end: LinkEnd) -> &'static [u8]
    ensures { result.now ≡ link_name end }
{
    match end {
        LinkEnd::UnknownImport { .. } => b"UnknownImport",
        LinkEnd::ImportType { .. } => b"ImportType",
        LinkEnd::PagesOverCap => b"PagesOverCap",
        LinkEnd::ElementOutside { .. } => b"ElementOutside",
        LinkEnd::DataOutside { .. } => b"DataOutside",
        LinkEnd::OutOfMemory => b"OutOfMemory",
    }
}

/// The line of a call that gave no result.
pub(crate) fn end_line(end: InvokeEnd) -> &'static [u8]
    ensures { result.now ≡ end_line end }
{
    match end {
        InvokeEnd::Trap { cause } => match cause {
            Cause::Unreachable => b"wasmgate: invoke unreachable\n",
            Cause::Divide => b"wasmgate: invoke divide\n",
            Cause::Overflow => b"wasmgate: invoke overflow\n",
            Cause::Memory => b"wasmgate: invoke memory\n",
            Cause::Table => b"wasmgate: invoke table\n",
            Cause::Type => b"wasmgate: invoke type\n",
            Cause::Stack => b"wasmgate: invoke stack\n",
            Cause::Exit => b"wasmgate: invoke exit\n",
        },
        InvokeEnd::FuelSpent => b"wasmgate: invoke fuel\n",
    }
}
