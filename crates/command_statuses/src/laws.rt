//! Lines of statuses that were written out by hand. The function has nothing to do: its contract is the law.

ghost use Rattle.std.specs.Prelude.{◌≡◌, [], codes};
ghost use Rattle.gate_base.specs.declared.cause.Cause.TheVariants as traps;
ghost use Rattle.wasm_store.specs.declared.instance.LinkEnd.TheVariants as linking;
ghost use Rattle.wasm_invoke.specs.declared.ends.Refusal.TheVariants as refusals;
ghost use Rattle.vm_host.specs.declared.fitting.FitEnd.TheVariants as fitting;
ghost use Rattle.config_files.specs.declared.modules.ModuleFault.TheVariants as faults;
ghost use Rattle.command_statuses.specs.declared.status.InvokeEnd.TheVariants as calls;
ghost use Rattle.command_statuses.specs.declared.status.Status.TheVariants as statuses;
ghost use Rattle.command_statuses.specs.Statuses.{status_line};

/// The lines of statuses: each without a number, and each name of a cause at least once.
pub fn worked_lines()
    ensures done { status_line statuses.Done ≡ [] }
    ensures configuration { status_line (statuses.Config 4 (codes "gateway.workers")) ≡ codes "wasmgate: config 4 gateway.workers\n" }
    ensures entry { status_line (statuses.Config 2 (codes "plugin.12.vm")) ≡ codes "wasmgate: config 2 plugin.12.vm\n" }
    ensures no_abi { status_line (statuses.Module (codes "m1") (faults.Misfit fitting.NoAbi)) ≡ codes "wasmgate: module m1 NoAbi\n" }
    ensures unlinked { status_line (statuses.Module (codes "a") (faults.Misfit (fitting.Unlinked (linking.ImportType 3)))) ≡ codes "wasmgate: module a ImportType\n" }
    ensures unread { status_line (statuses.Module (codes "m16") (faults.Unread 2 120)) ≡ codes "wasmgate: module m16 Truncated 120\n" }
    ensures called { status_line (statuses.Refused (refusals.Unread 9 0)) ≡ codes "wasmgate: module - OverLimit 0\n" }
    ensures no_export { status_line (statuses.Refused refusals.NoExport) ≡ codes "wasmgate: module - NoExport\n" }
    ensures script { status_line (statuses.Script 17) ≡ codes "wasmgate: script 17\n" }
    ensures bad_header { status_line (statuses.Module (codes "v") (faults.Unread 1 7)) ≡ codes "wasmgate: module v BadHeader 7\n" }
    ensures bad_integer { status_line (statuses.Module (codes "v") (faults.Unread 3 7)) ≡ codes "wasmgate: module v BadInteger 7\n" }
    ensures bad_section { status_line (statuses.Module (codes "v") (faults.Unread 4 7)) ≡ codes "wasmgate: module v BadSection 7\n" }
    ensures bad_opcode { status_line (statuses.Module (codes "v") (faults.Unread 5 7)) ≡ codes "wasmgate: module v BadOpcode 7\n" }
    ensures float { status_line (statuses.Module (codes "v") (faults.Unread 6 7)) ≡ codes "wasmgate: module v FloatOutOfProfile 7\n" }
    ensures bad_name { status_line (statuses.Module (codes "v") (faults.Unread 7 7)) ≡ codes "wasmgate: module v BadName 7\n" }
    ensures size { status_line (statuses.Module (codes "v") (faults.Unread 8 7)) ≡ codes "wasmgate: module v SizeMismatch 7\n" }
    ensures limit { status_line (statuses.Module (codes "v") (faults.Unread 9 7)) ≡ codes "wasmgate: module v OverLimit 7\n" }
    ensures invalid { status_line (statuses.Module (codes "v") faults.Invalid) ≡ codes "wasmgate: module v Invalid\n" }
    ensures unknown_import { status_line (statuses.Module (codes "v") (faults.Misfit (fitting.Unlinked (linking.UnknownImport 3)))) ≡ codes "wasmgate: module v UnknownImport\n" }
    ensures pages { status_line (statuses.Module (codes "v") (faults.Misfit (fitting.Unlinked linking.PagesOverCap))) ≡ codes "wasmgate: module v PagesOverCap\n" }
    ensures elements { status_line (statuses.Module (codes "v") (faults.Misfit (fitting.Unlinked (linking.ElementOutside 3)))) ≡ codes "wasmgate: module v ElementOutside\n" }
    ensures segments { status_line (statuses.Module (codes "v") (faults.Misfit (fitting.Unlinked (linking.DataOutside 3)))) ≡ codes "wasmgate: module v DataOutside\n" }
    ensures callback_type { status_line (statuses.Module (codes "v") (faults.Misfit fitting.CallbackType)) ≡ codes "wasmgate: module v CallbackType\n" }
    ensures call_invalid { status_line (statuses.Refused refusals.Invalid) ≡ codes "wasmgate: module - Invalid\n" }
    ensures call_unlinked { status_line (statuses.Refused (refusals.Unlinked (linking.UnknownImport 0))) ≡ codes "wasmgate: module - UnknownImport\n" }
    ensures arguments { status_line (statuses.Refused refusals.Arguments) ≡ codes "wasmgate: module - Arguments\n" }
    ensures file_failed { status_line statuses.FileFault ≡ codes "wasmgate: file\n" }
    ensures site_failed { status_line statuses.SiteFault ≡ codes "wasmgate: site\n" }
    ensures out_failed { status_line statuses.OutFault ≡ codes "wasmgate: out\n" }
    ensures no_memory { status_line statuses.OutOfMemory ≡ codes "wasmgate: memory\n" }
    ensures usage { status_line statuses.Usage ≡ codes "wasmgate: usage\n" }
    ensures trapped { status_line (statuses.Invoke (calls.Trap traps.Divide)) ≡ codes "wasmgate: invoke divide\n" }
    ensures unreachable { status_line (statuses.Invoke (calls.Trap traps.Unreachable)) ≡ codes "wasmgate: invoke unreachable\n" }
    ensures overflow { status_line (statuses.Invoke (calls.Trap traps.Overflow)) ≡ codes "wasmgate: invoke overflow\n" }
    ensures outside { status_line (statuses.Invoke (calls.Trap traps.Memory)) ≡ codes "wasmgate: invoke memory\n" }
    ensures no_element { status_line (statuses.Invoke (calls.Trap traps.Table)) ≡ codes "wasmgate: invoke table\n" }
    ensures other_type { status_line (statuses.Invoke (calls.Trap traps.Type)) ≡ codes "wasmgate: invoke type\n" }
    ensures stack { status_line (statuses.Invoke (calls.Trap traps.Stack)) ≡ codes "wasmgate: invoke stack\n" }
    ensures exited { status_line (statuses.Invoke (calls.Trap traps.Exit)) ≡ codes "wasmgate: invoke exit\n" }
    ensures fuel { status_line (statuses.Invoke calls.FuelSpent) ≡ codes "wasmgate: invoke fuel\n" }
{}
