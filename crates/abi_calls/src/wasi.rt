// Any call of WASI, by its name.
ghost use Rattle.std.specs.Prelude.{◌≡◌, ◌≤◌, ◌<◌, length};
ghost use Rattle.abi_types.specs.GuestAt.{Keeps, StillWaits};
ghost use Rattle.contexts.specs.Reached.{seen};
ghost use Rattle.abi_model.specs.Calls.{RestsAfterCall};
ghost use Rattle.abi_model.specs.Table.{Are, wasi_row_of};
ghost use Rattle.abi_calls.specs.Hosting.{wasi_hosting, HostedEnds};

use abi_model::{HostEnd, WasiCall};
use abi_services::{
    wasi_args_get, wasi_args_sizes_get, wasi_clock_time_get, wasi_environ_get,
    wasi_environ_sizes_get, wasi_fd_write, wasi_random_get,
};
use abi_types::Guest;
use contexts::Contexts;
use gate_base::{Cause, VmNo};
use gate_io::SentList;
use std::alloc::Global;
use store_model::Shared;

/// Makes the call of a name of WASI. `now` is the event's moment; the exit is the trap of its name.
pub fn wasi_call<G: Guest, S: Shared>(
    alloc: Global,
    call: WasiCall,
    guest: &mut G,
    contexts: &mut Contexts,
    shared: &mut S,
    logs: &mut SentList,
    vm: VmNo,
    now: u64,
    args: &[u64],
) -> HostEnd
    requires rests { G.rests guest.old }
    requires vm { vm < length contexts.old.vms }
    requires stores { length contexts.old.vms ≤ S.stores shared.old }
    requires args { Are (wasi_row_of call) 0 args.now }
    ensures ends { HostedEnds S.performs shared.old (wasi_hosting call now vm args.now (G.at guest.old) (seen contexts.old vm)) vm contexts.old result (G.at guest.new) contexts.new logs.old logs.new shared.new }
    ensures rests { RestsAfterCall result (StillWaits (G.rests guest.new) (G.at guest.old) (G.at guest.new)) }
    ensures keeps { Keeps (G.at guest.old) (G.at guest.new) }
    ensures stores { S.stores shared.new ≡ S.stores shared.old }
{
    match call {
        WasiCall::FdWrite => wasi_fd_write(alloc, guest, contexts, vm, logs, args),
        WasiCall::ClockTimeGet => wasi_clock_time_get(alloc, guest, contexts, vm, now, args),
        WasiCall::RandomGet => wasi_random_get(alloc, guest, contexts, vm, args),
        WasiCall::EnvironGet => wasi_environ_get(alloc, guest, contexts, vm, args),
        WasiCall::ArgsGet => wasi_args_get(alloc, guest, contexts, vm, args),
        WasiCall::EnvironSizesGet => wasi_environ_sizes_get(alloc, guest, contexts, vm, args),
        WasiCall::ArgsSizesGet => wasi_args_sizes_get(alloc, guest, contexts, vm, args),
        WasiCall::ProcExit => HostEnd::Trapped { cause: Cause::Exit },
    }
}
