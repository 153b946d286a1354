//! The calls that a filter makes of its host, each by what its import stands for.

ghost use Rattle.std.specs.Prelude.{◌≡◌, ◌≤◌, ◌<◌, [], ◌∷◌, length, map, Some, slice_get};
ghost use Rattle.wasm_syntax.specs.declared.types.Value.TheVariants.{I32};
ghost use Rattle.wasm_syntax.specs.declared.types.ValueType.TheVariants as type;
ghost use Rattle.wasm_flat.specs.Holds.{types_of};
ghost use Rattle.contexts.specs.Reached.{seen};
ghost use Rattle.abi_types.specs.GuestAt.{StillWaits, Keeps};
ghost use Rattle.abi_model.specs.Table.{row_of, wasi_row_of};
ghost use Rattle.abi_calls.specs.Hosting.{hosting, wasi_hosting};
ghost use Rattle.abi_links.specs.Judging.{types_in};
ghost use Rattle.abi_links.specs.Numbers.{number_of};
ghost use Rattle.vm_host.specs.Calling.{CallEnds, StillAfter, AnswerFits};
ghost use Rattle.vm_host.specs.HostStates.{host_state};
ghost use Rattle.vm_host.specs.Dispatching.{serve_calls, by_target, TakesAs, results_for};

use crate::calls::{CallEnd, Calls};
use abi_calls::{host_call, wasi_call};
use abi_links::{ImportTarget, numbers};
use abi_model::{HostCall, HostEnd, WasiCall};
use abi_types::Guest;
use contexts::Contexts;
use gate_base::{Cause, Members, VmNo};
use gate_io::SentList;
use std::alloc::Global;
use store_model::Shared;
use wasm_syntax::Value;

/// The host of one VM.
#[derive(Drop)]
pub struct Dispatcher {
    /// The number of the VM.
    pub place: VmNo,
    /// What each import of its module stands for.
    pub targets: Members<ImportTarget>,
}

/// A number is the answer.
fn answer(number: u32) -> CallEnd
    ensures { result ≡ CallEnd.Answered (Some (I32 number)) }
{
    CallEnd::Answered {
        value: Some(Value::I32(number)),
    }
}

/// Makes a call of the table of host calls, whose arguments are of its row's types.
fn proxy<G: Guest, S: Shared>(
    alloc: Global,
    call: HostCall,
    guest: &mut G,
    contexts: &mut Contexts,
    lines: &mut SentList,
    shared: &mut S,
    place: VmNo,
    now: u64,
    args: &[Value],
) -> CallEnd
    requires rests { G.rests guest.old }
    requires there { place < length contexts.old.vms }
    requires stores { length contexts.old.vms ≤ S.stores shared.old }
    requires typed { types_of args.now ≡ types_in (row_of call) }
    ensures ends { CallEnds S.performs shared.old (serve_calls place (host_state contexts.old lines.old) (hosting call now place (map number_of args.now) (G.at guest.old) (seen contexts.old place))) result (G.at guest.new) (host_state contexts.new lines.new) shared.new }
    ensures still { StillAfter result (StillWaits (G.rests guest.new) (G.at guest.old) (G.at guest.new)) }
    ensures keeps { Keeps (G.at guest.old) (G.at guest.new) }
    ensures fits { AnswerFits result (type.I32 ∷ []) }
    ensures vms { StillAfter result (length contexts.new.vms ≡ length contexts.old.vms) }
    ensures stores { S.stores shared.new ≡ S.stores shared.old }
{
    let Ok(given) = numbers(alloc, args) else {
        return CallEnd::OutOfMemory;
    };
    match host_call(
        alloc,
        call,
        guest,
        contexts,
        shared,
        lines,
        place,
        now,
        given.as_slice(),
    ) {
        HostEnd::Status { status } => CallEnd::Answered {
            value: Some(Value::I32(status)),
        },
        HostEnd::Trapped { cause } => CallEnd::Trapped { cause },
        HostEnd::FuelSpent => CallEnd::FuelSpent,
        HostEnd::OutOfMemory => CallEnd::OutOfMemory,
    }
}

/// Makes a call of the table of WASI, whose arguments are of its row's types.
fn wasi<G: Guest, S: Shared>(
    alloc: Global,
    call: WasiCall,
    guest: &mut G,
    contexts: &mut Contexts,
    lines: &mut SentList,
    shared: &mut S,
    place: VmNo,
    now: u64,
    args: &[Value],
) -> CallEnd
    requires rests { G.rests guest.old }
    requires there { place < length contexts.old.vms }
    requires stores { length contexts.old.vms ≤ S.stores shared.old }
    requires typed { types_of args.now ≡ types_in (wasi_row_of call) }
    ensures ends { CallEnds S.performs shared.old (serve_calls place (host_state contexts.old lines.old) (wasi_hosting call now place (map number_of args.now) (G.at guest.old) (seen contexts.old place))) result (G.at guest.new) (host_state contexts.new lines.new) shared.new }
    ensures still { StillAfter result (StillWaits (G.rests guest.new) (G.at guest.old) (G.at guest.new)) }
    ensures keeps { Keeps (G.at guest.old) (G.at guest.new) }
    ensures fits { AnswerFits result (type.I32 ∷ []) }
    ensures vms { StillAfter result (length contexts.new.vms ≡ length contexts.old.vms) }
    ensures stores { S.stores shared.new ≡ S.stores shared.old }
{
    let Ok(given) = numbers(alloc, args) else {
        return CallEnd::OutOfMemory;
    };
    match wasi_call(
        alloc,
        call,
        guest,
        contexts,
        shared,
        lines,
        place,
        now,
        given.as_slice(),
    ) {
        HostEnd::Status { status } => CallEnd::Answered {
            value: Some(Value::I32(status)),
        },
        HostEnd::Trapped { cause } => CallEnd::Trapped { cause },
        HostEnd::FuelSpent => CallEnd::FuelSpent,
        HostEnd::OutOfMemory => CallEnd::OutOfMemory,
    }
}

impl Dispatcher {
    /// What an import stands for.
    fn target(&self, import: u32) -> ImportTarget
        requires { import < length self.now.targets }
        ensures { slice_get self.now.targets import ≡ Some result }
    {
        *self.targets.get(import as usize)
    }

    /// Makes the call of a target.
    fn serve<G: Guest, S: Shared>(
        &self,
        alloc: Global,
        target: ImportTarget,
        guest: &mut G,
        contexts: &mut Contexts,
        lines: &mut SentList,
        shared: &mut S,
        now: u64,
        args: &[Value],
    ) -> CallEnd
        requires rests { G.rests guest.old }
        requires there { self.now.place < length contexts.old.vms }
        requires stores { length contexts.old.vms ≤ S.stores shared.old }
        requires typed { TakesAs target (types_of args.now) }
        ensures ends { CallEnds S.performs shared.old (by_target target self.now.place now (host_state contexts.old lines.old) args.now (G.at guest.old)) result (G.at guest.new) (host_state contexts.new lines.new) shared.new }
        ensures still { StillAfter result (StillWaits (G.rests guest.new) (G.at guest.old) (G.at guest.new)) }
        ensures keeps { Keeps (G.at guest.old) (G.at guest.new) }
        ensures fits { AnswerFits result (results_for target) }
        ensures vms { StillAfter result (length contexts.new.vms ≡ length contexts.old.vms) }
        ensures stores { S.stores shared.new ≡ S.stores shared.old }
    {
        match target {
            ImportTarget::Proxy(call) => {
                proxy(
                    alloc, call, guest, contexts, lines, shared, self.place, now, args,
                )
            }
            ImportTarget::OtherProxy => answer(12),
            ImportTarget::MemoryGrowth => CallEnd::Answered { value: None },
            ImportTarget::Wasi(WasiCall::ProcExit) => CallEnd::Trapped { cause: Cause::Exit },
            ImportTarget::Wasi(call) => {
                wasi(
                    alloc, call, guest, contexts, lines, shared, self.place, now, args,
                )
            }
            ImportTarget::OtherWasi => answer(52),
        }
    }
}

impl Calls for Dispatcher {
    ghost use Rattle.vm_host.specs.Dispatching.{dispatching, LinksTo};

    ghost place = { λ d. d.place };

    ghost links = { LinksTo };

    ghost does = { dispatching };

    fn call<G: Guest, S: Shared>(
        &self,
        alloc: Global,
        guest: &mut G,
        contexts: &mut Contexts,
        lines: &mut SentList,
        shared: &mut S,
        now: u64,
        import: u32,
        args: &[Value],
    ) -> CallEnd {
        let target = self.target(import);
        self.serve(alloc, target, guest, contexts, lines, shared, now, args)
    }
}
