//! The calls of a guest's host, and a run of the guest that makes them.

ghost use Rattle.std.specs.Prelude.{◌≡◌, ◌≤◌, ◌<◌, ℕ, List, length};
ghost use Rattle.wasm_syntax.specs.declared.types.Value.{Value as Values};
ghost use Rattle.wasm_syntax.specs.Reduction.{Program as Programs};
ghost use Rattle.wasm_machine.specs.Machines.{program_at, IsAsked, results_of, Takes};
ghost use Rattle.store_model.specs.Program.{Program as Trees};
ghost use Rattle.abi_types.specs.GuestAt.{GuestAt, StillWaits, Keeps};
ghost use Rattle.vm_host.specs.Calling.{Called, CallEnds, StillAfter, AnswerFits, calling_back, ReturnsAs, RestsAfterRun};
ghost use Rattle.vm_host.specs.Seeing.{guest_at, RestsAt, IsReady};
ghost use Rattle.vm_host.specs.HostStates.{HostState, host_state};

use crate::machine_guest::MachineGuest;
use abi_types::Guest;
use contexts::Contexts;
use gate_base::Cause;
use gate_io::SentList;
use std::alloc::Global;
use store_model::Shared;
use wasm_machine::Stop;
use wasm_syntax::Value;

/// How a host call ended.
#[derive(Clone, Copy)]
pub enum CallEnd {
    /// It gave its answer.
    Answered { value: Option<Value> },
    /// The guest's allocator trapped, or the call ends the guest.
    Trapped { cause: Cause },
    /// The guest's allocator spent the fuel.
    FuelSpent,
    /// There was no memory for it.
    OutOfMemory,
}

/// How a run of a guest's function ended.
#[derive(Clone, Copy)]
pub enum RunEnd {
    /// It returned its result.
    Returned { value: Option<Value> },
    /// It trapped, and the guest is used no more.
    Trapped { cause: Cause },
    /// It spent its fuel, and the guest is used no more.
    FuelSpent,
    /// There was no memory for a call of the host.
    OutOfMemory,
}

/// The calls that a host offers to the guest of one VM. A call may change the contexts and put lines after those of the
/// log.
pub trait Calls {
    /// The number of the VM.
    ghost place: { Self → ℕ };

    /// The program's imports are among the calls, with their types.
    ghost links: { Self → Programs → Type 0 };

    /// What each call does at a moment.
    ghost does: { Self → ℕ → HostState → ℕ → List Values → GuestAt → Trees (Called HostState) };

    /// Does the call of an import.
    fn call<G: Guest, S: Shared>(
        &self,
        alloc: Global,
        guest: &mut G,
        contexts: &mut Contexts,
        lines: &mut SentList,
        shared: &mut S,
        now: u64,
        import: u32,
        args: &[Value],
    ) -> CallEnd
        requires rests { G.rests guest.old }
        requires links { links self.now (G.at guest.old).program }
        requires asked { IsAsked (G.at guest.old).program import args.now }
        requires there { place self.now < length contexts.old.vms }
        requires stores { length contexts.old.vms ≤ S.stores shared.old }
        ensures ends { CallEnds S.performs shared.old (does self.now now (host_state contexts.old lines.old) import args.now (G.at guest.old)) result (G.at guest.new) (host_state contexts.new lines.new) shared.new }
        ensures still { StillAfter result (StillWaits (G.rests guest.new) (G.at guest.old) (G.at guest.new)) }
        ensures keeps { Keeps (G.at guest.old) (G.at guest.new) }
        ensures fits { AnswerFits result (results_of (G.at guest.old).program import) }
        ensures vms { StillAfter result (length contexts.new.vms ≡ length contexts.old.vms) }
        ensures stores { S.stores shared.new ≡ S.stores shared.old };
}

/// Runs a function of a guest, and answers what it asks. All runs of an allocator on the way spend of the same fuel, and
/// so does the function after a call of the host.
pub fn run<C: Calls, S: Shared>(
    alloc: Global,
    guest: &mut MachineGuest,
    calls: &C,
    contexts: &mut Contexts,
    lines: &mut SentList,
    shared: &mut S,
    now: u64,
    func: u32,
    args: &[Value],
) -> RunEnd
    requires rests { RestsAt guest.old }
    requires idle { length guest.old.machine.pending ≤ 200 }
    requires links { C.links calls.now (program_at guest.old.machine) }
    requires there { C.place calls.now < length contexts.old.vms }
    requires stores { length contexts.old.vms ≤ S.stores shared.old }
    requires takes { Takes (program_at guest.old.machine) func args.now }
    ensures run { ReturnsAs S.performs shared.old (calling_back (C.does calls.now now) func args.now (guest_at guest.old) (host_state contexts.old lines.old)) result (guest_at guest.new) (host_state contexts.new lines.new) shared.new }
    ensures ready { RestsAfterRun result (IsReady guest.old guest.new) }
    ensures vms { RestsAfterRun result (length contexts.new.vms ≡ length contexts.old.vms) }
    ensures stores { S.stores shared.new ≡ S.stores shared.old }
{
    guest.machine.invoke(func, args);
    loop {
        match guest.machine.run(&mut guest.fuel) {
            Stop::HostCall {
                import,
                args: given,
            } => {
                match calls.call(
                    alloc,
                    guest,
                    contexts,
                    lines,
                    shared,
                    now,
                    import,
                    given.as_slice(),
                ) {
                    CallEnd::Answered { value } => guest.machine.resume(value),
                    CallEnd::Trapped { cause } => return RunEnd::Trapped { cause },
                    CallEnd::FuelSpent => return RunEnd::FuelSpent,
                    CallEnd::OutOfMemory => return RunEnd::OutOfMemory,
                }
            }
            Stop::Finished { result } => return RunEnd::Returned { value: result },
            Stop::Trap { cause } => return RunEnd::Trapped { cause },
            Stop::FuelSpent => return RunEnd::FuelSpent,
        }
    }
}
