// The calls on the log level, the clock, ticks and the effective context.
ghost use Rattle.std.specs.Prelude.{◌≡◌, ◌<◌, ◌^◌, length};
ghost use Rattle.abi_types.specs.GuestAt.{Keeps, StillWaits};
ghost use Rattle.contexts.specs.Reached.{seen, put};
ghost use Rattle.abi_model.specs.Calls.{does, told, Ends, RestsAfterCall, AreShort};
ghost use Rattle.abi_model.specs.Table.{Are, row_of};
ghost use Rattle.abi_model.specs.declared.table.HostCall.TheVariants as call;
ghost use Rattle.abi_services.specs.Local.{tick_of as tick_at, setting_effective, done_of, ticked, own_get_log_level, own_get_current_time, own_set_tick_period, own_set_effective_context, own_done};

use abi_model::{
    Gives, HostCall, HostEnd, LocalCall, Outcome, Param, Ranges, answer, call_row, given,
    local_call,
};
use abi_types::Guest;
use contexts::{Contexts, Tick};
use gate_base::{ContextId, OutOfMemory, VmNo};
use std::alloc::Global;

/// When a root is to be called next, and how often from then on; not at all where the period is 0.
fn tick_of(now: u64, milliseconds: u64) -> Option<Tick>
    requires { milliseconds < 2 ^ 32 }
    ensures { result ≡ tick_at now milliseconds }
{
    if milliseconds == 0 {
        return None;
    }
    let period = milliseconds * 1_000_000;
    Some(Tick {
        period,
        due: now.saturating_add(period),
    })
}

/// Sets the tick of the effective context's root.
fn set_tick(contexts: &mut Contexts, vm: VmNo, now: u64, milliseconds: u64) -> Outcome
    requires vm { vm < length contexts.old.vms }
    requires milliseconds { milliseconds < 2 ^ 32 }
    ensures made { result ≡ told (ticked now milliseconds (seen contexts.old vm).reach.root) }
    ensures short { AreShort result.gives }
    ensures changes { contexts.new ≡ put (ticked now milliseconds (seen contexts.old vm).reach.root).changes vm contexts.old }
{
    if contexts.root(vm).is_none() {
        return answer(2);
    }
    contexts.set_tick(vm, tick_of(now, milliseconds));
    answer(0)
}

/// Makes a context the effective one.
fn set_effective(contexts: &mut Contexts, vm: VmNo, id: u64) -> Outcome
    requires vm { vm < length contexts.old.vms }
    requires id { id < 2 ^ 32 }
    ensures made { result ≡ told (setting_effective id (seen contexts.old vm)) }
    ensures short { AreShort result.gives }
    ensures changes { contexts.new ≡ put (setting_effective id (seen contexts.old vm)).changes vm contexts.old }
{
    match contexts.set_effective(vm, ContextId::new(id as u32)) {
        Ok(()) => answer(0),
        Err(_) => answer(2),
    }
}

/// Lets the effective context wait no more.
fn end_waiting(contexts: &mut Contexts, vm: VmNo) -> Outcome
    requires { vm < length contexts.old.vms }
    ensures made { result ≡ told (done_of (seen contexts.old vm).common.effective (seen contexts.old vm)) }
    ensures short { AreShort result.gives }
    ensures changes { contexts.new ≡ put (done_of (seen contexts.old vm).common.effective (seen contexts.old vm)).changes vm contexts.old }
{
    let id = contexts.effective(vm);
    match contexts.done(vm, id) {
        Ok(()) => answer(0),
        Err(_) => answer(1),
    }
}

/// Gives the least level.
struct GetLogLevel;

impl LocalCall for GetLogLevel {
    ghost params = { λ _. row_of call.GetLogLevel };

    ghost own = { λ _. own_get_log_level };

    fn parameters(&self) -> &'static [Param] {
        call_row(HostCall::GetLogLevel)
    }

    fn make(
        &self,
        alloc: Global,
        contexts: &mut Contexts,
        vm: VmNo,
        args: &[u64],
        inputs: &Ranges,
    ) -> Result<Outcome, OutOfMemory> {
        Ok(given(Gives::Number {
            number: contexts.level_number() as u32,
        }))
    }
}

/// Gives the number of the least level that is logged.
pub fn proxy_get_log_level<G: Guest>(
    alloc: Global,
    guest: &mut G,
    contexts: &mut Contexts,
    vm: VmNo,
    args: &[u64],
) -> HostEnd
    requires rests { G.rests guest.old }
    requires vm { vm < length contexts.old.vms }
    requires args { Are (row_of call.GetLogLevel) 0 args.now }
    ensures ends { Ends (does 6 (row_of call.GetLogLevel) own_get_log_level args.now (G.at guest.old) (seen contexts.old vm)) vm contexts.old result (G.at guest.new) contexts.new }
    ensures rests { RestsAfterCall result (StillWaits (G.rests guest.new) (G.at guest.old) (G.at guest.new)) }
    ensures keeps { Keeps (G.at guest.old) (G.at guest.new) }
{
    local_call(alloc, &GetLogLevel, 6, guest, contexts, vm, args)
}

/// Gives the event's moment.
#[derive(Clone, Copy)]
struct GetCurrentTime {
    now: u64,
}

impl LocalCall for GetCurrentTime {
    ghost params = { λ _. row_of call.GetCurrentTimeNanoseconds };

    ghost own = { λ c. own_get_current_time c.now };

    fn parameters(&self) -> &'static [Param] {
        call_row(HostCall::GetCurrentTimeNanoseconds)
    }

    fn make(
        &self,
        alloc: Global,
        contexts: &mut Contexts,
        vm: VmNo,
        args: &[u64],
        inputs: &Ranges,
    ) -> Result<Outcome, OutOfMemory> {
        Ok(given(Gives::Wide { number: self.now }))
    }
}

/// Gives the event's moment in nanoseconds since 1970-01-01 00:00:00 UTC, as a number of eight bytes.
pub fn proxy_get_current_time_nanoseconds<G: Guest>(
    alloc: Global,
    guest: &mut G,
    contexts: &mut Contexts,
    vm: VmNo,
    now: u64,
    args: &[u64],
) -> HostEnd
    requires rests { G.rests guest.old }
    requires vm { vm < length contexts.old.vms }
    requires args { Are (row_of call.GetCurrentTimeNanoseconds) 0 args.now }
    ensures ends { Ends (does 6 (row_of call.GetCurrentTimeNanoseconds) (own_get_current_time now) args.now (G.at guest.old) (seen contexts.old vm)) vm contexts.old result (G.at guest.new) contexts.new }
    ensures rests { RestsAfterCall result (StillWaits (G.rests guest.new) (G.at guest.old) (G.at guest.new)) }
    ensures keeps { Keeps (G.at guest.old) (G.at guest.new) }
{
    local_call(alloc, &GetCurrentTime { now }, 6, guest, contexts, vm, args)
}

/// Sets a tick.
#[derive(Clone, Copy)]
struct SetTickPeriod {
    now: u64,
}

impl LocalCall for SetTickPeriod {
    ghost params = { λ _. row_of call.SetTickPeriodMilliseconds };

    ghost own = { λ c. own_set_tick_period c.now };

    fn parameters(&self) -> &'static [Param] {
        call_row(HostCall::SetTickPeriodMilliseconds)
    }

    fn make(
        &self,
        alloc: Global,
        contexts: &mut Contexts,
        vm: VmNo,
        args: &[u64],
        inputs: &Ranges,
    ) -> Result<Outcome, OutOfMemory> {
        Ok(set_tick(contexts, vm, self.now, args[0]))
    }
}

/// Has the effective context's root called after the period and then each period; a period of 0 stops it. 2: there is no effective
/// context.
pub fn proxy_set_tick_period_milliseconds<G: Guest>(
    alloc: Global,
    guest: &mut G,
    contexts: &mut Contexts,
    vm: VmNo,
    now: u64,
    args: &[u64],
) -> HostEnd
    requires rests { G.rests guest.old }
    requires vm { vm < length contexts.old.vms }
    requires args { Are (row_of call.SetTickPeriodMilliseconds) 0 args.now }
    ensures ends { Ends (does 6 (row_of call.SetTickPeriodMilliseconds) (own_set_tick_period now) args.now (G.at guest.old) (seen contexts.old vm)) vm contexts.old result (G.at guest.new) contexts.new }
    ensures rests { RestsAfterCall result (StillWaits (G.rests guest.new) (G.at guest.old) (G.at guest.new)) }
    ensures keeps { Keeps (G.at guest.old) (G.at guest.new) }
{
    local_call(alloc, &SetTickPeriod { now }, 6, guest, contexts, vm, args)
}

/// Makes a context effective.
struct SetEffectiveContext;

impl LocalCall for SetEffectiveContext {
    ghost params = { λ _. row_of call.SetEffectiveContext };

    ghost own = { λ _. own_set_effective_context };

    fn parameters(&self) -> &'static [Param] {
        call_row(HostCall::SetEffectiveContext)
    }

    fn make(
        &self,
        alloc: Global,
        contexts: &mut Contexts,
        vm: VmNo,
        args: &[u64],
        inputs: &Ranges,
    ) -> Result<Outcome, OutOfMemory> {
        Ok(set_effective(contexts, vm, args[0]))
    }
}

/// Makes a context of this VM the effective one. 2: there is no such context, and the effective one stays.
pub fn proxy_set_effective_context<G: Guest>(
    alloc: Global,
    guest: &mut G,
    contexts: &mut Contexts,
    vm: VmNo,
    args: &[u64],
) -> HostEnd
    requires rests { G.rests guest.old }
    requires vm { vm < length contexts.old.vms }
    requires args { Are (row_of call.SetEffectiveContext) 0 args.now }
    ensures ends { Ends (does 6 (row_of call.SetEffectiveContext) own_set_effective_context args.now (G.at guest.old) (seen contexts.old vm)) vm contexts.old result (G.at guest.new) contexts.new }
    ensures rests { RestsAfterCall result (StillWaits (G.rests guest.new) (G.at guest.old) (G.at guest.new)) }
    ensures keeps { Keeps (G.at guest.old) (G.at guest.new) }
{
    local_call(alloc, &SetEffectiveContext, 6, guest, contexts, vm, args)
}

/// Ends a wait.
struct Done;

impl LocalCall for Done {
    ghost params = { λ _. row_of call.Done };

    ghost own = { λ _. own_done };

    fn parameters(&self) -> &'static [Param] {
        call_row(HostCall::Done)
    }

    fn make(
        &self,
        alloc: Global,
        contexts: &mut Contexts,
        vm: VmNo,
        args: &[u64],
        inputs: &Ranges,
    ) -> Result<Outcome, OutOfMemory> {
        Ok(end_waiting(contexts, vm))
    }
}

/// Lets the effective context wait no more for this call. 1: it does not wait.
pub fn proxy_done<G: Guest>(
    alloc: Global,
    guest: &mut G,
    contexts: &mut Contexts,
    vm: VmNo,
    args: &[u64],
) -> HostEnd
    requires rests { G.rests guest.old }
    requires vm { vm < length contexts.old.vms }
    requires args { Are (row_of call.Done) 0 args.now }
    ensures ends { Ends (does 6 (row_of call.Done) own_done args.now (G.at guest.old) (seen contexts.old vm)) vm contexts.old result (G.at guest.new) contexts.new }
    ensures rests { RestsAfterCall result (StillWaits (G.rests guest.new) (G.at guest.old) (G.at guest.new)) }
    ensures keeps { Keeps (G.at guest.old) (G.at guest.new) }
{
    local_call(alloc, &Done, 6, guest, contexts, vm, args)
}
