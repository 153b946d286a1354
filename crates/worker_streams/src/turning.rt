// All is done until everything is at rest.
ghost use Rattle.std.specs.Prelude.{◌≡◌, ◌≤◌, Some, OnOk, IfOk, true};
ghost use Rattle.filter_host.specs.Course.{Ends};
ghost use Rattle.streams_model.specs.Callbacks.{made_with};
ghost use Rattle.worker_model.specs.Plan.{plan_of};
ghost use Rattle.worker_model.specs.Settling.{is_rest};
ghost use Rattle.worker_model.specs.Steps.{both, number_of, vm_length, plugin_length};
ghost use Rattle.streams_model.specs.Opening.{create_context, create_root};
ghost use Rattle.streams_model.specs.Rooms.{next_of, take_callback_end};
ghost use Rattle.streams_model.specs.Settling.{settling};
ghost use Rattle.streams_model.specs.Steps.{moved, move_at, works_tcp, works_other, run_silent_job, works_life, works, step};
ghost use Rattle.streams_model.specs.Turn.{as_streams, settles};

use crate::asking::{act_on, ask_at, name_of};
use crate::effects::Streams;
use crate::ending::{end_at, happen};
use crate::opening::{close_down, make_context, make_root};
use crate::rooms::{enter, next};
use contexts::Contexts;
use filter_host::{Callback, Death, Host};
use gate_base::{ContextId, LineNo, OutOfMemory, VmNo};
use std::alloc::{AllocError, Global};
use store_model::Shared;
use worker_callbacks::{
    call_back, delete, finish, start, take_notice, tell, tell_made, tell_ready, tick, work_call,
};
use worker_model::{Asked, Job, Next, OtherStep, Owner, Rules, TcpStep};
use worker_room::Room;

/// A flag, as a callback is given it.
fn number_of(end: bool) -> u32
    ensures { result ≡ number_of end }
{
    if end { 1 } else { 0 }
}

/// How many bytes the configuration of a VM has.
fn vm_length(h: &Contexts, vm: VmNo) -> u32
    ensures { result ≡ vm_length vm h.now }
{
    match h.vms.as_slice().get(vm.get() as usize) {
        None => 0,
        Some(v) => v.configuration.as_slice().len() as u32,
    }
}

/// How many bytes the configuration of a plug-in has.
fn plugin_length(h: &Contexts, plugin: usize) -> u32
    ensures { result ≡ plugin_length plugin h.now }
{
    match h.plugins.as_slice().get(plugin) {
        None => 0,
        Some(p) => p.configuration.as_slice().len() as u32,
    }
}

/// A stage is asked.
fn ask<H: Host, S: Shared>(
    alloc: Global,
    host: &mut H,
    room: &mut Room,
    a: Asked,
    shared: &mut S,
) -> Result<(), OutOfMemory>
    requires stores { H.needs host.old ≤ S.stores shared.old }
    ensures needs { H.needs host.new ≡ H.needs host.old }
    ensures stores { S.stores shared.new ≡ S.stores shared.old }
    ensures run { Ends S.performs shared.old (moved H.calling (Some a) host.old room.old) (λ _. both host.new room.new) result shared.new }
{
    let own = Owner::Stage {
        context: a.context,
        response: a.response,
    };
    let name = name_of(a.response, a.ask.kind);
    let end = number_of(a.ask.end);
    let value = call_back::<Streams, H, S>(
        alloc, host, room, a.vm, name, a.context, a.count, end, own, shared,
    )?;
    act_on(alloc, room, a, value)
}

/// A move.
fn one_move<H: Host, S: Shared>(
    alloc: Global,
    host: &mut H,
    room: &mut Room,
    place: usize,
    shared: &mut S,
) -> Result<(), OutOfMemory>
    requires stores { H.needs host.old ≤ S.stores shared.old }
    ensures needs { H.needs host.new ≡ H.needs host.old }
    ensures stores { S.stores shared.new ≡ S.stores shared.old }
    ensures run { Ends S.performs shared.old (move_at H.calling place host.old room.old) (λ _. both host.new room.new) result shared.new }
{
    match ask_at(alloc, &mut room.tcp, &mut room.hub, place)? {
        None => Ok(()),
        Some(a) => ask(alloc, host, room, a, shared),
    }
}

/// The root of a plug-in is made.
fn root<H: Host, S: Shared>(
    alloc: Global,
    host: &mut H,
    room: &mut Room,
    vm: VmNo,
    plugin: usize,
    first: bool,
    shared: &mut S,
) -> Result<(), OutOfMemory>
    requires stores { H.needs host.old ≤ S.stores shared.old }
    ensures needs { H.needs host.new ≡ H.needs host.old }
    ensures stores { S.stores shared.new ≡ S.stores shared.old }
    ensures run { Ends S.performs shared.old (made_with take_callback_end H.calling host.old (create_root vm plugin first room.old)) (λ _. both host.new room.new) result shared.new }
{
    let made = make_root(alloc, room, vm, plugin, first)?;
    tell_made::<Streams, H, S>(alloc, host, room, made, shared)
}

/// The context of a filter is made.
fn create<H: Host, S: Shared>(
    alloc: Global,
    host: &mut H,
    room: &mut Room,
    line: LineNo,
    at: usize,
    shared: &mut S,
) -> Result<(), OutOfMemory>
    requires stores { H.needs host.old ≤ S.stores shared.old }
    ensures needs { H.needs host.new ≡ H.needs host.old }
    ensures stores { S.stores shared.new ≡ S.stores shared.old }
    ensures run { Ends S.performs shared.old (made_with take_callback_end H.calling host.old (create_context line at room.old)) (λ _. both host.new room.new) result shared.new }
{
    let made = make_context(alloc, room, line, at)?;
    tell_made::<Streams, H, S>(alloc, host, room, made, shared)
}

/// What is done on a line.
fn work_tcp<H: Host, S: Shared>(
    alloc: Global,
    host: &mut H,
    room: &mut Room,
    step: TcpStep,
    shared: &mut S,
) -> Result<(), OutOfMemory>
    requires stores { H.needs host.old ≤ S.stores shared.old }
    ensures needs { H.needs host.new ≡ H.needs host.old }
    ensures stores { S.stores shared.new ≡ S.stores shared.old }
    ensures run { Ends S.performs shared.old (works_tcp H.calling step host.old room.old) (λ _. both host.new room.new) result shared.new }
{
    match step {
        TcpStep::Create { line, at } => create(alloc, host, room, line, at, shared),
        TcpStep::Enter { line } => enter(alloc, room, line),
        TcpStep::UpClose { of, peer } => tell::<Streams, H, S>(
            alloc,
            host,
            room,
            of.vm,
            Callback::UpstreamClose,
            of.context,
            peer,
            shared,
        ),
        TcpStep::DownClose { of, peer } => tell::<Streams, H, S>(
            alloc,
            host,
            room,
            of.vm,
            Callback::DownstreamClose,
            of.context,
            peer,
            shared,
        ),
        TcpStep::Close { line } => close_down(room, line),
    }
}

/// What is done for a callout, or on a line.
fn work_other<H: Host, S: Shared>(
    alloc: Global,
    host: &mut H,
    room: &mut Room,
    step: OtherStep,
    shared: &mut S,
) -> Result<(), OutOfMemory>
    requires stores { H.needs host.old ≤ S.stores shared.old }
    ensures needs { H.needs host.new ≡ H.needs host.old }
    ensures stores { S.stores shared.new ≡ S.stores shared.old }
    ensures run { Ends S.performs shared.old (works_other H.calling step host.old room.old) (λ _. both host.new room.new) result shared.new }
{
    match step {
        OtherStep::Call { step } => work_call::<Streams, H, S>(alloc, host, room, step, shared),
        OtherStep::Tcp { step } => work_tcp(alloc, host, room, step, shared),
    }
}

/// A VM begins, its plug-ins are configured, or a context ends.
fn work_life<H: Host, S: Shared>(
    alloc: Global,
    host: &mut H,
    rules: &Rules,
    room: &mut Room,
    job: Job,
    shared: &mut S,
) -> Result<(), OutOfMemory>
    requires needs { H.needs host.old ≤ S.stores shared.old }
    ensures needs { H.needs host.new ≡ H.needs host.old }
    ensures stores { S.stores shared.new ≡ S.stores shared.old }
    ensures run { Ends S.performs shared.old (works_life H.calling (plan_of rules.now) job host.old room.old) (λ _. both host.new room.new) result shared.new }
{
    match job {
        Job::Begin { vm } => tell::<Streams, H, S>(
            alloc,
            host,
            room,
            vm,
            Callback::Begin,
            ContextId::new(0),
            0,
            shared,
        ),
        Job::Start { vm, root } => {
            let size = vm_length(&room.hub.contexts, vm);
            start::<Streams, H, S>(
                alloc,
                host,
                room,
                vm,
                Callback::VmStart,
                root,
                size,
                Death::Start,
                shared,
            )
        }
        Job::Configure { vm, root, plugin } => {
            let size = plugin_length(&room.hub.contexts, plugin);
            start::<Streams, H, S>(
                alloc,
                host,
                room,
                vm,
                Callback::Configure,
                root,
                size,
                Death::Configure,
                shared,
            )
        }
        Job::Done { of } => finish::<Streams, H, S>(alloc, host, room, of, shared),
        Job::Log { of } => tell::<Streams, H, S>(
            alloc,
            host,
            room,
            of.vm,
            Callback::Log,
            of.context,
            0,
            shared,
        ),
        Job::Delete { of } => delete::<Streams, H, S>(alloc, host, room, of, shared),
        job => quiet(alloc, rules, room, job),
    }
}

/// The jobs that call nothing. What belongs to exchanges alone does nothing.
fn quiet(alloc: Global, rules: &Rules, room: &mut Room, job: Job) -> Result<(), OutOfMemory>
    ensures { OnOk result (room.new ≡ run_silent_job (plan_of rules.now) job room.old) }
{
    match job {
        Job::Happen { what } => happen(alloc, rules, room, &what),
        _ => Ok(()),
    }
}

/// The job in hand.
fn work<H: Host, S: Shared>(
    alloc: Global,
    host: &mut H,
    rules: &Rules,
    room: &mut Room,
    job: Job,
    shared: &mut S,
) -> Result<(), OutOfMemory>
    requires needs { H.needs host.old ≤ S.stores shared.old }
    requires stores { (plan_of rules.now).vms ≤ S.stores shared.old }
    ensures needs { H.needs host.new ≡ H.needs host.old }
    ensures stores { S.stores shared.new ≡ S.stores shared.old }
    ensures run { Ends S.performs shared.old (works H.calling (plan_of rules.now) job host.old room.old) (λ _. both host.new room.new) result shared.new }
{
    match job {
        Job::Root { vm, plugin, first } => root(alloc, host, room, vm, plugin, first, shared),
        Job::Tick { vm, root } => tick::<Streams, H, S>(alloc, host, room, vm, root, shared),
        Job::Notice { vm, left } => take_notice(alloc, host, rules, room, vm, left, shared),
        Job::Ready { vm, root, queue } => {
            tell_ready::<Streams, H, S>(alloc, host, room, vm, root, queue, shared)
        }
        Job::Other { step } => work_other(alloc, host, room, step, shared),
        job => work_life(alloc, host, rules, room, job, shared),
    }
}

/// One step.
fn step<H: Host, S: Shared>(
    alloc: Global,
    host: &mut H,
    rules: &Rules,
    room: &mut Room,
    next: Next,
    shared: &mut S,
) -> Result<(), OutOfMemory>
    requires needs { H.needs host.old ≤ S.stores shared.old }
    requires stores { (plan_of rules.now).vms ≤ S.stores shared.old }
    ensures needs { H.needs host.new ≡ H.needs host.old }
    ensures stores { S.stores shared.new ≡ S.stores shared.old }
    ensures run { Ends S.performs shared.old (step H.calling (plan_of rules.now) next host.old room.old) (λ _. both host.new room.new) result shared.new }
{
    match next {
        Next::Read => Ok(()),
        Next::Move { place } => one_move(alloc, host, room, place, shared),
        Next::Work => match room.jobs.pop_first() {
            None => Ok(()),
            Some(job) => work(alloc, host, rules, room, job, shared),
        },
        Next::Free { at } => room.free(at),
        Next::End { place } => end_at(alloc, room, place),
        Next::Begin => room.begin_first(),
        Next::Rest => Ok(()),
    }
}

/// Whether everything is at rest.
fn is_rest(next: Next) -> bool
    ensures { result ≡ is_rest next }
{
    match next {
        Next::Rest => true,
        _ => false,
    }
}

/// At most so many steps, until everything is at rest. Where more are left to do, memory counts as spent.
fn take_steps<H: Host, S: Shared>(
    alloc: Global,
    host: &mut H,
    rules: &Rules,
    room: &mut Room,
    most: u64,
    shared: &mut S,
) -> Result<(), OutOfMemory>
    requires needs { H.needs host.old ≤ S.stores shared.old }
    requires stores { (plan_of rules.now).vms ≤ S.stores shared.old }
    ensures needs { H.needs host.new ≡ H.needs host.old }
    ensures stores { S.stores shared.new ≡ S.stores shared.old }
    ensures run { Ends S.performs shared.old (settling H.calling (plan_of rules.now) most host.old room.old) (λ _. both host.new room.new) result shared.new }
    ensures rest { IfOk result (λ _. is_rest (next_of room.new) ≡ true) }
{
    let mut left = most;
    while left > 0 {
        left -= 1;
        let next = next(room);
        if is_rest(next) {
            return Ok(());
        }
        step(alloc, host, rules, room, next, shared)?;
    }
    Err(AllocError)
}

/// Host calls are told that lines are streams.
fn tell_kind(room: &mut Room)
    ensures { room.new ≡ as_streams room.old }
{
    room.hub.contexts.is_tcp = true;
}

/// At most so many steps of a worker whose lines are streams of bytes, until everything is at rest. Where more are left to do, memory counts as spent.
pub fn settle<H: Host, S: Shared>(
    alloc: Global,
    host: &mut H,
    rules: &Rules,
    room: &mut Room,
    most: u64,
    shared: &mut S,
) -> Result<(), OutOfMemory>
    requires needs { H.needs host.old ≤ S.stores shared.old }
    requires stores { (plan_of rules.now).vms ≤ S.stores shared.old }
    ensures needs { H.needs host.new ≡ H.needs host.old }
    ensures stores { S.stores shared.new ≡ S.stores shared.old }
    ensures run { Ends S.performs shared.old (settles H.calling (plan_of rules.now) most host.old room.old) (λ _. both host.new room.new) result shared.new }
    ensures rest { IfOk result (λ _. is_rest (next_of room.new) ≡ true) }
{
    tell_kind(room);
    take_steps(alloc, host, rules, room, most, shared)
}
