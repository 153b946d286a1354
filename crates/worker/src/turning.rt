// All is done until everything is at rest.
ghost use Rattle.worker_model.specs.Plan.{plan_of};
ghost use Rattle.std.specs.Prelude.{◌≡◌, ◌≤◌, ◌<◌, Some, None, OnOk, IfOk, length, true};
ghost use Rattle.filter_host.specs.Course.{Ends};
ghost use Rattle.worker_model.specs.Steps.{both, step, works, move_at, moved, callback_of, number_of, made_one, roots, streams, ticks, tells, starts, finishes, forgets, works_life, run_silent_job, ask_notice, notice_step, tells_ready, vm_length, plugin_length};
ghost use Rattle.worker_model.specs.Rooms.{next_of};
ghost use Rattle.worker_model.specs.Settling.{settling, is_rest};

use crate::call_steps::work_other;
use contexts::Contexts;
use filter_chain::AskKind;
use filter_host::{Callback, Death, Host};
use gate_base::{ContextId, LineNo, OutOfMemory, QueueId, VmNo};
use std::alloc::{AllocError, Global};
use store_model::{Call, Shared};
use worker_model::{Asked, Change, ContextAt, Job, NewContext, Next, Owner, Rules};
use worker_room::{Room, call_back, call_live, may_stream};

/// The callback that a stage is asked by.
fn name_of(response: bool, kind: AskKind) -> Callback
    ensures { result ≡ callback_of response kind }
{
    match (response, kind) {
        (false, AskKind::Head) => Callback::RequestHeaders,
        (false, AskKind::Piece) => Callback::RequestBody,
        (false, AskKind::Trailers) => Callback::RequestTrailers,
        (true, AskKind::Head) => Callback::ResponseHeaders,
        (true, AskKind::Piece) => Callback::ResponseBody,
        (true, AskKind::Trailers) => Callback::ResponseTrailers,
    }
}

/// A flag, as a callback is given it.
fn number_of(end: bool) -> u32
    ensures { result ≡ number_of end }
{
    if end { 1 } else { 0 }
}

/// How many bytes the configuration of a VM has.
fn vm_length(h: &Contexts, vm: VmNo) -> u32
    ensures { result ≡ vm_length vm h.now }
{
    match h.vms.as_slice().get(vm.get() as usize) {
        None => 0,
        Some(v) => v.configuration.as_slice().len() as u32,
    }
}

/// How many bytes the configuration of a plug-in has.
fn plugin_length(h: &Contexts, plugin: usize) -> u32
    ensures { result ≡ plugin_length plugin h.now }
{
    match h.plugins.as_slice().get(plugin) {
        None => 0,
        Some(p) => p.configuration.as_slice().len() as u32,
    }
}

/// A stage is asked.
fn ask<H: Host, S: Shared>(
    alloc: Global,
    host: &mut H,
    room: &mut Room,
    a: Asked,
    shared: &mut S,
) -> Result<(), OutOfMemory>
    requires stores { H.needs host.old ≤ S.stores shared.old }
    ensures needs { H.needs host.new ≡ H.needs host.old }
    ensures stores { S.stores shared.new ≡ S.stores shared.old }
    ensures run { Ends S.performs shared.old (moved H.calling (Some a) host.old room.old) (λ _. both host.new room.new) result shared.new }
{
    let own = Owner::Stage {
        context: a.context,
        response: a.response,
    };
    let name = name_of(a.response, a.ask.kind);
    let end = number_of(a.ask.end);
    let value = call_back(
        alloc, host, room, a.vm, name, a.context, a.count, end, own, shared,
    )?;
    room.act_on(alloc, a, value)
}

/// A move.
fn one_move<H: Host, S: Shared>(
    alloc: Global,
    host: &mut H,
    room: &mut Room,
    place: usize,
    shared: &mut S,
) -> Result<(), OutOfMemory>
    requires stores { H.needs host.old ≤ S.stores shared.old }
    ensures needs { H.needs host.new ≡ H.needs host.old }
    ensures stores { S.stores shared.new ≡ S.stores shared.old }
    ensures run { Ends S.performs shared.old (move_at H.calling place host.old room.old) (λ _. both host.new room.new) result shared.new }
{
    match room.lines.ask(alloc, &mut room.hub, place)? {
        None => Ok(()),
        Some(a) => ask(alloc, host, room, a, shared),
    }
}

/// A callback whose answer says nothing.
fn tell<H: Host, S: Shared>(
    alloc: Global,
    host: &mut H,
    room: &mut Room,
    vm: VmNo,
    name: Callback,
    context: ContextId,
    first: u32,
    shared: &mut S,
) -> Result<(), OutOfMemory>
    requires stores { H.needs host.old ≤ S.stores shared.old }
    ensures needs { H.needs host.new ≡ H.needs host.old }
    ensures stores { S.stores shared.new ≡ S.stores shared.old }
    ensures run { Ends S.performs shared.old (tells H.calling vm name context first host.old room.old) (λ _. both host.new room.new) result shared.new }
{
    call_live(alloc, host, room, vm, name, context, first, 0, shared)?;
    Ok(())
}

/// A callback after which the VM is dead where it answered 0.
fn start<H: Host, S: Shared>(
    alloc: Global,
    host: &mut H,
    room: &mut Room,
    vm: VmNo,
    name: Callback,
    root: ContextId,
    size: u32,
    death: Death,
    shared: &mut S,
) -> Result<(), OutOfMemory>
    requires stores { H.needs host.old ≤ S.stores shared.old }
    ensures needs { H.needs host.new ≡ H.needs host.old }
    ensures stores { S.stores shared.new ≡ S.stores shared.old }
    ensures run { Ends S.performs shared.old (starts H.calling vm name root size death host.old room.old) (λ _. both host.new room.new) result shared.new }
{
    let value = call_live(alloc, host, room, vm, name, root, size, 0, shared)?;
    room.unless_zero(alloc, vm, death, value)
}

/// A context is done with.
fn finish<H: Host, S: Shared>(
    alloc: Global,
    host: &mut H,
    room: &mut Room,
    of: ContextAt,
    shared: &mut S,
) -> Result<(), OutOfMemory>
    requires stores { H.needs host.old ≤ S.stores shared.old }
    ensures needs { H.needs host.new ≡ H.needs host.old }
    ensures stores { S.stores shared.new ≡ S.stores shared.old }
    ensures run { Ends S.performs shared.old (finishes H.calling of host.old room.old) (λ _. both host.new room.new) result shared.new }
{
    let value = call_live(
        alloc,
        host,
        room,
        of.vm,
        Callback::Done,
        of.context,
        0,
        0,
        shared,
    )?;
    room.done_with(of, value)
}

/// A context is deleted.
fn delete<H: Host, S: Shared>(
    alloc: Global,
    host: &mut H,
    room: &mut Room,
    of: ContextAt,
    shared: &mut S,
) -> Result<(), OutOfMemory>
    requires stores { H.needs host.old ≤ S.stores shared.old }
    ensures needs { H.needs host.new ≡ H.needs host.old }
    ensures stores { S.stores shared.new ≡ S.stores shared.old }
    ensures run { Ends S.performs shared.old (forgets H.calling of host.old room.old) (λ _. both host.new room.new) result shared.new }
{
    call_live(
        alloc,
        host,
        room,
        of.vm,
        Callback::Delete,
        of.context,
        0,
        0,
        shared,
    )?;
    room.delete(of);
    Ok(())
}

/// A context that was made is told of its making.
fn tell_made<H: Host, S: Shared>(
    alloc: Global,
    host: &mut H,
    room: &mut Room,
    made: Option<NewContext>,
    shared: &mut S,
) -> Result<(), OutOfMemory>
    requires stores { H.needs host.old ≤ S.stores shared.old }
    ensures needs { H.needs host.new ≡ H.needs host.old }
    ensures stores { S.stores shared.new ≡ S.stores shared.old }
    ensures run { Ends S.performs shared.old (made_one H.calling made host.old room.old) (λ _. both host.new room.new) result shared.new }
{
    match made {
        None => Ok(()),
        Some(c) => {
            let root = c.root.get();
            tell(
                alloc,
                host,
                room,
                c.vm,
                Callback::ContextCreate,
                c.context,
                root,
                shared,
            )
        }
    }
}

/// The root of a plug-in is made.
fn root<H: Host, S: Shared>(
    alloc: Global,
    host: &mut H,
    room: &mut Room,
    vm: VmNo,
    plugin: usize,
    first: bool,
    shared: &mut S,
) -> Result<(), OutOfMemory>
    requires stores { H.needs host.old ≤ S.stores shared.old }
    ensures needs { H.needs host.new ≡ H.needs host.old }
    ensures stores { S.stores shared.new ≡ S.stores shared.old }
    ensures run { Ends S.performs shared.old (roots H.calling vm plugin first host.old room.old) (λ _. both host.new room.new) result shared.new }
{
    let made = room.make_root(alloc, vm, plugin, first)?;
    tell_made(alloc, host, room, made, shared)
}

/// The context of a filter is made.
fn create<H: Host, S: Shared>(
    alloc: Global,
    host: &mut H,
    room: &mut Room,
    line: LineNo,
    at: usize,
    shared: &mut S,
) -> Result<(), OutOfMemory>
    requires stores { H.needs host.old ≤ S.stores shared.old }
    ensures needs { H.needs host.new ≡ H.needs host.old }
    ensures stores { S.stores shared.new ≡ S.stores shared.old }
    ensures run { Ends S.performs shared.old (streams H.calling line at host.old room.old) (λ _. both host.new room.new) result shared.new }
{
    let made = room.make_context(alloc, line, at)?;
    tell_made(alloc, host, room, made, shared)
}

/// A root is called that is due.
fn tick<H: Host, S: Shared>(
    alloc: Global,
    host: &mut H,
    room: &mut Room,
    vm: VmNo,
    root: ContextId,
    shared: &mut S,
) -> Result<(), OutOfMemory>
    requires stores { H.needs host.old ≤ S.stores shared.old }
    ensures needs { H.needs host.new ≡ H.needs host.old }
    ensures stores { S.stores shared.new ≡ S.stores shared.old }
    ensures run { Ends S.performs shared.old (ticks H.calling vm root host.old room.old) (λ _. both host.new room.new) result shared.new }
{
    if !room.tick(vm, root) {
        return Ok(());
    }
    tell(alloc, host, room, vm, Callback::Tick, root, 0, shared)
}

/// A notice is taken.
fn ask_notice<H: Host, S: Shared>(
    alloc: Global,
    host: &H,
    room: &mut Room,
    vm: VmNo,
    left: u8,
    shared: &mut S,
) -> Result<(), OutOfMemory>
    requires stores { vm < S.stores shared.old }
    ensures stores { S.stores shared.new ≡ S.stores shared.old }
    ensures run { Ends S.performs shared.old (ask_notice vm left host.now room.old) (λ _. both host.now room.new) result shared.new }
{
    let reply = shared.call(alloc, vm, &Call::Notice)?;
    room.notice(alloc, vm, left, reply)
}

/// A notice is taken, where there may be one.
fn take_notice<H: Host, S: Shared>(
    alloc: Global,
    host: &H,
    rules: &Rules,
    room: &mut Room,
    vm: VmNo,
    left: u8,
    shared: &mut S,
) -> Result<(), OutOfMemory>
    requires stores { (plan_of rules.now).vms ≤ S.stores shared.old }
    ensures stores { S.stores shared.new ≡ S.stores shared.old }
    ensures run { Ends S.performs shared.old (notice_step (plan_of rules.now) vm left host.now room.old) (λ _. both host.now room.new) result shared.new }
{
    if (left == 0 || room.is_dead(vm)) || vm.get() as usize >= rules.config.vms.len() {
        return Ok(());
    }
    ask_notice(alloc, host, room, vm, left, shared)
}

/// A root is told of an item in a queue.
fn tell_ready<H: Host, S: Shared>(
    alloc: Global,
    host: &mut H,
    room: &mut Room,
    vm: VmNo,
    root: ContextId,
    queue: QueueId,
    shared: &mut S,
) -> Result<(), OutOfMemory>
    requires stores { H.needs host.old ≤ S.stores shared.old }
    ensures needs { H.needs host.new ≡ H.needs host.old }
    ensures stores { S.stores shared.new ≡ S.stores shared.old }
    ensures run { Ends S.performs shared.old (tells_ready H.calling vm root queue host.old room.old) (λ _. both host.new room.new) result shared.new }
{
    if !may_stream(&room.hub.contexts, vm, root) {
        return Ok(());
    }
    tell(
        alloc,
        host,
        room,
        vm,
        Callback::QueueReady,
        root,
        queue.get(),
        shared,
    )
}

/// The jobs that call nothing.
fn quiet(alloc: Global, room: &mut Room, job: Job) -> Result<(), OutOfMemory>
    ensures { OnOk result (room.new ≡ run_silent_job job room.old) }
{
    match job {
        Job::Expire => room.expire(alloc),
        Job::Happen { what } => room.happen(alloc, &what),
        Job::Enter { line } => room.enter(alloc, line),
        Job::Put {
            line,
            response,
            items,
        } => room.on_number(alloc, line, Change::Put { response, items }),
        Job::Refuse { line, status } => room.refuse_line(alloc, line, status),
        Job::Close { line, stays } => room.end_line(alloc, line, stays),
        _ => Ok(()),
    }
}

/// The jobs that begin a VM, or that end a context.
fn work_life<H: Host, S: Shared>(
    alloc: Global,
    host: &mut H,
    room: &mut Room,
    job: Job,
    shared: &mut S,
) -> Result<(), OutOfMemory>
    requires stores { H.needs host.old ≤ S.stores shared.old }
    ensures needs { H.needs host.new ≡ H.needs host.old }
    ensures stores { S.stores shared.new ≡ S.stores shared.old }
    ensures run { Ends S.performs shared.old (works_life H.calling job host.old room.old) (λ _. both host.new room.new) result shared.new }
{
    match job {
        Job::Begin { vm } => tell(
            alloc,
            host,
            room,
            vm,
            Callback::Begin,
            ContextId::new(0),
            0,
            shared,
        ),
        Job::Start { vm, root } => {
            let size = vm_length(&room.hub.contexts, vm);
            start(
                alloc,
                host,
                room,
                vm,
                Callback::VmStart,
                root,
                size,
                Death::Start,
                shared,
            )
        }
        Job::Configure { vm, root, plugin } => {
            let size = plugin_length(&room.hub.contexts, plugin);
            start(
                alloc,
                host,
                room,
                vm,
                Callback::Configure,
                root,
                size,
                Death::Configure,
                shared,
            )
        }
        Job::Done { of } => finish(alloc, host, room, of, shared),
        Job::Log { of } => tell(
            alloc,
            host,
            room,
            of.vm,
            Callback::Log,
            of.context,
            0,
            shared,
        ),
        Job::Delete { of } => delete(alloc, host, room, of, shared),
        job => quiet(alloc, room, job),
    }
}

/// The job in hand.
fn work<H: Host, S: Shared>(
    alloc: Global,
    host: &mut H,
    rules: &Rules,
    room: &mut Room,
    job: Job,
    shared: &mut S,
) -> Result<(), OutOfMemory>
    requires needs { H.needs host.old ≤ S.stores shared.old }
    requires stores { (plan_of rules.now).vms ≤ S.stores shared.old }
    ensures needs { H.needs host.new ≡ H.needs host.old }
    ensures stores { S.stores shared.new ≡ S.stores shared.old }
    ensures run { Ends S.performs shared.old (works H.calling (plan_of rules.now) job host.old room.old) (λ _. both host.new room.new) result shared.new }
{
    match job {
        Job::Root { vm, plugin, first } => root(alloc, host, room, vm, plugin, first, shared),
        Job::Create { line, at } => create(alloc, host, room, line, at, shared),
        Job::Tick { vm, root } => tick(alloc, host, room, vm, root, shared),
        Job::Notice { vm, left } => take_notice(alloc, host, rules, room, vm, left, shared),
        Job::Ready { vm, root, queue } => tell_ready(alloc, host, room, vm, root, queue, shared),
        Job::Other { step } => work_other(alloc, host, room, step, shared),
        job => work_life(alloc, host, room, job, shared),
    }
}

/// One step.
fn step<H: Host, S: Shared>(
    alloc: Global,
    host: &mut H,
    rules: &Rules,
    room: &mut Room,
    next: Next,
    shared: &mut S,
) -> Result<(), OutOfMemory>
    requires needs { H.needs host.old ≤ S.stores shared.old }
    requires stores { (plan_of rules.now).vms ≤ S.stores shared.old }
    ensures needs { H.needs host.new ≡ H.needs host.old }
    ensures stores { S.stores shared.new ≡ S.stores shared.old }
    ensures run { Ends S.performs shared.old (step H.calling (plan_of rules.now) next host.old room.old) (λ _. both host.new room.new) result shared.new }
{
    match next {
        Next::Read => room.read(alloc, rules),
        Next::Move { place } => one_move(alloc, host, room, place, shared),
        Next::Work => match room.jobs.pop_first() {
            None => Ok(()),
            Some(job) => work(alloc, host, rules, room, job, shared),
        },
        Next::Free { at } => room.free(at),
        Next::End { place } => room.end_at(alloc, place),
        Next::Begin => room.begin_first(),
        Next::Rest => Ok(()),
    }
}

/// Whether everything is at rest.
fn is_rest(next: Next) -> bool
    ensures { result ≡ is_rest next }
{
    match next {
        Next::Rest => true,
        _ => false,
    }
}

/// At most so many steps, until everything is at rest. Where more are left to do, memory counts as spent.
pub(crate) fn settle<H: Host, S: Shared>(
    alloc: Global,
    host: &mut H,
    rules: &Rules,
    room: &mut Room,
    most: u64,
    shared: &mut S,
) -> Result<(), OutOfMemory>
    requires needs { H.needs host.old ≤ S.stores shared.old }
    requires stores { (plan_of rules.now).vms ≤ S.stores shared.old }
    ensures needs { H.needs host.new ≡ H.needs host.old }
    ensures stores { S.stores shared.new ≡ S.stores shared.old }
    ensures run { Ends S.performs shared.old (settling H.calling (plan_of rules.now) most host.old room.old) (λ _. both host.new room.new) result shared.new }
    ensures rest { IfOk result (λ _. is_rest (next_of room.new) ≡ true) }
{
    let mut left = most;
    while left > 0 {
        left -= 1;
        let next = room.next();
        if is_rest(next) {
            return Ok(());
        }
        step(alloc, host, rules, room, next, shared)?;
    }
    Err(AllocError)
}
