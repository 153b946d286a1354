// The parts of a turn, in order.
ghost use Rattle.worker_model.specs.Plan.{plan_of};
ghost use Rattle.std.specs.List.{list_any};
ghost use Rattle.std.specs.Prelude.{◌≡◌, ◌≤◌, true, [], ◌∷◌, ◌++◌, length, OnOk, IfOk, Some, slice_get};
ghost use Rattle.worker_model.specs.Turn.{is_of, roots_from, start_of, starts_of, first_vms, vms_in, start_jobs, is_due_now, ticks_in, ticks_of, new_ticks_from, new_ticks_of, new_ticks, ticks_due, deadline_jobs, registers_at, notice_of, notices_of, fail_jobs, calls_due, comes_if, happening, agenda_of};
ghost use Rattle.callouts.specs.Callouts.{callout_at};
ghost use Rattle.contexts.specs.Creating.{next_id};
ghost use Rattle.contexts.specs.Reached.{vm_in};
ghost use Rattle.worker_model.specs.Steps.{is_due_tick};

use callouts::{CallStep, callout_at, due_at, is_call_line, line_in};
use contexts::{Context, Contexts, Plugin, Tick};
use gate_base::{ContextId, LineNo, OutOfMemory, VmNo};
use gate_io::What;
use gate_queue::Queue;
use std::alloc::Global;
use worker_model::{Job, OtherStep, Rules};
use worker_room::Room;

/// How many VMs there are, 16 at most.
pub(crate) fn vms_in(room: &Room) -> u8
    ensures count { result ≡ vms_in room.now }
    ensures bound { result ≤ 16 }
{
    let n = room.hub.contexts.vms.len();
    if n <= 16 { n as u8 } else { 16 }
}

/// The VM of a number.
pub(crate) fn vm_of(n: u8) -> VmNo
    requires { n ≤ 15 }
    ensures { result ≡ n }
{
    match VmNo::new(n) {
        Some(vm) => vm,
        None => unreachable!(),
    }
}

/// Whether a plug-in is of a VM.
fn is_of(vm: VmNo, p: &Plugin) -> bool
    ensures { result ≡ is_of vm p.now }
{
    p.vm == vm
}

/// The roots of a VM's plug-ins.
fn push_roots(jobs: &mut Queue<Job>, vm: VmNo, plugins: &[Plugin]) -> Result<(), OutOfMemory>
    ensures { OnOk result (jobs.new ≡ jobs.old ++ roots_from vm 0 true plugins.now) }
{
    let mut first = true;
    for (plugin, p) in plugins.iter().enumerate() {
        if is_of(vm, p) {
            jobs.push(Job::Root { vm, plugin, first })?;
            first = false;
        }
    }
    Ok(())
}

/// Whether a plug-in names a VM.
fn is_named(vm: VmNo, plugins: &[Plugin]) -> bool
    ensures { result ≡ list_any (is_of vm) plugins.now }
{
    plugins.iter().any(|p| is_of(vm, p))
}

/// A VM that a plug-in names starts.
#[tactic(auto, using(crate::proofs::Places::none_starts))]
fn push_start(jobs: &mut Queue<Job>, vm: VmNo, plugins: &[Plugin]) -> Result<(), OutOfMemory>
    ensures { OnOk result (jobs.new ≡ jobs.old ++ start_of vm plugins.now) }
{
    if !is_named(vm, plugins) {
        return Ok(());
    }
    jobs.push(Job::Begin { vm })?;
    push_roots(jobs, vm, plugins)
}

/// The first VMs start.
fn push_starts(jobs: &mut Queue<Job>, count: u8, plugins: &[Plugin]) -> Result<(), OutOfMemory>
    requires { count ≤ 16 }
    ensures { OnOk result (jobs.new ≡ jobs.old ++ starts_of count plugins.now) }
{
    for n in 0..count {
        push_start(jobs, vm_of(n), plugins)?;
    }
    Ok(())
}

/// Whether a tick is due.
fn is_due_now(now: u64, tick: Option<Tick>) -> bool
    ensures { result ≡ is_due_now now tick }
{
    match tick {
        None => false,
        Some(t) => t.due <= now,
    }
}

/// The roots of a VM that are due.
fn push_ticks(
    jobs: &mut Queue<Job>,
    now: u64,
    vm: VmNo,
    contexts: &[Context],
) -> Result<(), OutOfMemory>
    ensures { OnOk result (jobs.new ≡ jobs.old ++ ticks_in now vm contexts.now) }
{
    for c in contexts {
        if is_due_now(now, c.tick) {
            jobs.push(Job::Tick { vm, root: c.id })?;
        }
    }
    Ok(())
}

/// The contexts of a VM.
pub(crate) fn contexts_of(h: &Contexts, vm: VmNo) -> &[Context]
    ensures { result.now ≡ (vm_in h.now vm).contexts }
{
    match h.vms.as_slice().get(vm.get() as usize) {
        None => &[],
        Some(v) => v.contexts.as_slice(),
    }
}

/// The roots of the first VMs that are due.
fn push_all_ticks(
    jobs: &mut Queue<Job>,
    now: u64,
    count: u8,
    h: &Contexts,
) -> Result<(), OutOfMemory>
    requires { count ≤ 16 }
    ensures { OnOk result (jobs.new ≡ jobs.old ++ ticks_of now count h.now) }
{
    for n in 0..count {
        push_ticks(jobs, now, vm_of(n), contexts_of(h, vm_of(n)))?;
    }
    Ok(())
}

/// The id that the next context of a VM gets, where one is left.
fn next_id(h: &Contexts, vm: VmNo) -> u64
    ensures id { result ≡ next_id h.now vm }
    ensures bound { result ≤ 4294967296 }
{
    match h.vms.as_slice().get(vm.get() as usize) {
        None => 1,
        Some(v) => v.last.get() as u64 + 1,
    }
}

/// The roots that the start of a VM makes, by their ids to come, of which the first is given.
fn push_new_ticks(
    jobs: &mut Queue<Job>,
    vm: VmNo,
    first: u64,
    plugins: &[Plugin],
) -> Result<(), OutOfMemory>
    requires { first ≤ 4294967296 }
    ensures { OnOk result (jobs.new ≡ jobs.old ++ new_ticks_from vm first plugins.now) }
{
    let mut id = first;
    for p in plugins {
        if is_of(vm, p) && id <= 4294967295 {
            let root = ContextId::new(id as u32);
            jobs.push(Job::Tick { vm, root })?;
            id += 1;
        }
    }
    Ok(())
}

/// The roots that the starts of the first VMs make.
fn push_all_new_ticks(jobs: &mut Queue<Job>, count: u8, h: &Contexts) -> Result<(), OutOfMemory>
    requires { count ≤ 16 }
    ensures { OnOk result (jobs.new ≡ jobs.old ++ new_ticks_of count h.now) }
{
    for n in 0..count {
        let vm = vm_of(n);
        push_new_ticks(jobs, vm, next_id(h, vm), h.plugins.as_slice())?;
    }
    Ok(())
}

/// The roots that this turn makes.
fn push_ticks_to_come(jobs: &mut Queue<Job>, room: &Room) -> Result<(), OutOfMemory>
    ensures { OnOk result (jobs.new ≡ jobs.old ++ new_ticks room.now) }
{
    if room.is_begun {
        return Ok(());
    }
    push_all_new_ticks(jobs, vms_in(room), &room.hub.contexts)
}

/// The roots that are due, and those that this turn makes.
fn push_ticks_due(jobs: &mut Queue<Job>, room: &Room) -> Result<(), OutOfMemory>
    ensures { OnOk result (jobs.new ≡ jobs.old ++ ticks_due room.now) }
{
    push_all_ticks(jobs, room.hub.moment, vms_in(room), &room.hub.contexts)?;
    push_ticks_to_come(jobs, room)
}

/// Whether a VM registers queues.
pub(crate) fn registers_at(rules: &Rules, vm: VmNo) -> bool
    ensures { result ≡ registers_at (slice_get (plan_of rules.now).registers vm) }
{
    match rules.registers.as_slice().get(vm.get() as usize) {
        None => false,
        Some(registers) => *registers,
    }
}

/// A VM that registers queues takes notices.
fn push_notice(jobs: &mut Queue<Job>, rules: &Rules, vm: VmNo) -> Result<(), OutOfMemory>
    ensures { OnOk result (jobs.new ≡ jobs.old ++ notice_of (plan_of rules.now) vm) }
{
    if registers_at(rules, vm) {
        jobs.push(Job::Notice { vm, left: 16 })?;
    }
    Ok(())
}

/// The first VMs that register queues take notices.
fn push_notices(jobs: &mut Queue<Job>, rules: &Rules, count: u8) -> Result<(), OutOfMemory>
    requires { count ≤ 16 }
    ensures { OnOk result (jobs.new ≡ jobs.old ++ notices_of (plan_of rules.now) count) }
{
    for n in 0..count {
        push_notice(jobs, rules, vm_of(n))?;
    }
    Ok(())
}

/// Responses may be due.
fn push_deadlines(jobs: &mut Queue<Job>, rules: &Rules) -> Result<(), OutOfMemory>
    ensures { OnOk result (jobs.new ≡ jobs.old ++ deadline_jobs (plan_of rules.now)) }
{
    if rules.config.deadline_ms != 0 {
        jobs.push(Job::Expire)?;
    }
    Ok(())
}

/// What comes in front of the event.
fn parts_before(alloc: Global, rules: &Rules, room: &Room) -> Result<Queue<Job>, OutOfMemory>
    ensures { IfOk result (λ jobs. jobs ≡ start_jobs room.now ++ (ticks_due room.now ++ deadline_jobs (plan_of rules.now))) }
{
    let mut jobs = Queue::new(alloc);
    if !room.is_begun {
        push_starts(
            &mut jobs,
            vms_in(room),
            room.hub.contexts.plugins.as_slice(),
        )?;
    }
    push_ticks_due(&mut jobs, room)?;
    push_deadlines(&mut jobs, rules)?;
    Ok(jobs)
}

/// The callouts of these ids fail.
fn push_failures(jobs: &mut Queue<Job>, ids: &[u32]) -> Result<(), OutOfMemory>
    ensures { OnOk result (jobs.new ≡ jobs.old ++ fail_jobs ids.now) }
{
    for id in ids {
        let step = CallStep::Fail { id: *id };
        jobs.push(Job::Other {
            step: OtherStep::Call { step },
        })?;
    }
    Ok(())
}

/// The callouts that are due fail.
fn push_calls_due(alloc: Global, jobs: &mut Queue<Job>, room: &Room) -> Result<(), OutOfMemory>
    ensures { OnOk result (jobs.new ≡ jobs.old ++ calls_due room.now) }
{
    let ids = due_at(alloc, room.calls.as_slice(), room.hub.moment)?;
    push_failures(jobs, ids.as_slice())
}

/// What comes of the line of a callout, if one is under way there.
fn push_coming(
    jobs: &mut Queue<Job>,
    line: LineNo,
    what: What,
    room: &Room,
) -> Result<(), OutOfMemory>
    ensures { OnOk result (jobs.new ≡ jobs.old ++ comes_if (callout_at (Some line) room.now.calls) what) }
{
    match callout_at(room.calls.as_slice(), line) {
        None => Ok(()),
        Some(_) => {
            let step = CallStep::Comes { what };
            jobs.push(Job::Other {
                step: OtherStep::Call { step },
            })
        }
    }
}

/// The event, if it is of the lines or of a callout under way.
fn push_event(jobs: &mut Queue<Job>, what: What, room: &Room) -> Result<(), OutOfMemory>
    ensures { OnOk result (jobs.new ≡ jobs.old ++ happening what room.now) }
{
    match line_in(&what) {
        Some(line) if is_call_line(line) => push_coming(jobs, line, what, room),
        _ => jobs.push(Job::Happen { what }),
    }
}

/// The parts of a turn, in order.
pub(crate) fn agenda_of(
    alloc: Global,
    rules: &Rules,
    what: What,
    room: &Room,
) -> Result<Queue<Job>, OutOfMemory>
    ensures { IfOk result (λ jobs. jobs ≡ agenda_of (plan_of rules.now) what room.now) }
{
    let mut jobs = parts_before(alloc, rules, room)?;
    push_calls_due(alloc, &mut jobs, room)?;
    push_event(&mut jobs, what, room)?;
    push_notices(&mut jobs, rules, vms_in(room))?;
    Ok(jobs)
}
