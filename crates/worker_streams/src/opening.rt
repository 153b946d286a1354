// A line of streams opens: its contexts are made, and then its stages. And the roots of plug-ins are made.
ghost use Rattle.std.specs.Prelude.{◌≡◌, ◌++◌, OnOk, IfOk, Some};
ghost use Rattle.worker_model.specs.Plan.{plan_of};
ghost use Rattle.streams_model.specs.Opening.{new_line, create_jobs, open_jobs, place_for, insert_line, with_line, close_down, accept_with, accept_line, filter_at, create_stream, create_context, create_root};

use crate::effects::die;
use crate::rooms::{line_in, note_filter, place_in};
use exchange::Filter;
use filter_chain::Chain;
use filter_host::Death;
use gate_base::{ContextId, LineNo, OutOfMemory, VmNo};
use gate_io::{Sent, Side};
use gate_queue::Queue;
use std::alloc::{AllocError, Global};
use worker_lines::{filters_of, is_blocked, live_filters};
use worker_model::{Job, NewContext, OtherStep, Rules, TcpLine, TcpStep};
use worker_room::{Room, is_drawn_out, may_root, may_stream, root_of};

/// So many lines are open at most.
const MOST_LINES: usize = 128;

/// A line of these filters that nothing came to.
fn new_line(alloc: Global, number: LineNo, filters: Queue<Filter>) -> TcpLine
    ensures { result ≡ new_line number filters }
{
    TcpLine {
        number,
        filters,
        down: Chain::new(Vec::new(alloc)),
        up: Chain::new(Vec::new(alloc)),
        is_entered: false,
        is_up: false,
        down_ended: false,
        up_ended: false,
        is_gone: false,
        has_ended: false,
    }
}

/// The contexts of so many filters are made.
fn push_creates(jobs: &mut Queue<Job>, line: LineNo, count: usize) -> Result<(), OutOfMemory>
    ensures { OnOk result (jobs.new ≡ jobs.old ++ create_jobs line count) }
{
    for at in 0..count {
        jobs.push(Job::Other {
            step: OtherStep::Tcp {
                step: TcpStep::Create { line, at },
            },
        })?;
    }
    Ok(())
}

/// The contexts of filters are made, and then the stages.
fn open_jobs(alloc: Global, line: LineNo, filters: &[Filter]) -> Result<Queue<Job>, OutOfMemory>
    ensures { IfOk result (λ jobs. jobs ≡ open_jobs line filters.now) }
{
    let mut jobs = Queue::new(alloc);
    push_creates(&mut jobs, line, filters.len())?;
    jobs.push(Job::Other {
        step: OtherStep::Tcp {
            step: TcpStep::Enter { line },
        },
    })?;
    Ok(jobs)
}

/// The place of a new line.
fn place_for(lines: &[TcpLine], number: LineNo) -> usize
    ensures { result ≡ place_for number lines.now }
{
    lines.iter().take_while(|l| l.number <= number).count()
}

/// The line is there.
#[tactic(auto, using(crate::proofs::Places::place_within))]
fn insert_line(
    alloc: Global,
    room: &mut Room,
    number: LineNo,
    filters: Queue<Filter>,
) -> Result<(), OutOfMemory>
    ensures { OnOk result (room.new ≡ insert_line number filters room.old) }
{
    let place = place_for(room.tcp.as_slice(), number);
    room.tcp.insert(place, new_line(alloc, number, filters))
}

/// The line is there, its contexts are made, and then its stages.
fn add_line(
    alloc: Global,
    room: &mut Room,
    number: LineNo,
    filters: Queue<Filter>,
) -> Result<(), OutOfMemory>
    ensures { OnOk result (room.new ≡ with_line number filters room.old) }
{
    let jobs = open_jobs(alloc, number, filters.as_slice())?;
    insert_line(alloc, room, number, filters)?;
    room.put_in_front(alloc, jobs)
}

/// The client's connection is closed.
pub(crate) fn close_down(room: &mut Room, number: LineNo) -> Result<(), OutOfMemory>
    ensures { OnOk result (room.new ≡ close_down number room.old) }
{
    room.send(Sent::Close {
        line: number,
        side: Side::Down,
    })
}

/// A connection was opened, and its filters are these; or it is closed at once.
fn open_with(
    alloc: Global,
    room: &mut Room,
    number: LineNo,
    filters: &[Filter],
) -> Result<(), OutOfMemory>
    ensures { OnOk result (room.new ≡ accept_with number filters.now room.old) }
{
    if room.tcp.len() >= MOST_LINES || is_blocked(room.dead.as_slice(), filters) {
        return close_down(room, number);
    }
    let live = live_filters(alloc, room.dead.as_slice(), filters)?;
    add_line(alloc, room, number, live)
}

/// A connection was opened.
pub(crate) fn open(
    alloc: Global,
    rules: &Rules,
    room: &mut Room,
    number: LineNo,
) -> Result<(), OutOfMemory>
    ensures { OnOk result (room.new ≡ accept_line (plan_of rules.now) number room.old) }
{
    if place_in(room.tcp.as_slice(), number).is_some() {
        return Ok(());
    }
    let filters = filters_of(
        alloc,
        rules.config.plugins.as_slice(),
        rules.config.tcp.as_slice(),
    )?;
    open_with(alloc, room, number, filters.as_slice())
}

/// The filter at a place of the line of a number, whose connection has not ended.
fn filter_at(lines: &[TcpLine], number: LineNo, at: usize) -> Option<Filter>
    ensures { result ≡ filter_at number at lines.now }
{
    match line_in(lines, number) {
        None => None,
        Some(l) => {
            if l.has_ended {
                return None;
            }
            match l.filters.as_slice().get(at) {
                None => None,
                Some(f) => Some(*f),
            }
        }
    }
}

/// The context of a filter is made, of this root; where no id is left, the VM is dead.
fn make_stream(
    alloc: Global,
    room: &mut Room,
    number: LineNo,
    at: usize,
    f: Filter,
    root: ContextId,
) -> Result<Option<NewContext>, OutOfMemory>
    ensures { IfOk result (λ c. create_stream number at f (Some root) room.old ≡ (c, room.new)) }
{
    let vm = f.vm;
    if room.is_dead(vm) || !may_stream(&room.hub.contexts, vm, root) {
        return Ok(None);
    }
    if is_drawn_out(&room.hub.contexts, vm) {
        die(alloc, room, vm, Death::Ids)?;
        return Ok(None);
    }
    // An id is left.
    let Ok(context) = room.hub.contexts.create_stream(alloc, vm, root, number) else {
        return Err(AllocError);
    };
    let f = Filter {
        created: true,
        context,
        ..f
    };
    note_filter(alloc, room, number, at, f);
    Ok(Some(NewContext { vm, context, root }))
}

/// The context of a filter of a line is made.
pub(crate) fn make_context(
    alloc: Global,
    room: &mut Room,
    number: LineNo,
    at: usize,
) -> Result<Option<NewContext>, OutOfMemory>
    ensures { IfOk result (λ c. create_context number at room.old ≡ (c, room.new)) }
{
    let Some(f) = filter_at(room.tcp.as_slice(), number, at) else {
        return Ok(None);
    };
    match root_of(&room.hub.contexts, f.plugin) {
        None => Ok(None),
        Some(root) => make_stream(alloc, room, number, at, f, root),
    }
}

/// The root of a plug-in is made; where no id is left, the VM is dead.
pub(crate) fn make_root(
    alloc: Global,
    room: &mut Room,
    vm: VmNo,
    plugin: usize,
    first: bool,
) -> Result<Option<NewContext>, OutOfMemory>
    ensures { IfOk result (λ c. create_root vm plugin first room.old ≡ (c, room.new)) }
{
    if room.is_dead(vm) || !may_root(&room.hub.contexts, vm, plugin) {
        return Ok(None);
    }
    if is_drawn_out(&room.hub.contexts, vm) {
        die(alloc, room, vm, Death::Ids)?;
        return Ok(None);
    }
    room.make_root(alloc, vm, plugin, first)
}
