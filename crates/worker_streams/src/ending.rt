// The end of a connection, and what happens on lines.
ghost use Rattle.std.specs.Prelude.{◌≡◌, [], ◌∷◌, ◌++◌, OnOk, IfOk};
ghost use Rattle.worker_model.specs.Plan.{plan_of};
ghost use Rattle.worker_model.specs.Rooms.{room_with_sent};
ghost use Rattle.streams_model.specs.Opening.{tcp_job};
ghost use Rattle.streams_model.specs.Ending.{peer_of, up_close_jobs, down_close_jobs, close_jobs_of, close_jobs, last_close_jobs, end_jobs, close_up, drop_held, end_line, end_at, take_event};

use crate::opening::open;
use crate::rooms::happen_on;
use exchange::Filter;
use gate_base::OutOfMemory;
use gate_io::{Sent, Side, What};
use gate_queue::Queue;
use std::alloc::Global;
use worker_model::{ContextAt, Job, OtherStep, Rules, TcpLine, TcpStep};
use worker_room::{Room, done_jobs};

/// 2 where the peer ended its side, 1 where the gateway does.
fn peer_of(ended: bool) -> u32
    ensures { result ≡ peer_of ended }
{
    if ended { 2 } else { 1 }
}

/// A step of a stream.
fn push_step(jobs: &mut Queue<Job>, step: TcpStep) -> Result<(), OutOfMemory>
    ensures { OnOk result (jobs.new ≡ jobs.old ++ tcp_job step ∷ []) }
{
    jobs.push(Job::Other {
        step: OtherStep::Tcp { step },
    })
}

/// A filter is told of the end of the connection to the server, where there was one.
fn push_up_close(jobs: &mut Queue<Job>, l: &TcpLine, f: &Filter) -> Result<(), OutOfMemory>
    ensures { OnOk result (jobs.new ≡ jobs.old ++ up_close_jobs l.now f.now) }
{
    if !l.is_up {
        return Ok(());
    }
    let of = ContextAt {
        vm: f.vm,
        context: f.context,
    };
    let peer = peer_of(l.up_ended);
    push_step(jobs, TcpStep::UpClose { of, peer })
}

/// A filter is told of the end of the client's connection.
fn push_down_close(jobs: &mut Queue<Job>, l: &TcpLine, f: &Filter) -> Result<(), OutOfMemory>
    ensures { OnOk result (jobs.new ≡ jobs.old ++ down_close_jobs l.now f.now) }
{
    let of = ContextAt {
        vm: f.vm,
        context: f.context,
    };
    let peer = peer_of(l.down_ended);
    push_step(jobs, TcpStep::DownClose { of, peer })
}

/// A filter whose context was made is told of the end of both connections.
fn push_closes(jobs: &mut Queue<Job>, l: &TcpLine, f: &Filter) -> Result<(), OutOfMemory>
    ensures { OnOk result (jobs.new ≡ jobs.old ++ close_jobs_of l.now f.now) }
{
    if !f.created {
        return Ok(());
    }
    push_up_close(jobs, l, f)?;
    push_down_close(jobs, l, f)
}

/// The filters are told of the end of both connections.
fn push_all_closes(
    jobs: &mut Queue<Job>,
    l: &TcpLine,
    filters: &[Filter],
) -> Result<(), OutOfMemory>
    ensures { OnOk result (jobs.new ≡ jobs.old ++ close_jobs l.now filters.now) }
{
    for f in filters {
        push_closes(jobs, l, f)?;
    }
    Ok(())
}

/// The client's connection is closed last, unless it is gone.
fn push_last(jobs: &mut Queue<Job>, l: &TcpLine) -> Result<(), OutOfMemory>
    ensures { OnOk result (jobs.new ≡ jobs.old ++ last_close_jobs l.now) }
{
    if l.is_gone {
        return Ok(());
    }
    push_step(jobs, TcpStep::Close { line: l.number })
}

/// What is done after the end of a connection.
fn end_jobs(alloc: Global, l: &TcpLine) -> Result<Queue<Job>, OutOfMemory>
    ensures { IfOk result (λ jobs. jobs ≡ end_jobs l.now) }
{
    let mut jobs = Queue::new(alloc);
    push_all_closes(&mut jobs, l, l.filters.as_slice())?;
    let mut done = done_jobs(alloc, l.filters.as_slice())?;
    push_last(&mut done, l)?;
    jobs.append(done)?;
    Ok(jobs)
}

/// The server's connection is closed, where there is one.
fn close_up(room: &mut Room, l: &TcpLine) -> Result<(), OutOfMemory>
    ensures { OnOk result (room.new ≡ room_with_sent (close_up l.now) room.old) }
{
    if !l.is_up {
        return Ok(());
    }
    room.send(Sent::Close {
        line: l.number,
        side: Side::Up,
    })
}

/// Nothing is held for the stages of a line.
fn drop_held(alloc: Global, room: &mut Room, l: &mut TcpLine)
    ensures { room.new ≡ drop_held l.old room.old }
{
    l.down.clear(alloc, &mut room.hub.contexts);
    l.up.clear(alloc, &mut room.hub.contexts);
}

/// The end of a line that is there no more.
fn end_line(alloc: Global, room: &mut Room, l: &mut TcpLine) -> Result<(), OutOfMemory>
    ensures { OnOk result (room.new ≡ end_line l.old room.old) }
{
    let jobs = end_jobs(alloc, l)?;
    close_up(room, l)?;
    drop_held(alloc, room, l);
    room.put_in_front(alloc, jobs)
}

/// The end of the line at a place.
pub(crate) fn end_at(alloc: Global, room: &mut Room, place: usize) -> Result<(), OutOfMemory>
    ensures { OnOk result (room.new ≡ end_at place room.old) }
{
    if place >= room.tcp.len() {
        return Ok(());
    }
    let mut l = room.tcp.remove(place);
    let ended = end_line(alloc, room, &mut l);
    drop(l);
    ended
}

/// What happens.
pub(crate) fn happen(
    alloc: Global,
    rules: &Rules,
    room: &mut Room,
    what: &What,
) -> Result<(), OutOfMemory>
    ensures { OnOk result (room.new ≡ take_event (plan_of rules.now) what.now room.old) }
{
    match what {
        What::Opened { line } => open(alloc, rules, room, *line),
        What::Bytes { line, .. } => happen_on(alloc, room, *line, what),
        What::End { line, .. } => happen_on(alloc, room, *line, what),
        What::Gone { line, .. } => happen_on(alloc, room, *line, what),
        What::Refused { line } => happen_on(alloc, room, *line, what),
        What::Joined { .. } => Ok(()),
        What::Room { .. } => Ok(()),
        What::Clock => Ok(()),
        What::Stop => Ok(()),
    }
}
