// One line whose connections are streams of bytes: what is done to what passes its stages.
ghost use Rattle.std.specs.Prelude.{◌≡◌, OnOk};
ghost use Rattle.streams_model.specs.Lines.{stream_of, with_stream, take_outcome, resume_place, close_stream, action_for, apply_action, take_what, apply_change, in_line, with_made, enters, enter_stages, with_filter};

use exchange::{Filter, Hub};
use filter_chain::Chain;
use gate_base::{OutOfMemory, VmNo};
use gate_io::What;
use std::alloc::Global;
use streams_model::Change;
use tcp_filters::{Action, TcpLine as Passing, TcpOutcome};
use worker_lines::stages_of;
use worker_model::TcpLine;

/// Takes what passes the stages off a line.
pub(crate) fn lend(alloc: Global, l: &mut TcpLine) -> Passing
    ensures stream { result ≡ stream_of l.old }
    ensures filters { l.new.filters ≡ l.old.filters }
{
    Passing {
        number: l.number,
        down: std::mem::replace(&mut l.down, Chain::new(Vec::new(alloc))),
        up: std::mem::replace(&mut l.up, Chain::new(Vec::new(alloc))),
        is_entered: l.is_entered,
        is_up: l.is_up,
        down_ended: l.down_ended,
        up_ended: l.up_ended,
        is_gone: l.is_gone,
        has_ended: l.has_ended,
    }
}

/// Gives it back.
pub(crate) fn give_back(l: &mut TcpLine, s: Passing)
    ensures { l.new ≡ with_stream l.old.filters s }
{
    l.number = s.number;
    l.down = s.down;
    l.up = s.up;
    l.is_entered = s.is_entered;
    l.is_up = s.is_up;
    l.down_ended = s.down_ended;
    l.up_ended = s.up_ended;
    l.is_gone = s.is_gone;
    l.has_ended = s.has_ended;
}

/// What comes of passing items on: it is sent, or the connection comes to its end.
pub(crate) fn take_outcome(
    alloc: Global,
    outcome: TcpOutcome,
    s: &mut Passing,
    hub: &mut Hub,
) -> Result<(), OutOfMemory>
    ensures { OnOk result (take_outcome (outcome, s.old, hub.old.contexts) hub.old ≡ (s.new, hub.new)) }
{
    match outcome {
        TcpOutcome::Over => {
            s.close(alloc, &mut hub.contexts);
            Ok(())
        }
        TcpOutcome::Sends { sent } => hub.sent.append(sent),
    }
}

/// What the stage at a place holds goes on, if there is one.
fn resume_place(
    alloc: Global,
    response: bool,
    at: Option<usize>,
    s: &mut Passing,
    hub: &mut Hub,
) -> Result<(), OutOfMemory>
    ensures { OnOk result (resume_place response at s.old hub.old ≡ (s.new, hub.new)) }
{
    match at {
        None => Ok(()),
        Some(at) => {
            let outcome = s.resume(alloc, &mut hub.contexts, response, at)?;
            take_outcome(alloc, outcome, s, hub)
        }
    }
}

/// The connection comes to its end, unless it has.
pub(crate) fn close(alloc: Global, s: &mut Passing, hub: &mut Hub)
    ensures { close_stream s.old hub.old ≡ (s.new, hub.new) }
{
    s.close(alloc, &mut hub.contexts);
}

/// What a callback of a stage answers by a number.
fn action_for(value: u32) -> Action
    ensures { result ≡ action_for value }
{
    if value == 0 {
        Action::Continue
    } else {
        Action::Pause
    }
}

/// The action of a callback of a stage is put in force.
fn act(
    alloc: Global,
    response: bool,
    at: usize,
    value: u32,
    s: &mut Passing,
    hub: &mut Hub,
) -> Result<(), OutOfMemory>
    ensures { OnOk result (apply_action response at value s.old hub.old ≡ (s.new, hub.new)) }
{
    let action = action_for(value);
    let outcome = s.answer(alloc, &mut hub.contexts, response, at, action)?;
    take_outcome(alloc, outcome, s, hub)
}

/// Something happens on the line.
fn take(alloc: Global, what: &What, s: &mut Passing, hub: &mut Hub) -> Result<(), OutOfMemory>
    ensures { OnOk result (take_what what.now s.old hub.old ≡ (s.new, hub.new)) }
{
    let outcome = s.take(alloc, &mut hub.contexts, what)?;
    take_outcome(alloc, outcome, s, hub)
}

/// What is done to what passes the stages.
fn change(alloc: Global, what: Change, s: &mut Passing, hub: &mut Hub) -> Result<(), OutOfMemory>
    ensures { OnOk result (apply_change what s.old hub.old ≡ (s.new, hub.new)) }
{
    match what {
        Change::Resume {
            vm,
            context,
            response,
        } => {
            let at = s.place_of(response, vm, context);
            resume_place(alloc, response, at, s, hub)
        }
        Change::Close => {
            close(alloc, s, hub);
            Ok(())
        }
        Change::Act {
            response,
            stage,
            value,
        } => act(alloc, response, stage, value, s, hub),
    }
}

/// What is done to a line.
pub(crate) fn change_line(
    alloc: Global,
    what: Change,
    l: &mut TcpLine,
    hub: &mut Hub,
) -> Result<(), OutOfMemory>
    ensures { OnOk result (in_line (apply_change what) l.old hub.old ≡ (l.new, hub.new)) }
{
    let mut s = lend(alloc, l);
    let done = change(alloc, what, &mut s, hub);
    give_back(l, s);
    done
}

/// Something happens on a line.
pub(crate) fn take_line(
    alloc: Global,
    what: &What,
    l: &mut TcpLine,
    hub: &mut Hub,
) -> Result<(), OutOfMemory>
    ensures { OnOk result (in_line (take_what what.now) l.old hub.old ≡ (l.new, hub.new)) }
{
    let mut s = lend(alloc, l);
    let done = take(alloc, what, &mut s, hub);
    give_back(l, s);
    done
}

/// The stages of a line are made.
fn make_stages(
    alloc: Global,
    dead: &[VmNo],
    filters: &[Filter],
    s: &mut Passing,
) -> Result<(), OutOfMemory>
    ensures { OnOk result (s.new ≡ with_made dead.now filters.now s.old) }
{
    let down = stages_of(alloc, false, dead, filters)?;
    let mut up = stages_of(alloc, true, dead, filters)?;
    up.reverse();
    s.down = Chain::new(down);
    s.up = Chain::new(up);
    Ok(())
}

/// The stages are made, and New comes.
fn enter(
    alloc: Global,
    dead: &[VmNo],
    filters: &[Filter],
    s: &mut Passing,
    hub: &mut Hub,
) -> Result<(), OutOfMemory>
    ensures { OnOk result (enters dead.now filters.now s.old hub.old ≡ (s.new, hub.new)) }
{
    make_stages(alloc, dead, filters, s)?;
    let what = What::Opened { line: s.number };
    take(alloc, &what, s, hub)
}

/// The stages of a line are made, and New comes, unless its connection has come to its end.
pub(crate) fn enter_line(
    alloc: Global,
    dead: &[VmNo],
    l: &mut TcpLine,
    hub: &mut Hub,
) -> Result<(), OutOfMemory>
    ensures { OnOk result (enter_stages dead.now l.old hub.old ≡ (l.new, hub.new)) }
{
    if l.has_ended {
        return Ok(());
    }
    let mut s = lend(alloc, l);
    let done = enter(alloc, dead, l.filters.as_slice(), &mut s, hub);
    give_back(l, s);
    done
}

/// The filter at a place of a line is this now.
pub(crate) fn put_filter(l: &mut TcpLine, at: usize, f: Filter)
    ensures { l.new ≡ with_filter at f l.old }
{
    if at < l.filters.len() {
        l.filters.set(at, f);
    }
}
