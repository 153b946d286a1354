// The stage that is asked on a line of streams.
ghost use Rattle.std.specs.Prelude.{◌≡◌, OnOk, IfOk, option_map, slice_get};
ghost use Rattle.tcp_filters.specs.Lines.{chain_of};
ghost use Rattle.streams_model.specs.Asking.{asks_stage, asks_as, asks_stream, asks_line, asks_at, callback_of, apply_stage_action};

use crate::lines::{close, give_back, lend};
use crate::rooms::on_number;
use exchange::Hub;
use filter_chain::{Ask, AskKind, Asking};
use filter_host::Callback;
use gate_base::{ContextId, LineNo, OutOfMemory, VmNo};
use gate_queue::Queue;
use std::alloc::Global;
use streams_model::Change;
use tcp_filters::TcpLine as Passing;
use worker_model::{Asked, TcpLine};
use worker_room::{Room, action_of};

/// The stage at a place of a direction.
fn stage_in(response: bool, s: &Passing, at: usize) -> Option<(VmNo, ContextId)>
    ensures { result ≡ option_map (λ t. (t.vm, t.context)) (slice_get (chain_of response s.now) at) }
{
    if response {
        s.up.stage_at(at)
    } else {
        s.down.stage_at(at)
    }
}

/// The stage that is asked, by its VM and its context.
fn asked_by(response: bool, n: LineNo, ask: Ask, stage: Option<(VmNo, ContextId)>) -> Option<Asked>
    ensures { result ≡ asks_stage response n ask stage }
{
    match stage {
        None => None,
        Some((vm, context)) => Some(Asked {
            vm,
            context,
            response,
            line: n,
            ask,
            count: ask.count,
        }),
    }
}

/// What was picked; too much for a stage ends the connection.
fn asked_of(
    alloc: Global,
    response: bool,
    asking: Asking,
    s: &mut Passing,
    hub: &mut Hub,
) -> Option<Asked>
    ensures { asks_as response asking s.old hub.old ≡ (result, s.new, hub.new) }
{
    match asking {
        Asking::Nothing => None,
        Asking::Over { .. } => {
            close(alloc, s, hub);
            None
        }
        Asking::Asks { ask } => {
            asked_by(response, s.number, ask, stage_in(response, s, ask.stage))
        }
    }
}

/// The stage that is to be asked of what passes.
fn ask_stream(alloc: Global, s: &mut Passing, hub: &mut Hub) -> Result<Option<Asked>, OutOfMemory>
    ensures { IfOk result (λ a. asks_stream s.old hub.old ≡ (a, s.new, hub.new)) }
{
    let a = s.ask(&mut hub.contexts)?;
    Ok(asked_of(alloc, a.response, a.asking, s, hub))
}

/// The stage of a line that is to be asked.
fn ask_line(alloc: Global, l: &mut TcpLine, hub: &mut Hub) -> Result<Option<Asked>, OutOfMemory>
    ensures { IfOk result (λ a. asks_line l.old hub.old ≡ (a, l.new, hub.new)) }
{
    let mut s = lend(alloc, l);
    let asked = ask_stream(alloc, &mut s, hub);
    give_back(l, s);
    asked
}

/// The stage that is asked on the line at a place, if there is one.
pub(crate) fn ask_at(
    alloc: Global,
    lines: &mut Queue<TcpLine>,
    hub: &mut Hub,
    place: usize,
) -> Result<Option<Asked>, OutOfMemory>
    ensures { IfOk result (λ a. asks_at place (slice_get lines.old place) lines.old hub.old ≡ (a, lines.new, hub.new)) }
{
    if place >= lines.len() {
        return Ok(None);
    }
    let mut list = std::mem::replace(lines, Queue::new(alloc)).into_vec();
    let asked = ask_line(alloc, &mut list[place], hub);
    *lines = Queue::from_vec(list);
    asked
}

/// The callback that a stage is asked by.
pub(crate) fn name_of(response: bool, kind: AskKind) -> Callback
    ensures { result ≡ callback_of response kind }
{
    match (response, kind) {
        (false, AskKind::Head) => Callback::NewConnection,
        (false, AskKind::Piece) => Callback::DownstreamData,
        (false, AskKind::Trailers) => Callback::DownstreamData,
        (true, AskKind::Head) => Callback::NewConnection,
        (true, AskKind::Piece) => Callback::UpstreamData,
        (true, AskKind::Trailers) => Callback::UpstreamData,
    }
}

/// The action of a callback of a stage is put in force.
pub(crate) fn act_on(
    alloc: Global,
    room: &mut Room,
    a: Asked,
    value: Option<Option<u32>>,
) -> Result<(), OutOfMemory>
    ensures { OnOk result (room.new ≡ apply_stage_action a value room.old) }
{
    match value {
        None => Ok(()),
        Some(value) => {
            let what = Change::Act {
                response: a.response,
                stage: a.ask.stage,
                value: action_of(value),
            };
            on_number(alloc, room, a.line, what)
        }
    }
}
