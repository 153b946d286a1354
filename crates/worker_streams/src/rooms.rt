// The lines of a worker of streams, and what is done to one of them.
ghost use Rattle.std.specs.List.{list_any};
ghost use Rattle.std.specs.Prelude.{◌≡◌, ◌==◌, ◌&&◌, OnOk, position, option_copied};
ghost use Rattle.streams_model.specs.Lines.{in_line, apply_change, take_what, enter_stages};
ghost use Rattle.streams_model.specs.Opening.{line_in, notes_filter};
ghost use Rattle.streams_model.specs.Rooms.{place_in, has_open, place_of, at_place, on_number, on_context, has_move, is_over, next_part, next_of};

use crate::lines::{change_line, enter_line, put_filter, take_line};
use exchange::{Filter, Hub};
use gate_base::{ContextId, LineNo, OutOfMemory, VmNo};
use gate_io::What;
use gate_queue::Queue;
use std::alloc::Global;
use streams_model::Change;
use worker_model::{Next, TcpLine};
use worker_room::Room;

/// Where the line of a number stands.
pub(crate) fn place_in(lines: &[TcpLine], number: LineNo) -> Option<usize>
    ensures { result ≡ place_in number lines.now }
{
    lines.iter().position(|l| l.number == number)
}

/// The line of a number.
pub(crate) fn line_in(lines: &[TcpLine], number: LineNo) -> Option<&TcpLine>
    ensures { option_copied result ≡ line_in number lines.now }
{
    match place_in(lines, number) {
        None => None,
        Some(place) => lines.get(place),
    }
}

/// Whether a context of a VM is that of a filter.
fn has_filter(filters: &[Filter], vm: VmNo, context: ContextId) -> bool
    ensures { result ≡ list_any (λ f. (f.created && f.vm == vm) && f.context == context) filters.now }
{
    filters
        .iter()
        .any(|f| (f.created && f.vm == vm) && f.context == context)
}

/// Whether a line has a context of a VM, and its connection has not ended.
fn has_open(l: &TcpLine, vm: VmNo, context: ContextId) -> bool
    ensures { result ≡ has_open vm context l.now }
{
    !l.has_ended && has_filter(l.filters.as_slice(), vm, context)
}

/// Where the line of a context stands, whose connection has not ended.
fn place_of(lines: &[TcpLine], vm: VmNo, context: ContextId) -> Option<usize>
    ensures { result ≡ place_of vm context lines.now }
{
    lines.iter().position(|l| has_open(l, vm, context))
}

/// Something is done to the line at a place, if there is one.
fn change_at(
    alloc: Global,
    lines: &mut Queue<TcpLine>,
    hub: &mut Hub,
    place: Option<usize>,
    what: Change,
) -> Result<(), OutOfMemory>
    ensures { OnOk result (at_place (in_line (apply_change what)) lines.old place hub.old ≡ (lines.new, hub.new)) }
{
    let Some(place) = place else {
        return Ok(());
    };
    if place >= lines.len() {
        return Ok(());
    }
    let mut list = std::mem::replace(lines, Queue::new(alloc)).into_vec();
    let done = change_line(alloc, what, &mut list[place], hub);
    *lines = Queue::from_vec(list);
    done
}

/// Something happens on the line at a place, if there is one.
fn take_at(
    alloc: Global,
    lines: &mut Queue<TcpLine>,
    hub: &mut Hub,
    place: Option<usize>,
    what: &What,
) -> Result<(), OutOfMemory>
    ensures { OnOk result (at_place (in_line (take_what what.now)) lines.old place hub.old ≡ (lines.new, hub.new)) }
{
    let Some(place) = place else {
        return Ok(());
    };
    if place >= lines.len() {
        return Ok(());
    }
    let mut list = std::mem::replace(lines, Queue::new(alloc)).into_vec();
    let done = take_line(alloc, what, &mut list[place], hub);
    *lines = Queue::from_vec(list);
    done
}

/// The stages of the line at a place are made, if there is one.
fn enter_at(
    alloc: Global,
    lines: &mut Queue<TcpLine>,
    hub: &mut Hub,
    place: Option<usize>,
    dead: &[VmNo],
) -> Result<(), OutOfMemory>
    ensures { OnOk result (at_place (enter_stages dead.now) lines.old place hub.old ≡ (lines.new, hub.new)) }
{
    let Some(place) = place else {
        return Ok(());
    };
    if place >= lines.len() {
        return Ok(());
    }
    let mut list = std::mem::replace(lines, Queue::new(alloc)).into_vec();
    let done = enter_line(alloc, dead, &mut list[place], hub);
    *lines = Queue::from_vec(list);
    done
}

/// The filter at a place of the line at a place is this now.
fn note_at(
    alloc: Global,
    lines: &mut Queue<TcpLine>,
    hub: &Hub,
    place: Option<usize>,
    at: usize,
    f: Filter,
)
    ensures { at_place (notes_filter at f) lines.old place hub.now ≡ (lines.new, hub.now) }
{
    let Some(place) = place else {
        return;
    };
    if place >= lines.len() {
        return;
    }
    let mut list = std::mem::replace(lines, Queue::new(alloc)).into_vec();
    put_filter(&mut list[place], at, f);
    *lines = Queue::from_vec(list);
}

/// Something is done to the line of a number.
pub(crate) fn on_number(
    alloc: Global,
    room: &mut Room,
    number: LineNo,
    what: Change,
) -> Result<(), OutOfMemory>
    ensures { OnOk result (room.new ≡ on_number (in_line (apply_change what)) number room.old) }
{
    let place = place_in(room.tcp.as_slice(), number);
    change_at(alloc, &mut room.tcp, &mut room.hub, place, what)
}

/// Something is done to the line that has a context of a VM.
pub(crate) fn on_context(
    alloc: Global,
    room: &mut Room,
    vm: VmNo,
    context: ContextId,
    what: Change,
) -> Result<(), OutOfMemory>
    ensures { OnOk result (room.new ≡ on_context (in_line (apply_change what)) vm context room.old) }
{
    let place = place_of(room.tcp.as_slice(), vm, context);
    change_at(alloc, &mut room.tcp, &mut room.hub, place, what)
}

/// Something happens on the line of a number.
pub(crate) fn happen_on(
    alloc: Global,
    room: &mut Room,
    number: LineNo,
    what: &What,
) -> Result<(), OutOfMemory>
    ensures { OnOk result (room.new ≡ on_number (in_line (take_what what.now)) number room.old) }
{
    let place = place_in(room.tcp.as_slice(), number);
    take_at(alloc, &mut room.tcp, &mut room.hub, place, what)
}

/// The stages of the line of a number are made.
pub(crate) fn enter(alloc: Global, room: &mut Room, number: LineNo) -> Result<(), OutOfMemory>
    ensures { OnOk result (room.new ≡ on_number (enter_stages room.old.dead) number room.old) }
{
    let place = place_in(room.tcp.as_slice(), number);
    let dead = room.dead.as_slice();
    enter_at(alloc, &mut room.tcp, &mut room.hub, place, dead)
}

/// The filter at a place of the line of a number is this now.
pub(crate) fn note_filter(alloc: Global, room: &mut Room, number: LineNo, at: usize, f: Filter)
    ensures { room.new ≡ on_number (notes_filter at f) number room.old }
{
    let place = place_in(room.tcp.as_slice(), number);
    note_at(alloc, &mut room.tcp, &room.hub, place, at, f);
}

/// Whether a stage of a line may be asked.
fn has_move(l: &TcpLine) -> bool
    ensures { result ≡ has_move l.now }
{
    !l.has_ended && (l.down.is_ready() || l.up.is_ready())
}

/// The lowest line of which a stage may be asked.
fn moving(lines: &[TcpLine]) -> Option<usize>
    ensures { result ≡ position has_move lines.now }
{
    lines.iter().position(|l| has_move(l))
}

/// Whether the connection of a line has come to its end.
fn is_over(l: &TcpLine) -> bool
    ensures { result ≡ is_over l.now }
{
    l.has_ended
}

/// The lowest line whose connection has come to its end.
fn ending(lines: &[TcpLine]) -> Option<usize>
    ensures { result ≡ position is_over lines.now }
{
    lines.iter().position(|l| is_over(l))
}

/// What is next where the chains are at rest and nothing is in hand.
fn next_part(room: &Room) -> Next
    ensures { result ≡ next_part room.now }
{
    if let Some(at) = room.released() {
        return Next::Free { at };
    }
    if let Some(place) = ending(room.tcp.as_slice()) {
        return Next::End { place };
    }
    if room.agenda.is_empty() {
        Next::Rest
    } else {
        Next::Begin
    }
}

/// What is next.
pub(crate) fn next(room: &Room) -> Next
    ensures { result ≡ next_of room.now }
{
    if let Some(place) = moving(room.tcp.as_slice()) {
        return Next::Move { place };
    }
    if room.jobs.is_empty() {
        next_part(room)
    } else {
        Next::Work
    }
}
