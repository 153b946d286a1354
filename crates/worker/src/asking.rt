// How a worker asks its world for an event.
ghost use Rattle.worker_model.specs.Plan.{plan_of};
ghost use Rattle.std.specs.Prelude.{◌≡◌, ◌≤◌, [], true, Err, IfOk, IsTrue, OnOk};
ghost use Rattle.gate_io.specs.Events.{Follows, Obeys, after_next};
ghost use Rattle.gate_io.specs.Passing.{asking};
ghost use Rattle.gate_io.specs.Told.{Gains, Rose};
ghost use Rattle.worker_model.specs.Wants.{due_in};
ghost use Rattle.streams_model.specs.Wants.{down_among, up_among, wants_for};

use crate::call_wants::push_call_lines;
use crate::due::due_in;
use gate_base::OutOfMemory;
use gate_io::{Event, Wants, World, WorldEnd};
use send_queue::Outbox;
use std::alloc::Global;
use worker_lines::wants_on;
use worker_model::Rules;
use worker_room::Room;
use worker_streams::wants_on as wants_on_streams;

/// The moment at which something falls due, at which the lists that are kept ask to be called from now on.
fn call_when_due(rules: &Rules, room: &mut Room) -> Option<u64>
    ensures room { room.new ≡ room.old }
    ensures due { result ≡ due_in (plan_of rules.now) room.new }
{
    let due = due_in(rules, room);
    room.lines.call_at(due);
    due
}

/// Asks the world for an event, with what the worker wants: lists that are kept, where nothing waits and no callout is under way, and else
/// others, in the memory of those before.
pub(crate) fn ask<W: World>(
    alloc: Global,
    rules: &Rules,
    room: &mut Room,
    outbox: &Outbox,
    wants: &mut Wants,
    world: &mut W,
) -> Result<Event, WorldEnd>
    ensures room { room.new ≡ room.old }
    ensures trace { Gains (W.trace world.old) (asking (wants_for (plan_of rules.now) room.new outbox.now) result) (W.trace world.new) }
    ensures event { IfOk result (Follows (W.last world.old)) }
    ensures last { W.last world.new ≡ after_next (W.last world.old) result }
    ensures obeys { IsTrue (W.nature world.old).obeys → IfOk result (λ event. Obeys (wants_for (plan_of rules.now) room.new outbox.now) event.what) }
    ensures nature { W.nature world.new ≡ W.nature world.old }
    ensures faults { W.faults world.old ≤ W.faults world.new }
    ensures failed { result ≡ Err WorldEnd.Failed → Rose (W.faults world.old) (W.faults world.new) }
{
    let due = call_when_due(rules, room);
    if is_quiet(rules, outbox, room) {
        if let Some(asked) = room.lines.asked(due) {
            return world.next(alloc, asked);
        }
    }
    let Ok(()) = list_wants(rules, room, outbox, due, wants) else {
        return Err(WorldEnd::OutOfMemory);
    };
    world.next(alloc, wants)
}

/// What the worker wants, in lists that are written anew.
fn list_wants(
    rules: &Rules,
    room: &Room,
    outbox: &Outbox,
    due: Option<u64>,
    wants: &mut Wants,
) -> Result<(), OutOfMemory>
    requires { due ≡ due_in (plan_of rules.now) room.now }
    ensures { OnOk result (wants.new ≡ wants_for (plan_of rules.now) room.now outbox.now) }
{
    list_lines(rules, room, outbox, wants)?;
    push_call_lines(room.calls.as_slice(), &mut wants.up)?;
    wants.due = due;
    Ok(())
}

/// What is wanted of lines, in lists that are written anew.
fn list_lines(
    rules: &Rules,
    room: &Room,
    outbox: &Outbox,
    wants: &mut Wants,
) -> Result<(), OutOfMemory>
    ensures down { OnOk result (wants.new.down ≡ down_among (plan_of rules.now).tcp outbox.now room.now) }
    ensures up { OnOk result (wants.new.up ≡ up_among (plan_of rules.now).tcp outbox.now room.now) }
{
    if rules.config.tcp.is_empty() {
        wants_on(outbox, room.lines.as_slice(), wants)
    } else {
        wants_on_streams(outbox, room.tcp.as_slice(), wants)
    }
}

/// Whether lines are of HTTP, nothing waits, and no callout is under way.
fn is_quiet(rules: &Rules, outbox: &Outbox, room: &Room) -> bool
    ensures http { result ≡ true → (plan_of rules.now).tcp ≡ [] }
    ensures waiting { result ≡ true → outbox.now ≡ [] }
    ensures calls { result ≡ true → room.now.calls ≡ [] }
{
    (rules.config.tcp.is_empty() && outbox.waiting().is_empty()) && room.calls.is_empty()
}
