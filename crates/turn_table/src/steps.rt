// The steps of a call: the turn is taken, the entry is recorded, the turn is given back.
ghost use Rattle.std.specs.Prelude.{◌≡◌, ◌<◌, true, false, [], ◌∷◌};
ghost use Rattle.atomic_table.specs.Table.{step};
ghost use Rattle.store_model.specs.History.{entry};
ghost use Rattle.turn_table.specs.Histories.{value_after};
ghost use Rattle.turn_table.specs.Seats.{HasShape};
ghost use Rattle.turn_table.specs.Steps.{Won, recorded, gave};
ghost use mathlib.Core.Option.{none};

use crate::plays::{Gives, Naming, Records, Takes, Waits};
use crate::rule::InTurn;
use crate::seat::Pass;
use crate::{Turned, View};
use atomic_table::Shared;
use gate_base::{VmNo, WorkerNo};
use std::hint::spin_loop;
use std::sync::Wait;
use store_model::{Call, Reply};

/// The word that is 1 exactly where a seat has the turn.
pub(crate) const TURN: usize = 0;

/// The word that is the length of the history, modulo 2^64.
pub(crate) const COUNT: usize = 1;

/// The word that marks that seats may sleep until the turn is given back.
pub(crate) const ASLEEP: usize = 2;

/// How often a seat looks whether the turn is free, before it sleeps: for longer than most calls take.
const LOOKS: u32 = 100;

/// The slot in which the value is at home.
pub(crate) const HOME: usize = 0;

/// The table as all seats share it.
pub(crate) type Top<S> = Shared<S, View, VmNo, InTurn<S>>;

/// Waits for the turn. The value's slot is then out with the seat.
pub(crate) fn take<S: Turned, R: Wait>(rt: &R, top: &Top<S>, pass: &mut Pass<S>)
    requires table { (pass.old.table_id ≡ top.now.table_id) × HasShape top.now.table_id }
    requires seat { (0 < pass.old.me.0.number) × (pass.old.me.1 ≡ []) }
    ensures same { (pass.new.table_id ≡ pass.old.table_id) × (pass.new.id ≡ pass.old.id) }
    ensures won { Won S.acts pass.old.me pass.new.me }
{
    if try_take(top, pass) {
        return;
    }
    look(top);
    if try_take(top, pass) {
        return;
    }
    wait(rt, top, pass);
}

/// Looks until no seat has the turn, but not for long.
fn look<S: Turned>(top: &Top<S>)
    requires { HasShape top.now.table_id }
{
    for _ in 0..LOOKS {
        if top.peek(TURN) == 0 {
            return;
        }
        spin_loop();
    }
}

/// Takes the turn if no seat has it.
fn try_take<S: Turned>(top: &Top<S>, pass: &mut Pass<S>) -> bool
    requires table { (pass.old.table_id ≡ top.now.table_id) × HasShape top.now.table_id }
    requires seat { (0 < pass.old.me.0.number) × (pass.old.me.1 ≡ []) }
    ensures same { (pass.new.table_id ≡ pass.old.table_id) × (pass.new.id ≡ pass.old.id) }
    ensures won { result ≡ true → Won S.acts pass.old.me pass.new.me }
    ensures not { result ≡ false → pass.new.me ≡ pass.old.me }
{
    top.compare_exchange::<Takes<S>>(pass, TURN, 0, 1) == 0
}

/// Waits for the turn, which another seat had.
///
/// The seat marks that seats sleep before it tries again, and sleeps only while the mark stands; `give` looks at the mark behind its give,
/// takes it away and wakes one; a seat that was woken marks again before it tries. All these steps stand in one order. Hence:
/// - Where a seat sleeps, the mark stands, or a giver that took it away is about to wake a seat, or one that was woken is about to mark.
/// - Where the mark stands, the seat that made it last tries behind it, and takes a free turn. If another has the turn then, the give of
///   that one stands behind the try and so behind the mark, and sees it.
///
/// So where seats sleep and nobody has the turn, a seat is about to try, or a giver is about to look or to wake.
fn wait<S: Turned, R: Wait>(rt: &R, top: &Top<S>, pass: &mut Pass<S>)
    requires table { (pass.old.table_id ≡ top.now.table_id) × HasShape top.now.table_id }
    requires seat { (0 < pass.old.me.0.number) × (pass.old.me.1 ≡ []) }
    ensures same { (pass.new.table_id ≡ pass.old.table_id) × (pass.new.id ≡ pass.old.id) }
    ensures won { Won S.acts pass.old.me pass.new.me }
{
    for _ in rt.forever() {
        top.store::<Waits>(pass, ASLEEP, 1);
        if try_take(top, pass) {
            break;
        }
        top.park(rt, ASLEEP, 1);
        look(top);
    }
}

/// Records the call, which is E's entry, by the one step on the count.
pub(crate) fn record<S: Turned, E: Naming>(
    top: &Top<S>,
    pass: &mut Pass<S>,
    who: WorkerNo,
    call: &Call,
    reply: &Reply,
)
    requires named { E.entry ≡ entry who call.now reply.now }
    requires table { (pass.old.table_id ≡ top.now.table_id) × HasShape top.now.table_id }
    requires holds { pass.old.me.0.holds ≡ true }
    requires answered { (who ≡ pass.old.me.0.number) × (reply.now ≡ S.acts.reply who call.now (value_after S.acts pass.old.me.0.vm pass.old.me.0.seen)) }
    ensures same { (pass.new.table_id ≡ pass.old.table_id) × (pass.new.id ≡ pass.old.id) }
    ensures recorded { recorded S.acts (entry who call.now reply.now) (step 1 1 1 0 none) pass.old.me 0 pass.new.me }
{
    top.fetch_add::<Records<S, E>>(pass, COUNT, 1);
}

/// Gives the turn back, with the value in its slot, and wakes a seat if one may sleep.
pub(crate) fn give<S: Turned>(top: &Top<S>, pass: &mut Pass<S>)
    requires table { (pass.old.table_id ≡ top.now.table_id) × HasShape top.now.table_id }
    requires holds { (pass.old.me.0.holds ≡ true) × (pass.old.me.1 ≡ (0, value_after S.acts pass.old.me.0.vm pass.old.me.0.seen) ∷ []) }
    ensures same { (pass.new.table_id ≡ pass.old.table_id) × (pass.new.id ≡ pass.old.id) }
    ensures gave { gave S.acts (step 1 0 0 0 none) pass.old.me 0 pass.new.me }
{
    top.store::<Gives<S>>(pass, TURN, 0);
    if top.peek(ASLEEP) != 0 {
        top.store::<Waits>(pass, ASLEEP, 0);
        top.wake_one(ASLEEP);
    }
}
