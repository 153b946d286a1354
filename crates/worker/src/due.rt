// The moment at which something falls due.
ghost use Rattle.std.specs.Prelude.{◌≡◌, ◌≤◌, false, None, Some, if◌then◌else◌, ◌+◌};
ghost use Rattle.worker_model.specs.Plan.{plan_of};
ghost use Rattle.worker_model.specs.Turn.{vms_in};
ghost use Rattle.worker_model.specs.Wants.{earlier, due_of, with_ticks, ticks_up_to, with_lines, looks_one, looks, with_notices, due_in};

use crate::agenda::{contexts_of, registers_at, vm_of, vms_in};
use crate::call_wants::with_calls;
use contexts::{Context, Tick};
use worker_lines::{earlier, with_lines};
use worker_model::Rules;
use worker_room::Room;

/// How often notices are looked for, in nanoseconds.
const NOTICE_PERIOD: u64 = 50_000_000;

/// When a root is due.
fn due_of(tick: Option<Tick>) -> Option<u64>
    ensures { result ≡ due_of tick }
{
    match tick {
        None => None,
        Some(t) => Some(t.due),
    }
}

/// The earliest of a moment and of roots.
fn with_ticks(due: Option<u64>, contexts: &[Context]) -> Option<u64>
    ensures { result ≡ with_ticks due contexts.now }
{
    let mut first = due;
    for c in contexts {
        first = earlier(first, due_of(c.tick));
    }
    first
}

/// When a root of the first VMs is due.
fn ticks_up_to(room: &Room, count: u8) -> Option<u64>
    requires { count ≤ 16 }
    ensures { result ≡ ticks_up_to room.now count }
{
    let mut first = None;
    for n in 0..count {
        let vm = vm_of(n);
        if !room.is_dead(vm) {
            first = with_ticks(first, contexts_of(&room.hub.contexts, vm));
        }
    }
    first
}

/// Whether a VM looks for notices.
fn looks_one(rules: &Rules, room: &Room, n: u8) -> bool
    requires { n ≤ 15 }
    ensures { result ≡ looks_one (plan_of rules.now) room.now n }
{
    let vm = vm_of(n);
    registers_at(rules, vm) && !room.is_dead(vm)
}

/// Whether one of the first VMs looks for notices.
fn looks(rules: &Rules, room: &Room, count: u8) -> bool
    requires { count ≤ 16 }
    ensures { result ≡ looks (plan_of rules.now) room.now count }
{
    let mut found = false;
    for n in 0..count {
        let one = looks_one(rules, room, n);
        found = found || one;
    }
    found
}

/// The earliest of a moment and of looking for notices.
fn with_notices(rules: &Rules, room: &Room, due: Option<u64>) -> Option<u64>
    ensures { result ≡ with_notices (plan_of rules.now) room.now due }
{
    if !looks(rules, room, vms_in(room)) {
        return due;
    }
    earlier(due, Some(room.hub.moment.saturating_add(NOTICE_PERIOD)))
}

/// The moment at which something falls due.
pub(crate) fn due_in(rules: &Rules, room: &Room) -> Option<u64>
    ensures { result ≡ due_in (plan_of rules.now) room.now }
{
    if !room.is_begun {
        return None;
    }
    let ticks = ticks_up_to(room, vms_in(room));
    let due = with_calls(with_lines(ticks, &room.lines), room.calls.as_slice());
    with_notices(rules, room, due)
}
