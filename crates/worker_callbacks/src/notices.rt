// Notices of items in queues.
ghost use Rattle.std.specs.Prelude.{◌≡◌, ◌≤◌, ◌<◌};
ghost use Rattle.filter_host.specs.Course.{Ends};
ghost use Rattle.worker_model.specs.Plan.{plan_of};
ghost use Rattle.worker_model.specs.Steps.{both, ask_notice, notice_step};

use filter_host::Host;
use gate_base::{OutOfMemory, VmNo};
use std::alloc::Global;
use store_model::{Call, Shared};
use worker_model::Rules;
use worker_room::Room;

/// A notice is taken.
fn ask_notice<H: Host, S: Shared>(
    alloc: Global,
    host: &H,
    room: &mut Room,
    vm: VmNo,
    left: u8,
    shared: &mut S,
) -> Result<(), OutOfMemory>
    requires stores { vm < S.stores shared.old }
    ensures stores { S.stores shared.new ≡ S.stores shared.old }
    ensures run { Ends S.performs shared.old (ask_notice vm left host.now room.old) (λ _. both host.now room.new) result shared.new }
{
    let reply = shared.call(alloc, vm, &Call::Notice)?;
    room.notice(alloc, vm, left, reply)
}

/// A notice is taken, where there may be one.
pub fn take_notice<H: Host, S: Shared>(
    alloc: Global,
    host: &H,
    rules: &Rules,
    room: &mut Room,
    vm: VmNo,
    left: u8,
    shared: &mut S,
) -> Result<(), OutOfMemory>
    requires stores { (plan_of rules.now).vms ≤ S.stores shared.old }
    ensures stores { S.stores shared.new ≡ S.stores shared.old }
    ensures run { Ends S.performs shared.old (notice_step (plan_of rules.now) vm left host.now room.old) (λ _. both host.now room.new) result shared.new }
{
    if (left == 0 || room.is_dead(vm)) || vm.get() as usize >= rules.config.vms.len() {
        return Ok(());
    }
    ask_notice(alloc, host, room, vm, left, shared)
}
