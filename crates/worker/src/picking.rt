// What a worker does until everything is at rest, by what its lines carry.
ghost use Rattle.std.specs.Prelude.{◌≡◌, ◌≤◌, IfOk, true};
ghost use Rattle.filter_host.specs.Course.{Ends};
ghost use Rattle.worker_model.specs.Plan.{plan_of};
ghost use Rattle.worker_model.specs.Settling.{is_rest};
ghost use Rattle.worker_model.specs.Steps.{both};
ghost use Rattle.streams_model.specs.Turn.{next_for, settles_for};

use crate::turning::settle;
use filter_host::Host;
use gate_base::OutOfMemory;
use std::alloc::Global;
use store_model::Shared;
use worker_model::Rules;
use worker_room::Room;
use worker_streams::settle as settle_streams;

/// At most so many steps, until everything is at rest: those of streams where the configuration has plug-ins of them, and else those of HTTP.
pub(crate) fn settle_all<H: Host, S: Shared>(
    alloc: Global,
    host: &mut H,
    rules: &Rules,
    room: &mut Room,
    most: u64,
    shared: &mut S,
) -> Result<(), OutOfMemory>
    requires needs { H.needs host.old ≤ S.stores shared.old }
    requires stores { (plan_of rules.now).vms ≤ S.stores shared.old }
    ensures needs { H.needs host.new ≡ H.needs host.old }
    ensures stores { S.stores shared.new ≡ S.stores shared.old }
    ensures run { Ends S.performs shared.old (settles_for H.calling (plan_of rules.now) most host.old room.old) (λ _. both host.new room.new) result shared.new }
    ensures rest { IfOk result (λ _. is_rest (next_for (plan_of rules.now) room.new) ≡ true) }
{
    if rules.config.tcp.is_empty() {
        settle(alloc, host, rules, room, most, shared)
    } else {
        settle_streams(alloc, host, rules, room, most, shared)
    }
}
