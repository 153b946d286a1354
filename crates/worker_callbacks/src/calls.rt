// Callbacks, and all that comes of them.
ghost use Rattle.std.specs.Prelude.{◌≡◌, ◌≤◌, None};
ghost use Rattle.filter_host.specs.Course.{Ends};
ghost use Rattle.streams_model.specs.Callbacks.{called_in, called_live};
ghost use Rattle.worker_model.specs.Steps.{both, callback_result};

use crate::traffic::Traffic;
use filter_host::{Callback, Host};
use gate_base::{ContextId, OutOfMemory, VmNo};
use std::alloc::Global;
use store_model::Shared;
use worker_model::Owner;
use worker_room::{Room, value_of};

/// A callback: what it wrote into the log is sent, and then its effects are done, or its VM is dead. What it returned, if it did.
pub fn call_back<K: Traffic, H: Host, S: Shared>(
    alloc: Global,
    host: &mut H,
    room: &mut Room,
    vm: VmNo,
    name: Callback,
    context: ContextId,
    first: u32,
    second: u32,
    own: Owner,
    shared: &mut S,
) -> Result<Option<Option<u32>>, OutOfMemory>
    requires stores { H.needs host.old ≤ S.stores shared.old }
    ensures needs { H.needs host.new ≡ H.needs host.old }
    ensures stores { S.stores shared.new ≡ S.stores shared.old }
    ensures run { Ends S.performs shared.old (called_in K.takes H.calling vm name context first second own host.old room.old) (λ v. callback_result v (both host.new room.new)) result shared.new }
{
    let moment = room.hub.moment;
    let id = context.get();
    let contexts = &mut room.hub.contexts;
    let answer = host.callback(alloc, vm, name, id, first, second, moment, contexts, shared)?;
    let end = answer.end;
    K::answer(alloc, room, vm, &own, end, answer.lines)?;
    Ok(value_of(end))
}

/// The same, but no callback comes of a VM that died.
pub fn call_live<K: Traffic, H: Host, S: Shared>(
    alloc: Global,
    host: &mut H,
    room: &mut Room,
    vm: VmNo,
    name: Callback,
    context: ContextId,
    first: u32,
    second: u32,
    shared: &mut S,
) -> Result<Option<Option<u32>>, OutOfMemory>
    requires stores { H.needs host.old ≤ S.stores shared.old }
    ensures needs { H.needs host.new ≡ H.needs host.old }
    ensures stores { S.stores shared.new ≡ S.stores shared.old }
    ensures run { Ends S.performs shared.old (called_live K.takes H.calling vm name context first second host.old room.old) (λ v. callback_result v (both host.new room.new)) result shared.new }
{
    if room.is_dead(vm) {
        return Ok(None);
    }
    call_back::<K, H, S>(
        alloc,
        host,
        room,
        vm,
        name,
        context,
        first,
        second,
        Owner::Nobody,
        shared,
    )
}
