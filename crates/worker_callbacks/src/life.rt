// VMs start, contexts are made and end, and roots are called.
ghost use Rattle.std.specs.Prelude.{◌≡◌, ◌≤◌, OnOk};
ghost use Rattle.filter_host.specs.Course.{Ends};
ghost use Rattle.streams_model.specs.Callbacks.{unless_zero, tells, starts, finishes, forgets, made_one, ticks, tells_ready};
ghost use Rattle.worker_model.specs.Steps.{both};

use crate::calls::call_live;
use crate::traffic::Traffic;
use filter_host::{Callback, Death, Host};
use gate_base::{ContextId, OutOfMemory, QueueId, VmNo};
use std::alloc::Global;
use store_model::Shared;
use worker_model::{ContextAt, NewContext};
use worker_room::{Room, is_zero, may_stream};

/// A callback whose answer says nothing.
pub fn tell<K: Traffic, H: Host, S: Shared>(
    alloc: Global,
    host: &mut H,
    room: &mut Room,
    vm: VmNo,
    name: Callback,
    context: ContextId,
    first: u32,
    shared: &mut S,
) -> Result<(), OutOfMemory>
    requires stores { H.needs host.old ≤ S.stores shared.old }
    ensures needs { H.needs host.new ≡ H.needs host.old }
    ensures stores { S.stores shared.new ≡ S.stores shared.old }
    ensures run { Ends S.performs shared.old (tells K.takes H.calling vm name context first host.old room.old) (λ _. both host.new room.new) result shared.new }
{
    call_live::<K, H, S>(alloc, host, room, vm, name, context, first, 0, shared)?;
    Ok(())
}

/// A VM is dead where it answered 0.
fn die_if_zero<K: Traffic>(
    alloc: Global,
    room: &mut Room,
    vm: VmNo,
    death: Death,
    value: Option<Option<u32>>,
) -> Result<(), OutOfMemory>
    ensures { OnOk result (room.new ≡ unless_zero K.loses vm death value room.old) }
{
    match value {
        None => Ok(()),
        Some(value) => {
            if is_zero(value) {
                return K::die(alloc, room, vm, death);
            }
            Ok(())
        }
    }
}

/// A callback after which the VM is dead where it answered 0.
pub fn start<K: Traffic, H: Host, S: Shared>(
    alloc: Global,
    host: &mut H,
    room: &mut Room,
    vm: VmNo,
    name: Callback,
    root: ContextId,
    size: u32,
    death: Death,
    shared: &mut S,
) -> Result<(), OutOfMemory>
    requires stores { H.needs host.old ≤ S.stores shared.old }
    ensures needs { H.needs host.new ≡ H.needs host.old }
    ensures stores { S.stores shared.new ≡ S.stores shared.old }
    ensures run { Ends S.performs shared.old (starts K.takes H.calling K.loses vm name root size death host.old room.old) (λ _. both host.new room.new) result shared.new }
{
    let value = call_live::<K, H, S>(alloc, host, room, vm, name, root, size, 0, shared)?;
    die_if_zero::<K>(alloc, room, vm, death, value)
}

/// A context is done with.
pub fn finish<K: Traffic, H: Host, S: Shared>(
    alloc: Global,
    host: &mut H,
    room: &mut Room,
    of: ContextAt,
    shared: &mut S,
) -> Result<(), OutOfMemory>
    requires stores { H.needs host.old ≤ S.stores shared.old }
    ensures needs { H.needs host.new ≡ H.needs host.old }
    ensures stores { S.stores shared.new ≡ S.stores shared.old }
    ensures run { Ends S.performs shared.old (finishes K.takes H.calling of host.old room.old) (λ _. both host.new room.new) result shared.new }
{
    let value = call_live::<K, H, S>(
        alloc,
        host,
        room,
        of.vm,
        Callback::Done,
        of.context,
        0,
        0,
        shared,
    )?;
    room.done_with(of, value)
}

/// A context is deleted.
pub fn delete<K: Traffic, H: Host, S: Shared>(
    alloc: Global,
    host: &mut H,
    room: &mut Room,
    of: ContextAt,
    shared: &mut S,
) -> Result<(), OutOfMemory>
    requires stores { H.needs host.old ≤ S.stores shared.old }
    ensures needs { H.needs host.new ≡ H.needs host.old }
    ensures stores { S.stores shared.new ≡ S.stores shared.old }
    ensures run { Ends S.performs shared.old (forgets K.takes H.calling of host.old room.old) (λ _. both host.new room.new) result shared.new }
{
    call_live::<K, H, S>(
        alloc,
        host,
        room,
        of.vm,
        Callback::Delete,
        of.context,
        0,
        0,
        shared,
    )?;
    room.delete(of);
    Ok(())
}

/// A context that was made is told of its making.
pub fn tell_made<K: Traffic, H: Host, S: Shared>(
    alloc: Global,
    host: &mut H,
    room: &mut Room,
    made: Option<NewContext>,
    shared: &mut S,
) -> Result<(), OutOfMemory>
    requires stores { H.needs host.old ≤ S.stores shared.old }
    ensures needs { H.needs host.new ≡ H.needs host.old }
    ensures stores { S.stores shared.new ≡ S.stores shared.old }
    ensures run { Ends S.performs shared.old (made_one K.takes H.calling made host.old room.old) (λ _. both host.new room.new) result shared.new }
{
    match made {
        None => Ok(()),
        Some(c) => {
            let root = c.root.get();
            tell::<K, H, S>(
                alloc,
                host,
                room,
                c.vm,
                Callback::ContextCreate,
                c.context,
                root,
                shared,
            )
        }
    }
}

/// A root is called that is due.
pub fn tick<K: Traffic, H: Host, S: Shared>(
    alloc: Global,
    host: &mut H,
    room: &mut Room,
    vm: VmNo,
    root: ContextId,
    shared: &mut S,
) -> Result<(), OutOfMemory>
    requires stores { H.needs host.old ≤ S.stores shared.old }
    ensures needs { H.needs host.new ≡ H.needs host.old }
    ensures stores { S.stores shared.new ≡ S.stores shared.old }
    ensures run { Ends S.performs shared.old (ticks K.takes H.calling vm root host.old room.old) (λ _. both host.new room.new) result shared.new }
{
    if !room.tick(vm, root) {
        return Ok(());
    }
    tell::<K, H, S>(alloc, host, room, vm, Callback::Tick, root, 0, shared)
}

/// A root is told of an item in a queue.
pub fn tell_ready<K: Traffic, H: Host, S: Shared>(
    alloc: Global,
    host: &mut H,
    room: &mut Room,
    vm: VmNo,
    root: ContextId,
    queue: QueueId,
    shared: &mut S,
) -> Result<(), OutOfMemory>
    requires stores { H.needs host.old ≤ S.stores shared.old }
    ensures needs { H.needs host.new ≡ H.needs host.old }
    ensures stores { S.stores shared.new ≡ S.stores shared.old }
    ensures run { Ends S.performs shared.old (tells_ready K.takes H.calling vm root queue host.old room.old) (λ _. both host.new room.new) result shared.new }
{
    if !may_stream(&room.hub.contexts, vm, root) {
        return Ok(());
    }
    tell::<K, H, S>(
        alloc,
        host,
        room,
        vm,
        Callback::QueueReady,
        root,
        queue.get(),
        shared,
    )
}
