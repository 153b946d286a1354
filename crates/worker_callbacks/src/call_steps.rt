// What is done for a callout, a step at a time.
ghost use Rattle.std.specs.Prelude.{◌≡◌, ◌≤◌, None};
ghost use Rattle.callouts.specs.Callouts.{callout_in};
ghost use Rattle.filter_host.specs.Course.{Ends};
ghost use Rattle.filter_host.specs.declared.host.Callback.TheVariants.{CallAnswered};
ghost use Rattle.worker_model.specs.Calls.{answer_if};
ghost use Rattle.streams_model.specs.Callbacks.{calls_live, tells_call, ends_call, works_call};
ghost use Rattle.worker_model.specs.Steps.{both, drop_answer};

use crate::calls::call_live;
use crate::traffic::Traffic;
use callouts::{CallStep, Callout};
use contexts::CallAnswer;
use filter_host::{Callback, Host};
use gate_base::{ContextId, OutOfMemory, VmNo};
use std::alloc::Global;
use store_model::Shared;
use worker_room::Room;

/// What was read of a callout, where that is its answer.
fn answer_if(is_answered: bool, c: Callout) -> Option<CallAnswer>
    ensures { result ≡ answer_if is_answered c }
{
    if is_answered { Some(c.answer) } else { None }
}

/// A context is told of the end of a callout. Then it has nothing of the answer.
fn tell_answer<K: Traffic, H: Host, S: Shared>(
    alloc: Global,
    host: &mut H,
    room: &mut Room,
    vm: VmNo,
    context: ContextId,
    id: u32,
    shared: &mut S,
) -> Result<(), OutOfMemory>
    requires stores { H.needs host.old ≤ S.stores shared.old }
    ensures needs { H.needs host.new ≡ H.needs host.old }
    ensures stores { S.stores shared.new ≡ S.stores shared.old }
    ensures run { Ends S.performs shared.old (calls_live K.takes H.calling vm CallAnswered context id 0 (drop_answer vm context) host.old room.old) (λ _. both host.new room.new) result shared.new }
{
    let name = Callback::CallAnswered;
    call_live::<K, H, S>(alloc, host, room, vm, name, context, id, 0, shared)?;
    room.put_call_answer(vm, context, None);
    Ok(())
}

/// The context of a callout is told of its end, if it is there still, and has what was read of it meanwhile, where that is its answer.
fn tell_end<K: Traffic, H: Host, S: Shared>(
    alloc: Global,
    host: &mut H,
    room: &mut Room,
    c: Callout,
    is_answered: bool,
    shared: &mut S,
) -> Result<(), OutOfMemory>
    requires stores { H.needs host.old ≤ S.stores shared.old }
    ensures needs { H.needs host.new ≡ H.needs host.old }
    ensures stores { S.stores shared.new ≡ S.stores shared.old }
    ensures run { Ends S.performs shared.old (tells_call K.takes H.calling (answer_if is_answered c) c host.old room.old) (λ _. both host.new room.new) result shared.new }
{
    if !room.has_listener(&c) {
        return Ok(());
    }
    let vm = c.vm;
    let context = c.context;
    let id = c.id;
    room.put_call_answer(vm, context, answer_if(is_answered, c));
    tell_answer::<K, H, S>(alloc, host, room, vm, context, id, shared)
}

/// A callout was answered or has failed: its connection is closed, and its context is told.
fn end_call<K: Traffic, H: Host, S: Shared>(
    alloc: Global,
    host: &mut H,
    room: &mut Room,
    id: u32,
    is_answered: bool,
    shared: &mut S,
) -> Result<(), OutOfMemory>
    requires stores { H.needs host.old ≤ S.stores shared.old }
    ensures needs { H.needs host.new ≡ H.needs host.old }
    ensures stores { S.stores shared.new ≡ S.stores shared.old }
    ensures run { Ends S.performs shared.old (ends_call K.takes H.calling is_answered id (callout_in id room.old.calls) host.old room.old) (λ _. both host.new room.new) result shared.new }
{
    match room.close_call(id)? {
        None => Ok(()),
        Some(c) => tell_end::<K, H, S>(alloc, host, room, c, is_answered, shared),
    }
}

/// A step of a callout.
pub fn work_call<K: Traffic, H: Host, S: Shared>(
    alloc: Global,
    host: &mut H,
    room: &mut Room,
    step: CallStep,
    shared: &mut S,
) -> Result<(), OutOfMemory>
    requires stores { H.needs host.old ≤ S.stores shared.old }
    ensures needs { H.needs host.new ≡ H.needs host.old }
    ensures stores { S.stores shared.new ≡ S.stores shared.old }
    ensures run { Ends S.performs shared.old (works_call K.takes H.calling step host.old room.old) (λ _. both host.new room.new) result shared.new }
{
    match step {
        CallStep::Comes { what } => room.take_call_event(alloc, &what),
        CallStep::Read { id } => room.read_call(alloc, id),
        CallStep::Fail { id } => end_call::<K, H, S>(alloc, host, room, id, false, shared),
        CallStep::Answer { id } => end_call::<K, H, S>(alloc, host, room, id, true, shared),
    }
}
