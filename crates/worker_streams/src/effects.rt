// What the effects of a callback do to lines of streams, and the death of a VM.
ghost use Rattle.std.specs.Prelude.{◌≡◌, refl, OnOk};
ghost use Rattle.worker_model.specs.Rooms.{without_effects};
ghost use Rattle.streams_model.specs.Rooms.{lose_lines, lose_vm_in, resumes, apply_effect, effects_of, after_callback, take_callback_end};

use crate::dying::die_all;
use crate::rooms::on_context;
use contexts::{Effect, EffectKind};
use filter_host::{CallbackEnd, Death};
use gate_base::{OutOfMemory, VmNo};
use gate_io::SentList;
use gate_queue::{Queue, queued};
use std::alloc::Global;
use streams_model::Change;
use worker_callbacks::Traffic;
use worker_model::Owner;
use worker_room::{Room, is_own_stage};

/// Streams of bytes.
pub struct Streams;

/// What the stage of a context holds goes on, unless it is the one whose callback it is.
fn go_on(
    alloc: Global,
    room: &mut Room,
    vm: VmNo,
    own: &Owner,
    effect: &Effect,
    response: bool,
) -> Result<(), OutOfMemory>
    ensures { OnOk result (room.new ≡ resumes vm own.now effect.now.context response room.old) }
{
    if is_own_stage(own, effect.context, response) {
        return Ok(());
    }
    let context = effect.context;
    let what = Change::Resume {
        vm,
        context,
        response,
    };
    on_context(alloc, room, vm, context, what)
}

/// An effect of a callback.
fn one_effect(
    alloc: Global,
    room: &mut Room,
    vm: VmNo,
    own: &Owner,
    effect: &Effect,
) -> Result<(), OutOfMemory>
    ensures { OnOk result (room.new ≡ apply_effect vm own.now effect.now.context effect.now.what room.old) }
{
    match &effect.what {
        EffectKind::Continue { is_response } => {
            go_on(alloc, room, vm, own, effect, *is_response)
        }
        EffectKind::Close => on_context(alloc, room, vm, effect.context, Change::Close),
        EffectKind::Answer { .. } => Ok(()),
        EffectKind::Call { request } => room.begin_call(alloc, request),
    }
}

/// The effects of a callback, in the order of its calls.
fn all_effects(
    alloc: Global,
    room: &mut Room,
    vm: VmNo,
    own: &Owner,
    effects: Queue<Effect>,
) -> Result<(), OutOfMemory>
    ensures { OnOk result (room.new ≡ effects_of vm own.now effects room.old) }
{
    let mut rest = effects.drain();
    while let Some(effect) = rest.pop_first() {
        one_effect(alloc, room, vm, own, &effect)?;
    }
    Ok(())
}

/// All lines end or let the stages of a VM through.
fn die_on_lines(alloc: Global, room: &mut Room, vm: VmNo) -> Result<(), OutOfMemory>
    ensures { OnOk result (room.new ≡ lose_lines vm room.old) }
{
    let lines = std::mem::replace(&mut room.tcp, Queue::new(alloc));
    room.tcp = die_all(alloc, vm, lines, &mut room.hub)?;
    Ok(())
}

/// A VM died.
pub(crate) fn die(alloc: Global, room: &mut Room, vm: VmNo, death: Death) -> Result<(), OutOfMemory>
    ensures { OnOk result (room.new ≡ lose_vm_in vm death room.old) }
{
    room.die(alloc, vm, death)?;
    die_on_lines(alloc, room, vm)
}

/// After a callback: its effects, or the VM's death.
fn go_after(
    alloc: Global,
    room: &mut Room,
    vm: VmNo,
    own: &Owner,
    end: CallbackEnd,
    effects: Queue<Effect>,
) -> Result<(), OutOfMemory>
    ensures { OnOk result (room.new ≡ after_callback vm own.now end effects room.old) }
{
    match end {
        CallbackEnd::Returned { .. } => all_effects(alloc, room, vm, own, effects),
        CallbackEnd::Died { death } => die(alloc, room, vm, death),
    }
}

/// The effects of a callback are done, or its VM is dead.
fn do_effects(
    alloc: Global,
    room: &mut Room,
    vm: VmNo,
    own: &Owner,
    end: CallbackEnd,
) -> Result<(), OutOfMemory>
    ensures { OnOk result (room.new ≡ after_callback vm own.now end room.old.hub.contexts.effects (without_effects room.old)) }
{
    let effects = queued(alloc, room.take_effects(alloc))?;
    go_after(alloc, room, vm, own, end, effects)
}

impl Traffic for Streams {
    ghost takes = { take_callback_end };

    ghost loses = { lose_vm_in };

    fn answer(
        alloc: Global,
        room: &mut Room,
        vm: VmNo,
        own: &Owner,
        end: CallbackEnd,
        lines: SentList,
    ) -> Result<(), OutOfMemory> {
        room.send_lines(alloc, lines)?;
        do_effects(alloc, room, vm, own, end)
    }

    fn die(alloc: Global, room: &mut Room, vm: VmNo, death: Death) -> Result<(), OutOfMemory> {
        die(alloc, room, vm, death)
    }

    ghost renews = { λ vm own end lines h before room. refl };
}
