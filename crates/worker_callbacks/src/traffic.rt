// What the lines of a worker carry.
ghost use Rattle.std.specs.Prelude.{◌≡◌, refl, OnOk};
ghost use Rattle.streams_model.specs.Callbacks.{Takes, Loses};
ghost use Rattle.worker_callbacks.specs.Renewing.{Renews};
ghost use Rattle.worker_model.specs.Rooms.{take_callback_end, lose_vm_in};

use filter_host::{CallbackEnd, Death};
use gate_base::{OutOfMemory, VmNo};
use gate_io::SentList;
use std::alloc::Global;
use worker_model::Owner;
use worker_room::Room;

/// What the lines of a worker carry: it decides what the effects of a callback and the death of a VM do to them.
pub trait Traffic {
    /// What the end of a callback does to a worker.
    ghost takes: { Takes };

    /// What the death of a VM does to it.
    ghost loses: { Loses };

    /// What a callback wrote into the log is sent, and then come its effects, or the VM's death.
    fn answer(
        alloc: Global,
        room: &mut Room,
        vm: VmNo,
        own: &Owner,
        end: CallbackEnd,
        lines: SentList,
    ) -> Result<(), OutOfMemory>
        ensures { OnOk result (room.new ≡ takes vm own.now end lines room.old.hub.contexts room.old) };

    /// A VM died.
    fn die(alloc: Global, room: &mut Room, vm: VmNo, death: Death) -> Result<(), OutOfMemory>
        ensures { OnOk result (room.new ≡ loses vm death room.old) };

    /// What the end of a callback does goes by the contexts as the callback left them.
    ghost renews: { Renews takes };
}

/// HTTP exchanges.
pub struct Http;

impl Traffic for Http {
    ghost takes = { take_callback_end };

    ghost loses = { lose_vm_in };

    fn answer(
        alloc: Global,
        room: &mut Room,
        vm: VmNo,
        own: &Owner,
        end: CallbackEnd,
        lines: SentList,
    ) -> Result<(), OutOfMemory> {
        room.answer(alloc, vm, own, end, lines)
    }

    fn die(alloc: Global, room: &mut Room, vm: VmNo, death: Death) -> Result<(), OutOfMemory> {
        room.die(alloc, vm, death)
    }

    ghost renews = { λ vm own end lines h before room. refl };
}
