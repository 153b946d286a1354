//! The machines of the VMs of a configuration.

ghost use Rattle.std.specs.Prelude.{◌≡◌, ◌≤◌, ◌<◌, ◌++◌, ◌∷◌, [], length, All, IfOk, OnOk};
ghost use Rattle.vm_machines.specs.Making.{slot_for as slot_of, slots_from, HasFilter};

use gate_base::{OutOfMemory, VmNo};
use gate_config::VmEntry;
use std::alloc::Global;
use vm_host::{Slot, Vms};
use wasm_copy::copy_module;

/// The VM of a number, on which nothing has run; one without a module is never started.
fn slot_for(alloc: Global, place: VmNo, entry: &VmEntry) -> Result<Slot, OutOfMemory>
    requires { HasFilter entry.now }
    ensures { IfOk result (λ s. s ≡ slot_of place entry.now) }
{
    match &entry.code {
        Some(code) => {
            let copy = copy_module(alloc, code)?;
            Slot::new(alloc, place, copy, entry.pages, entry.fuel)
        }
        None => Ok(Slot::empty(alloc)),
    }
}

/// Puts the VM of the next number at the end.
fn push_slot(alloc: Global, place: usize, entry: &VmEntry, all: &mut Vms) -> Result<(), OutOfMemory>
    requires few { place < 16 }
    requires filter { HasFilter entry.now }
    ensures { OnOk result (all.new.slots ≡ all.old.slots ++ slot_of place entry.now ∷ []) }
{
    let Some(place) = VmNo::new(place as u8) else {
        unreachable!()
    };
    let slot = slot_for(alloc, place, entry)?;
    all.push(slot)
}

/// Puts the VMs of a configuration, by their numbers, where there are none.
fn push_slots(alloc: Global, vms: &[VmEntry], all: &mut Vms) -> Result<(), OutOfMemory>
    requires few { length vms.now ≤ 16 }
    requires filters { All HasFilter vms.now }
    requires none { all.old.slots ≡ [] }
    ensures { OnOk result (all.new.slots ≡ slots_from 0 vms.now) }
{
    for i in 0..vms.len() {
        push_slot(alloc, i, &vms[i], all)?;
    }
    Ok(())
}

/// The VMs of a configuration, by their numbers, on which nothing has run. The module of each that has one is a filter's
/// with its pages.
pub fn machines(alloc: Global, vms: &[VmEntry]) -> Result<Vms, OutOfMemory>
    requires few { length vms.now ≤ 16 }
    requires filters { All HasFilter vms.now }
    ensures { IfOk result (λ all. all.slots ≡ slots_from 0 vms.now) }
{
    let mut all = Vms::new(alloc);
    match push_slots(alloc, vms, &mut all) {
        Ok(()) => Ok(all),
        Err(end) => Err(end),
    }
}
