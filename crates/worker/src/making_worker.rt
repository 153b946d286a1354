// A worker that has done nothing.
ghost use Rattle.std.specs.List.{list_any};
ghost use Rattle.std.specs.Prelude.{◌≡◌, ◌≤◌, [], ◌++◌, map, length, IfOk, OnOk};
ghost use Rattle.worker_model.specs.Making.{with_vms, with_plugins, contexts_of, first_room, bodies_by, bodies_of, runs_on, is_told, registers_of};
ghost use Rattle.worker_model.specs.Turn.{first_vms};

use crate::agenda::vm_of;
use contexts::{Configuration, Contexts, ShortName};
use exchange::Hub;
use filter_host::{Callback, Host};
use gate_base::{OutOfMemory, VmNo};
use gate_config::{Config, PluginEntry, VmEntry};
use gate_queue::Queue;
use std::alloc::{AllocError, Global};
use worker_lines::Lines;
use worker_model::Bodies;
use worker_room::Room;

/// Which bodies a plug-in filters.
fn bodies_by<H: Host>(host: &H, p: &PluginEntry) -> Bodies
    ensures { result ≡ bodies_by H.exported H.registering host.now p.now }
{
    Bodies {
        requests: host.exports(p.vm, Callback::RequestBody),
        responses: host.exports(p.vm, Callback::ResponseBody),
    }
}

/// Which bodies the plug-ins filter.
fn bodies_of<H: Host>(
    alloc: Global,
    host: &H,
    plugins: &[PluginEntry],
) -> Result<Queue<Bodies>, OutOfMemory>
    ensures { IfOk result (λ bodies. bodies ≡ bodies_of H.exported H.registering host.now plugins.now) }
{
    let mut bodies = Queue::new(alloc);
    for p in plugins {
        bodies.push(bodies_by(host, p))?;
    }
    Ok(bodies)
}

/// Whether a plug-in is run by a VM.
fn runs_on(vm: VmNo, p: &PluginEntry) -> bool
    ensures { result ≡ runs_on vm p.now }
{
    p.vm == vm
}

/// Whether a plug-in names a VM.
fn is_named(vm: VmNo, plugins: &[PluginEntry]) -> bool
    ensures { result ≡ list_any (runs_on vm) plugins.now }
{
    plugins.iter().any(|p| runs_on(vm, p))
}

/// Whether a VM is told of the items of its queues.
fn is_told<H: Host>(host: &H, plugins: &[PluginEntry], vm: VmNo) -> bool
    ensures { result ≡ is_told H.exported H.registering plugins.now host.now vm }
{
    is_named(vm, plugins) && host.registers(vm)
}

/// Which VMs are told of the items of their queues, of so many.
fn registers_of<H: Host>(
    alloc: Global,
    host: &H,
    plugins: &[PluginEntry],
    vms: usize,
) -> Result<Queue<bool>, OutOfMemory>
    ensures { IfOk result (λ registers. registers ≡ registers_of H.exported H.registering plugins.now host.now (first_vms vms)) }
{
    let count = if vms <= 16 { vms as u8 } else { 16 };
    let mut registers = Queue::new(alloc);
    for n in 0..count {
        registers.push(is_told(host, plugins, vm_of(n)))?;
    }
    Ok(registers)
}

/// A name. (Those of a configuration are short.)
fn short_name(alloc: Global, name: &[u8]) -> Result<ShortName, OutOfMemory>
    ensures { IfOk result (λ n. n ≡ name.now) }
{
    if name.len() > 32 {
        return Err(AllocError);
    }
    ShortName::of(alloc, name)
}

/// What is configured. (Those of a configuration are short.)
fn configuration_of(alloc: Global, bytes: &[u8]) -> Result<Configuration, OutOfMemory>
    ensures { IfOk result (λ c. c ≡ bytes.now) }
{
    if bytes.len() > 65_536 {
        return Err(AllocError);
    }
    Configuration::of(alloc, bytes)
}

/// Adds VMs to contexts.
fn add_vms(alloc: Global, h: &mut Contexts, vms: &[VmEntry]) -> Result<(), OutOfMemory>
    ensures { OnOk result (h.new ≡ with_vms h.old vms.now) }
{
    for v in vms {
        let name = short_name(alloc, v.name.as_str().as_bytes())?;
        let configuration = configuration_of(alloc, v.configuration.as_slice())?;
        h.add_vm(alloc, name, configuration)?;
    }
    Ok(())
}

/// Adds plug-ins to contexts.
fn add_plugins(alloc: Global, h: &mut Contexts, plugins: &[PluginEntry]) -> Result<(), OutOfMemory>
    ensures { OnOk result (h.new ≡ with_plugins h.old plugins.now) }
{
    for p in plugins {
        let name = short_name(alloc, p.name.as_str().as_bytes())?;
        let configuration = configuration_of(alloc, p.configuration.as_slice())?;
        h.add_plugin(p.vm, name, configuration)?;
    }
    Ok(())
}

/// No line is open, and no VM has started.
fn first_room(alloc: Global, config: &Config, seed: [u8; 32]) -> Result<Room, OutOfMemory>
    ensures { IfOk result (λ room. room ≡ first_room config.now seed) }
{
    let mut contexts = Contexts::new(alloc, config.log_level, seed);
    add_vms(alloc, &mut contexts, config.vms.as_slice())?;
    add_plugins(alloc, &mut contexts, config.plugins.as_slice())?;
    let hub = Hub {
        moment: 0,
        contexts,
        sent: Queue::new(alloc),
    };
    Ok(Room {
        lines: Lines::new(alloc),
        hub,
        reading: None,
        jobs: Queue::new(alloc),
        agenda: Queue::new(alloc),
        waits: Queue::new(alloc),
        dead: Queue::new(alloc),
        is_begun: false,
        calls: Queue::new(alloc),
        tcp: Queue::new(alloc),
    })
}

/// What a worker over these machines is made of: which bodies its plug-ins filter, which VMs are told of the items of their queues, and
/// its room.
pub(crate) fn parts_of<H: Host>(
    alloc: Global,
    host: &H,
    config: &Config,
    seed: [u8; 32],
) -> Result<(Queue<Bodies>, Queue<bool>, Room), OutOfMemory>
    ensures bodies { IfOk result (λ p. p.0 ≡ bodies_of H.exported H.registering host.now config.now.plugins) }
    ensures registers { IfOk result (λ p. p.1 ≡ registers_of H.exported H.registering config.now.plugins host.now (first_vms (length config.now.vms))) }
    ensures room { IfOk result (λ p. p.2 ≡ first_room config.now seed) }
{
    let plugins = config.plugins.as_slice();
    let bodies = bodies_of(alloc, host, plugins)?;
    let registers = registers_of(alloc, host, plugins, config.vms.len())?;
    let room = first_room(alloc, config, seed)?;
    Ok((bodies, registers, room))
}
