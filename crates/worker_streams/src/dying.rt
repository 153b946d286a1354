// A VM died: lines end, or let its stages through.
ghost use Rattle.std.specs.Prelude.{◌≡◌, ◌==◌, ◌&&◌, OnOk, IfOk, slice_get};
ghost use Rattle.exchange.specs.Passing.{has_stage_of};
ghost use Rattle.tcp_filters.specs.Lines.{chain_of};
ghost use Rattle.streams_model.specs.Lines.{stage_is_of, bypass_vm_at, bypass_vm_stages, bypass_vm, is_there, fails_closed, in_line, close_stream, lose_vm};
ghost use Rattle.streams_model.specs.Rooms.{all_lines};

use crate::lines::{close, give_back, lend, take_outcome};
use exchange::{Filter, Hub};
use filter_chain::Stage;
use gate_base::{ContextId, OutOfMemory, VmNo};
use gate_queue::Queue;
use std::alloc::Global;
use tcp_filters::TcpLine as Passing;
use worker_model::TcpLine;

/// The stages of a direction.
fn stages(response: bool, s: &Passing) -> &[Stage]
    ensures { result.now ≡ chain_of response s.now }
{
    if response {
        s.up.as_slice()
    } else {
        s.down.as_slice()
    }
}

/// Whether the stage at a place of a direction is of a VM.
fn is_of_vm(response: bool, vm: VmNo, at: usize, s: &Passing) -> bool
    ensures { result ≡ stage_is_of vm (slice_get (chain_of response s.now) at) }
{
    match stages(response, s).get(at) {
        None => false,
        Some(stage) => stage.vm == vm,
    }
}

/// The stage at a place is let through, where it is of that VM.
fn open_at(
    alloc: Global,
    response: bool,
    vm: VmNo,
    at: usize,
    s: &mut Passing,
    hub: &mut Hub,
) -> Result<(), OutOfMemory>
    ensures { OnOk result (bypass_vm_at response vm at s.old hub.old ≡ (s.new, hub.new)) }
{
    if !is_of_vm(response, vm, at, s) {
        return Ok(());
    }
    let outcome = s.let_through(alloc, &mut hub.contexts, response, at)?;
    take_outcome(alloc, outcome, s, hub)
}

/// The stages of a VM among the first so many are let through.
fn open_some(
    alloc: Global,
    response: bool,
    vm: VmNo,
    count: usize,
    s: &mut Passing,
    hub: &mut Hub,
) -> Result<(), OutOfMemory>
    ensures { OnOk result (bypass_vm_stages response vm count (s.old, hub.old) ≡ (s.new, hub.new)) }
{
    let mut at = count;
    while at > 0 {
        at -= 1;
        open_at(alloc, response, vm, at, s, hub)?;
    }
    Ok(())
}

/// All stages of a VM are let through, those that bytes of the client pass first.
fn open_all(alloc: Global, vm: VmNo, s: &mut Passing, hub: &mut Hub) -> Result<(), OutOfMemory>
    ensures { OnOk result (bypass_vm vm s.old hub.old ≡ (s.new, hub.new)) }
{
    let down = s.down.len();
    open_some(alloc, false, vm, down, s, hub)?;
    let up = s.up.len();
    open_some(alloc, true, vm, up, s, hub)
}

/// Whether there is a stage of a context of a VM.
fn has_stage_of(stages: &[Stage], vm: VmNo, context: ContextId) -> bool
    ensures { result ≡ has_stage_of vm context stages.now }
{
    stages.iter().any(|s| s.vm == vm && s.context == context)
}

/// Whether the line has a stage of a filter, or will have one.
fn is_there(l: &TcpLine, f: Filter) -> bool
    ensures { result ≡ is_there l.now f }
{
    (has_stage_of(l.down.as_slice(), f.vm, f.context)
        || has_stage_of(l.up.as_slice(), f.vm, f.context))
        || !l.is_entered
}

/// Whether a filter of a VM is there that lets nothing pass once its VM is dead.
fn fails_closed(l: &TcpLine, vm: VmNo) -> bool
    ensures { result ≡ fails_closed vm l.now }
{
    l.filters
        .as_slice()
        .iter()
        .any(|f| (f.vm == vm && !f.fails_open) && is_there(l, *f))
}

/// The connection of a line comes to its end.
fn close_line(alloc: Global, l: &mut TcpLine, hub: &mut Hub)
    ensures { in_line close_stream l.old hub.old ≡ (l.new, hub.new) }
{
    let mut s = lend(alloc, l);
    close(alloc, &mut s, hub);
    give_back(l, s);
}

/// The stages of a VM on a line are let through.
fn open_line(alloc: Global, vm: VmNo, l: &mut TcpLine, hub: &mut Hub) -> Result<(), OutOfMemory>
    ensures { OnOk result (in_line (bypass_vm vm) l.old hub.old ≡ (l.new, hub.new)) }
{
    let mut s = lend(alloc, l);
    let done = open_all(alloc, vm, &mut s, hub);
    give_back(l, s);
    done
}

/// A VM died, of which a line may have filters.
fn die_line(alloc: Global, vm: VmNo, l: &mut TcpLine, hub: &mut Hub) -> Result<(), OutOfMemory>
    ensures { OnOk result (lose_vm vm l.old hub.old ≡ (l.new, hub.new)) }
{
    if l.has_ended {
        return Ok(());
    }
    if fails_closed(l, vm) {
        close_line(alloc, l, hub);
        return Ok(());
    }
    open_line(alloc, vm, l, hub)
}

/// A VM died: what becomes of all lines.
#[tactic(auto, using(crate::proofs::Losses::in_front_more))]
pub(crate) fn die_all(
    alloc: Global,
    vm: VmNo,
    lines: Queue<TcpLine>,
    hub: &mut Hub,
) -> Result<Queue<TcpLine>, OutOfMemory>
    ensures { IfOk result (λ new. all_lines (lose_vm vm) lines hub.old ≡ (new, hub.new)) }
{
    let mut done = Queue::new(alloc);
    let mut rest = lines.drain();
    while let Some(l) = rest.pop_first() {
        let mut line = l;
        die_line(alloc, vm, &mut line, hub)?;
        done.push(line)?;
    }
    Ok(done)
}
