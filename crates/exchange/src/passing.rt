// What becomes of an exchange.
ghost use Rattle.std.specs.Prelude.{◌≡◌, true, false, not, [], ◌∷◌, ◌++◌, ◌<◌, length, OnOk, IfOk, ℕ, Some, slice_get, position, ◌==◌, ◌&&◌};
ghost use Rattle.std.specs.List.{list_any};
ghost use Rattle.filter_chain.specs.Chains.{put, continued, let_through};
ghost use Rattle.exchange.specs.Answering.{with_held};
ghost use Rattle.exchange.specs.Passing.{chain_of, with_chain, finish_put, take_move, take_put, takes_nothing, put_to_chain, put_all_to_chain, resume_held, bypass, put_read_items, stage_of, resume_context, resume_place, close_exchange, pause_held, apply_action, has_stage_of, is_there, fails_closed, bypass_vm_at, bypass_vm_stages, bypass_vm_response, bypass_vm, lose_vm, refuse_exchange, expire_exchange};

use crate::answering::{answer_fixed, answer_plainly, cut_off, go_down, shut};
use crate::heads::{is_due, passes_filters, shuts};
use crate::leaving::leave_all;
use crate::types::{Exchange, Filter, Hub};
use filter_chain::{Chain, ChainItem, PassOutcome, Stage};
use gate_base::{ContextId, LineNo, OutOfMemory, VmNo};
use gate_queue::Queue;
use std::alloc::Global;

/// The chain of a direction.
fn chain(response: bool, x: &Exchange) -> &Chain
    ensures { result.now ≡ chain_of response x.now }
{
    if response { &x.response } else { &x.request }
}

/// What comes of passing items on.
pub fn pass_on(
    alloc: Global,
    response: bool,
    n: LineNo,
    passed: PassOutcome,
    x: &mut Exchange,
    hub: &mut Hub,
) -> Result<(), OutOfMemory>
    ensures { OnOk result (finish_put response n passed x.old hub.old ≡ (x.new, hub.new)) }
{
    if response {
        return go_down(alloc, n, passed, x, hub);
    }
    match passed {
        PassOutcome::Over => answer_plainly(alloc, n, true, 413, x, hub),
        PassOutcome::Left { items } => leave_all(alloc, false, n, items, x, hub),
    }
}

/// Whether nothing comes to a chain any more.
fn takes_nothing(response: bool, x: &Exchange) -> bool
    ensures { result ≡ takes_nothing response x.now }
{
    x.has_ended || (!response && x.is_answered)
}

/// An item comes to a chain.
fn put_one(
    alloc: Global,
    response: bool,
    n: LineNo,
    item: ChainItem,
    x: &mut Exchange,
    hub: &mut Hub,
) -> Result<(), OutOfMemory>
    ensures { OnOk result (put_to_chain response n item (x.old, hub.old) ≡ (x.new, hub.new)) }
{
    if takes_nothing(response, x) {
        return Ok(());
    }
    let passed = if response {
        x.response.put(alloc, &hub.contexts, item)?
    } else {
        x.request.put(alloc, &hub.contexts, item)?
    };
    pass_on(alloc, response, n, passed, x, hub)
}

/// Items come to a chain, one after another.
fn put_all(
    alloc: Global,
    response: bool,
    n: LineNo,
    items: Queue<ChainItem>,
    x: &mut Exchange,
    hub: &mut Hub,
) -> Result<(), OutOfMemory>
    ensures { OnOk result (put_all_to_chain response n items (x.old, hub.old) ≡ (x.new, hub.new)) }
{
    let mut rest = items.drain();
    while let Some(item) = rest.pop_first() {
        put_one(alloc, response, n, item, x, hub)?;
    }
    Ok(())
}

/// What was read comes to a chain, unless the exchange was answered.
pub fn put_in(
    alloc: Global,
    response: bool,
    items: Queue<ChainItem>,
    n: LineNo,
    x: &mut Exchange,
    hub: &mut Hub,
) -> Result<(), OutOfMemory>
    ensures { OnOk result (put_read_items response items n x.old hub.old ≡ (x.new, hub.new)) }
{
    if x.is_answered {
        return Ok(());
    }
    put_all(alloc, response, n, items, x, hub)
}

/// What a stage of the request holds goes on.
fn go_on_request(
    alloc: Global,
    n: LineNo,
    k: usize,
    x: &mut Exchange,
    hub: &mut Hub,
) -> Result<(), OutOfMemory>
    ensures { OnOk result (resume_held false n k x.old hub.old ≡ (x.new, hub.new)) }
{
    if x.has_ended || k >= x.request.len() {
        return Ok(());
    }
    let passed = x.request.release(alloc, &mut hub.contexts, k)?;
    pass_on(alloc, false, n, passed, x, hub)
}

/// What a stage of the response holds goes on.
fn go_on_response(
    alloc: Global,
    n: LineNo,
    k: usize,
    x: &mut Exchange,
    hub: &mut Hub,
) -> Result<(), OutOfMemory>
    ensures { OnOk result (resume_held true n k x.old hub.old ≡ (x.new, hub.new)) }
{
    if x.has_ended || k >= x.response.len() {
        return Ok(());
    }
    let passed = x.response.release(alloc, &mut hub.contexts, k)?;
    go_down(alloc, n, passed, x, hub)
}

/// What a stage holds goes on.
fn go_on(
    alloc: Global,
    response: bool,
    n: LineNo,
    k: usize,
    x: &mut Exchange,
    hub: &mut Hub,
) -> Result<(), OutOfMemory>
    ensures { OnOk result (resume_held response n k x.old hub.old ≡ (x.new, hub.new)) }
{
    if response {
        go_on_response(alloc, n, k, x, hub)
    } else {
        go_on_request(alloc, n, k, x, hub)
    }
}

/// A stage of the request is let through.
fn give_way_request(
    alloc: Global,
    n: LineNo,
    k: usize,
    x: &mut Exchange,
    hub: &mut Hub,
) -> Result<(), OutOfMemory>
    ensures { OnOk result (bypass false n k x.old hub.old ≡ (x.new, hub.new)) }
{
    if x.has_ended || k >= x.request.len() {
        return Ok(());
    }
    let passed = x.request.let_through(alloc, &mut hub.contexts, k)?;
    pass_on(alloc, false, n, passed, x, hub)
}

/// A stage of the response is let through.
fn give_way_response(
    alloc: Global,
    n: LineNo,
    k: usize,
    x: &mut Exchange,
    hub: &mut Hub,
) -> Result<(), OutOfMemory>
    ensures { OnOk result (bypass true n k x.old hub.old ≡ (x.new, hub.new)) }
{
    if x.has_ended || k >= x.response.len() {
        return Ok(());
    }
    let passed = x.response.let_through(alloc, &mut hub.contexts, k)?;
    go_down(alloc, n, passed, x, hub)
}

/// A stage is let through.
fn give_way(
    alloc: Global,
    response: bool,
    n: LineNo,
    k: usize,
    x: &mut Exchange,
    hub: &mut Hub,
) -> Result<(), OutOfMemory>
    ensures { OnOk result (bypass response n k x.old hub.old ≡ (x.new, hub.new)) }
{
    if response {
        give_way_response(alloc, n, k, x, hub)
    } else {
        give_way_request(alloc, n, k, x, hub)
    }
}

/// Where the stage of a context of a VM stands.
fn place_of(stages: &[Stage], vm: VmNo, context: ContextId) -> Option<usize>
    ensures { result ≡ stage_of vm context stages.now }
{
    stages
        .iter()
        .position(|s| s.vm == vm && s.context == context)
}

/// The stage of a context goes on.
pub fn resume(
    alloc: Global,
    vm: VmNo,
    context: ContextId,
    response: bool,
    n: LineNo,
    x: &mut Exchange,
    hub: &mut Hub,
) -> Result<(), OutOfMemory>
    ensures { OnOk result (resume_context vm context response n x.old hub.old ≡ (x.new, hub.new)) }
{
    match place_of(chain(response, x).as_slice(), vm, context) {
        None => Ok(()),
        Some(k) => go_on(alloc, response, n, k, x, hub),
    }
}

/// Both connections are closed.
pub fn close(alloc: Global, x: &mut Exchange, hub: &mut Hub)
    ensures { (n : ℕ) → close_exchange n x.old hub.old ≡ (x.new, hub.new) }
{
    if !x.has_ended {
        cut_off(alloc, x, hub);
    }
}

/// The body callback of a stage has returned.
fn pause(response: bool, k: usize, x: &Exchange, hub: &mut Hub)
    ensures { hub.new ≡ pause_held response k x.now hub.old }
{
    let stages = chain(response, x);
    if k < stages.len() {
        stages.pause(&mut hub.contexts, k);
    }
}

/// The action of a callback of a stage is put in force.
pub fn act(
    alloc: Global,
    response: bool,
    k: usize,
    value: u32,
    n: LineNo,
    x: &mut Exchange,
    hub: &mut Hub,
) -> Result<(), OutOfMemory>
    ensures { OnOk result (apply_action response k value n x.old hub.old ≡ (x.new, hub.new)) }
{
    pause(response, k, x, hub);
    if value == 0 {
        return go_on(alloc, response, n, k, x, hub);
    }
    Ok(())
}

/// Whether there is a stage of a context of a VM.
fn has_stage_of(stages: &[Stage], vm: VmNo, context: ContextId) -> bool
    ensures { result ≡ has_stage_of vm context stages.now }
{
    stages.iter().any(|s| s.vm == vm && s.context == context)
}

/// Whether the exchange has a stage of a filter, or will have one.
fn is_there(x: &Exchange, f: Filter) -> bool
    ensures { result ≡ is_there x.now f }
{
    (has_stage_of(x.request.as_slice(), f.vm, f.context)
        || has_stage_of(x.response.as_slice(), f.vm, f.context))
        || (!x.is_entered && !x.is_answered)
}

/// Whether a filter of a VM is there that lets nothing pass once its VM is dead.
fn fails_closed(x: &Exchange, vm: VmNo) -> bool
    ensures { result ≡ fails_closed vm x.now }
{
    x.filters
        .as_slice()
        .iter()
        .any(|f| (f.vm == vm && !f.fails_open) && is_there(x, *f))
}

/// The stage at a place is let through, where it is of that VM.
fn open_at(
    alloc: Global,
    response: bool,
    vm: VmNo,
    n: LineNo,
    k: usize,
    x: &mut Exchange,
    hub: &mut Hub,
) -> Result<(), OutOfMemory>
    ensures { OnOk result (bypass_vm_at response vm n k (slice_get (chain_of response x.old) k) x.old hub.old ≡ (x.new, hub.new)) }
{
    match chain(response, x).stage_at(k) {
        Some((machine, _)) => {
            if machine == vm {
                return give_way(alloc, response, n, k, x, hub);
            }
            Ok(())
        }
        None => Ok(()),
    }
}

/// The stages of a VM among the first so many are let through.
fn open_some(
    alloc: Global,
    response: bool,
    vm: VmNo,
    n: LineNo,
    count: usize,
    x: &mut Exchange,
    hub: &mut Hub,
) -> Result<(), OutOfMemory>
    ensures { OnOk result (bypass_vm_stages response vm n count (x.old, hub.old) ≡ (x.new, hub.new)) }
{
    let mut k = count;
    while k > 0 {
        k -= 1;
        open_at(alloc, response, vm, n, k, x, hub)?;
    }
    Ok(())
}

/// All stages of a VM are let through, those of the request first.
fn open_all(
    alloc: Global,
    vm: VmNo,
    n: LineNo,
    x: &mut Exchange,
    hub: &mut Hub,
) -> Result<(), OutOfMemory>
    ensures { OnOk result (bypass_vm vm n x.old hub.old ≡ (x.new, hub.new)) }
{
    let requests = x.request.len();
    open_some(alloc, false, vm, n, requests, x, hub)?;
    let responses = x.response.len();
    open_some(alloc, true, vm, n, responses, x, hub)
}

/// A VM died.
pub fn die(
    alloc: Global,
    vm: VmNo,
    n: LineNo,
    x: &mut Exchange,
    hub: &mut Hub,
) -> Result<(), OutOfMemory>
    ensures { OnOk result (lose_vm vm n x.old hub.old ≡ (x.new, hub.new)) }
{
    if x.has_ended {
        return Ok(());
    }
    if fails_closed(x, vm) {
        return answer_fixed(alloc, n, 503, x, hub);
    }
    open_all(alloc, vm, n, x, hub)
}

/// What was read is refused, no route takes it, or a VM of its route is dead.
pub fn refuse(
    alloc: Global,
    status: u16,
    n: LineNo,
    x: &mut Exchange,
    hub: &mut Hub,
) -> Result<(), OutOfMemory>
    ensures { OnOk result (refuse_exchange status n x.old hub.old ≡ (x.new, hub.new)) }
{
    if x.has_ended || x.is_answered {
        return Ok(());
    }
    if passes_filters(status) {
        return answer_plainly(alloc, n, shuts(status), status, x, hub);
    }
    shut(shuts(status), x);
    answer_fixed(alloc, n, status, x, hub)
}

/// The head of the response may be due.
pub fn expire(alloc: Global, n: LineNo, x: &mut Exchange, hub: &mut Hub) -> Result<(), OutOfMemory>
    ensures { OnOk result (expire_exchange n x.old hub.old ≡ (x.new, hub.new)) }
{
    if is_due(hub.moment, x) {
        return answer_plainly(alloc, n, false, 504, x, hub);
    }
    Ok(())
}
