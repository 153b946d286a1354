// The stages of an exchange are made.
ghost use Rattle.std.specs.List.{list_any};
ghost use Rattle.std.specs.Prelude.{◌≡◌, ◌==◌, map, filter, reverse, not, OnOk, IfOk};
ghost use Rattle.worker_model.specs.Steps.{is_live, new_stage, exchange_with_stages};

use exchange::{Exchange, Filter};
use filter_chain::{Chain, Held, Stage, Waiting};
use gate_base::{OutOfMemory, VmNo};
use std::alloc::Global;

/// Whether a VM is among those that died.
pub(crate) fn is_among(dead: &[VmNo], vm: VmNo) -> bool
    ensures { result ≡ list_any (λ d. d == vm) dead.now }
{
    dead.iter().any(|d| *d == vm)
}

/// A stage of a filter.
fn new_stage(alloc: Global, response: bool, f: Filter) -> Stage
    ensures { result ≡ new_stage response f }
{
    Stage {
        vm: f.vm,
        context: f.context,
        response,
        waiting: Waiting::new(alloc),
        held: Held::Nothing,
        passes: false,
    }
}

/// Whether a filter has a context, of a VM that is not dead.
fn is_live(dead: &[VmNo], f: Filter) -> bool
    ensures { result ≡ is_live dead.now f }
{
    f.created && !is_among(dead, f.vm)
}

/// The stages of filters, in order.
pub fn stages_of(
    alloc: Global,
    response: bool,
    dead: &[VmNo],
    filters: &[Filter],
) -> Result<Vec<Stage>, OutOfMemory>
    ensures { IfOk result (λ stages. stages.items ≡ map (new_stage response) (filter (is_live dead.now) filters.now)) }
{
    let mut stages = Vec::new(alloc);
    for f in filters {
        if is_live(dead, *f) {
            stages.push(new_stage(alloc, response, *f))?;
        }
    }
    Ok(stages)
}

/// The stages of an exchange are made.
pub(crate) fn enter(alloc: Global, dead: &[VmNo], x: &mut Exchange) -> Result<(), OutOfMemory>
    ensures { OnOk result (x.new ≡ exchange_with_stages dead.now x.old) }
{
    if x.has_ended || x.is_answered {
        return Ok(());
    }
    let request = stages_of(alloc, false, dead, x.filters.as_slice())?;
    let mut response = stages_of(alloc, true, dead, x.filters.as_slice())?;
    response.reverse();
    x.request = Chain::new(request);
    x.response = Chain::new(response);
    x.is_entered = true;
    Ok(())
}
