// The lives of one worker.
ghost use Rattle.std.specs.Prelude.{◌≡◌, ◌≤◌, ◌&&◌, IfOk, length};
ghost use Rattle.fleet.specs.Lives.{Life, OneLife, Lives, first_of, is_memory};
ghost use Rattle.gate_io.specs.Told.{Rose};
ghost use Rattle.worker_model.specs.Making.{new_worker};

use crate::watched::Watched;
use filter_host::Host;
use gate_base::{OutOfMemory, WorkerNo};
use gate_config::Config;
use gate_io::{Gate, Point, World};
use std::alloc::Global;
use std::sync::Wait;
use store_model::Shared;
use vm_factory::MakesHost;
use worker::{Turn, Worker};

/// A worker that has done nothing, over a copy of the configuration and new machines.
fn begin<H: Host + Drop, M: MakesHost<H>>(
    alloc: Global,
    config: &Config,
    maker: &M,
    who: WorkerNo,
    seed: [u8; 32],
) -> Result<Worker<H>, OutOfMemory>
    requires takes { M.takes maker.now config.now }
    ensures new { IfOk result (λ worker. worker ≡ first_of H.exported H.registering config.now (M.made maker.now config.now) who seed) }
    ensures needs { IfOk result (λ worker. H.needs worker.state.host ≤ length config.now.vms) }
{
    let copy = config.copy(alloc)?;
    let host = maker.make(alloc, config)?;
    Worker::new(alloc, copy, who, seed, host)
}

/// Takes turns until one takes no event but Stop.
fn take_turns<R: Wait, H: Host + Drop, W: World, S: Shared, G: Gate>(
    rt: &R,
    alloc: Global,
    worker: &mut Worker<H>,
    who: WorkerNo,
    world: &mut W,
    shared: &mut S,
    gate: &G,
) -> Turn
    requires stores { length worker.old.setting.config.vms ≤ S.stores shared.old }
    requires needs { H.needs worker.old.state.host ≤ S.stores shared.old }
    ensures stores { S.stores shared.new ≡ S.stores shared.old }
    ensures nature { W.nature world.new ≡ W.nature world.old }
    ensures faults { W.faults world.old ≤ W.faults world.new }
    ensures fault { result ≡ Turn.WorldFault → Rose (W.faults world.old) (W.faults world.new) }
    ensures life { Life H.calling S.performs shared.old (W.trace world.old) worker.old result worker.new shared.new (W.trace world.new) }
{
    'turns: for _ in rt.forever() {
        gate.at(who, Point::BeforeTurn);
        match worker.turn(alloc, world, shared) {
            Turn::Went => {}
            end => return end,
        }
    }
    unreachable!()
}

/// One life: how it ended, and whether it took an event.
fn live_once<R: Wait, H: Host + Drop, M: MakesHost<H>, W: World, S: Shared, G: Gate>(
    rt: &R,
    alloc: Global,
    config: &Config,
    maker: &M,
    who: WorkerNo,
    world: &mut W,
    shared: &mut S,
    gate: &G,
) -> (Turn, bool)
    requires takes { M.takes maker.now config.now }
    requires stores { length config.now.vms ≤ S.stores shared.old }
    ensures stores { S.stores shared.new ≡ S.stores shared.old }
    ensures nature { W.nature world.new ≡ W.nature world.old }
    ensures faults { W.faults world.old ≤ W.faults world.new }
    ensures fault { result.0 ≡ Turn.WorldFault → Rose (W.faults world.old) (W.faults world.new) }
    ensures life { OneLife H.calling S.performs (first_of H.exported H.registering config.now (M.made maker.now config.now) who (W.nature world.old).seed) shared.old (W.trace world.old) result.0 result.1 shared.new (W.trace world.new) }
{
    let Ok(mut worker) = begin(alloc, config, maker, who, world.seed()) else {
        return (Turn::OutOfMemory, false);
    };
    let end = take_turns(rt, alloc, &mut worker, who, world, shared, gate);
    (end, worker.took())
}

/// All lives of a worker: how the last ended, and whether one before it ended for want of memory. Where a life took an event and memory ran
/// out, all connections are closed, and another life begins; where it took none, or memory runs out once more on the way, the worker ends.
pub fn live<R: Wait, H: Host + Drop, M: MakesHost<H>, W: World, S: Shared, G: Gate>(
    rt: &R,
    alloc: Global,
    config: &Config,
    maker: &M,
    who: WorkerNo,
    watched: &mut Watched<W>,
    shared: &mut S,
    gate: &G,
) -> (Turn, bool)
    requires takes { M.takes maker.now config.now }
    requires stores { length config.now.vms ≤ S.stores shared.old }
    ensures stores { S.stores shared.new ≡ S.stores shared.old }
    ensures nature { W.nature watched.new ≡ W.nature watched.old }
    ensures faults { W.faults watched.old ≤ W.faults watched.new }
    ensures fault { result.0 ≡ Turn.WorldFault → Rose (W.faults watched.old) (W.faults watched.new) }
    ensures lives { Lives H.calling S.performs (first_of H.exported H.registering config.now (M.made maker.now config.now) who (W.nature watched.old).seed) shared.old (W.trace watched.old) result.0 result.1 shared.new (W.trace watched.new) }
{
    let mut again = false;
    'lives: for _ in rt.forever() {
        let (end, took) = live_once(rt, alloc, config, maker, who, watched, shared, gate);
        if !begins_again(end, took) {
            return (end, again);
        }
        match watched.close_all(alloc) {
            Ok(()) => again = true,
            Err(_) => return (Turn::OutOfMemory, true),
        }
    }
    unreachable!()
}

/// Whether another life begins after one that ended so: it took an event, and memory ran out.
fn begins_again(end: Turn, took: bool) -> bool
    ensures { result ≡ (is_memory end && took) }
{
    matches!(end, Turn::OutOfMemory) && took
}
