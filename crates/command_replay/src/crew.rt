// What plays a script, and its turns.
ghost use Rattle.std.specs.Prelude.{◌≡◌, ◌==◌, ◌<◌, ◌≤◌, if◌then◌else◌, ◌++◌, [], All, length, IfOk, OnOk};
ghost use Rattle.replay_script.specs.Prints.{last_in, on_line, printed, printed_by, tell};
ghost use Rattle.replay_script.specs.Scripts.{AreLines, at_start};
ghost use Rattle.command_replay.specs.Replay.{Advances, CanTurn, IsReady, Seated, Turns, TurnsAt, first_worker, first_workers, setup_of, stores_for};

use filter_host::Host;
use gate_base::{Members, Octets, OutOfMemory, WorkerNo};
use gate_config::Config;
use gate_io::Sent;
use replay_script::{Command, ScriptWorld, events_of, print_on, print_sent};
use shared_store::Alone;
use std::alloc::{AllocError, Global};
use vm_factory::MakesHost;
use worker::{Turn, Worker};

/// The workers of a script in its world, the stores that they share, and the worker of which a line of output was last.
#[derive(Drop)]
pub(crate) struct Crew<H> {
    workers: Members<Worker<H>>,
    world: ScriptWorld,
    shared: Alone,
    last: WorkerNo,
}

/// What plays these lines, before the first of them: the workers of a configuration, each over machines on which nothing has run and with
/// the seed of a script's world, and an empty store for each VM.
pub(crate) fn crew_of<H: Host + Drop, M: MakesHost<H>>(
    alloc: Global,
    maker: &M,
    config: &Config,
    commands: Vec<Command>,
) -> Result<Crew<H>, OutOfMemory>
    requires lines { AreLines (at_start config.now.workers) commands.items }
    requires takes { M.takes maker.now config.now }
    ensures ready { IfOk result (λ crew. IsReady (setup_of H.calling H.exported H.registering config.now (M.made maker.now config.now)) commands.items crew.workers crew.world crew.shared crew.last) }
    ensures can_turn { IfOk result (λ crew. CanTurn H.needs crew.workers crew.shared) }
    ensures count { IfOk result (λ crew. length crew.workers ≡ config.now.workers) }
{
    let events = events_of(alloc, commands)?;
    let world = ScriptWorld::new(alloc, events);
    let shared = stores_of(alloc, config)?;
    let workers = workers_for(alloc, maker, config)?;
    Ok(Crew {
        workers,
        world,
        shared,
        last: WorkerNo::new(1).unwrap(),
    })
}

/// An empty store for each VM of a configuration.
fn stores_of(alloc: Global, config: &Config) -> Result<Alone, OutOfMemory>
    ensures { IfOk result (λ shared. shared ≡ stores_for (length config.now.vms)) }
{
    Alone::new(alloc, config.vms.len() as u8)
}

/// The workers of a configuration, by number.
fn workers_for<H: Host + Drop, M: MakesHost<H>>(
    alloc: Global,
    maker: &M,
    config: &Config,
) -> Result<Members<Worker<H>>, OutOfMemory>
    requires { M.takes maker.now config.now }
    ensures made { IfOk result (λ workers. workers ≡ first_workers (setup_of H.calling H.exported H.registering config.now (M.made maker.now config.now)) config.now.workers) }
    ensures seated { IfOk result (λ workers. All (Seated H.needs (length config.now.vms)) workers) }
{
    let mut workers = Members::new(alloc);
    for n in 0..config.workers {
        let who = WorkerNo::new(n + 1).unwrap();
        workers.push(worker_of(alloc, maker, config, who)?)?;
    }
    Ok(workers)
}

/// A worker of a configuration, over machines on which nothing has run.
fn worker_of<H: Host + Drop, M: MakesHost<H>>(
    alloc: Global,
    maker: &M,
    config: &Config,
    who: WorkerNo,
) -> Result<Worker<H>, OutOfMemory>
    requires { M.takes maker.now config.now }
    ensures made { IfOk result (λ worker. worker ≡ first_worker (setup_of H.calling H.exported H.registering config.now (M.made maker.now config.now)) who) }
    ensures seated { IfOk result (Seated H.needs (length config.now.vms)) }
{
    let config = config.copy(alloc)?;
    let host = maker.make(alloc, &config)?;
    Worker::new(alloc, config, who, [0; 32], host)
}

impl<H: Host + Drop> Crew<H> {
    /// Does one turn of a worker, and puts what it sends after what waits to be written.
    pub(crate) fn advance(
        &mut self,
        alloc: Global,
        who: WorkerNo,
        pending: &mut Octets,
    ) -> Result<(), OutOfMemory>
        requires there { who ≤ length self.old.workers }
        requires can_turn { CanTurn H.needs self.old.workers self.old.shared }
        ensures advances { OnOk result (Advances H.calling who self.old.workers self.old.world self.old.shared self.old.last pending.old self.new.workers self.new.world self.new.shared self.new.last pending.new) }
        ensures can_turn { OnOk result (CanTurn H.needs self.new.workers self.new.shared) }
    {
        self.shared.as_worker(who);
        let at = who.get() as usize - 1;
        turn_at(
            alloc,
            &mut self.workers,
            at,
            &mut self.world,
            &mut self.shared,
        )?;
        print_all(alloc, pending, &mut self.last, who, self.world.taken())
    }
}

/// Does one turn of the worker at a place.
fn turn_at<H: Host + Drop>(
    alloc: Global,
    workers: &mut Members<Worker<H>>,
    at: usize,
    world: &mut ScriptWorld,
    shared: &mut Alone,
) -> Result<(), OutOfMemory>
    requires there { at < length workers.old }
    requires can_turn { CanTurn H.needs workers.old shared.old }
    ensures turns { OnOk result (TurnsAt H.calling at workers.old world.old shared.old workers.new world.new shared.new) }
    ensures can_turn { OnOk result (CanTurn H.needs workers.new shared.new) }
{
    turn_of(alloc, workers.get_mut(at), world, shared)
}

/// Does one turn of a worker.
fn turn_of<H: Host + Drop>(
    alloc: Global,
    worker: &mut Worker<H>,
    world: &mut ScriptWorld,
    shared: &mut Alone,
) -> Result<(), OutOfMemory>
    requires { Seated H.needs (length shared.old.stores) worker.old }
    ensures turns { OnOk result (Turns H.calling worker.old world.old shared.old worker.new world.new shared.new) }
    ensures seated { OnOk result (Seated H.needs (length shared.old.stores) worker.new) }
    ensures stores { length shared.new.stores ≡ length shared.old.stores }
{
    match worker.turn(alloc, world, shared) {
        Turn::Went => Ok(()),
        Turn::Stopped => Ok(()),
        Turn::WorldFault => unreachable!(),
        Turn::OutOfMemory => Err(AllocError),
    }
}

/// Prints what a worker sends, in order.
fn print_all(
    alloc: Global,
    out: &mut Octets,
    last: &mut WorkerNo,
    who: WorkerNo,
    sent: &[Sent],
) -> Result<(), OutOfMemory>
    ensures text { OnOk result (out.new ≡ out.old ++ printed_by last.old (tell who sent.now)) }
    ensures last { OnOk result (last.new ≡ last_in last.old (tell who sent.now)) }
{
    if sent.is_empty() {
        return Ok(());
    }
    name_worker(alloc, out, last, who)?;
    print_each(alloc, out, sent)
}

/// Prints the line that names a worker, where the last line was of another.
fn name_worker(
    alloc: Global,
    out: &mut Octets,
    last: &mut WorkerNo,
    who: WorkerNo,
) -> Result<(), OutOfMemory>
    ensures text { OnOk result (out.new ≡ out.old ++ (if who == last.old then [] else on_line who)) }
    ensures last { OnOk result (last.new ≡ who) }
{
    if who.get() == last.get() {
        return Ok(());
    }
    print_on(alloc, out, who)?;
    *last = who;
    Ok(())
}

/// Prints what is sent, in order.
fn print_each(alloc: Global, out: &mut Octets, sent: &[Sent]) -> Result<(), OutOfMemory>
    ensures { OnOk result (out.new ≡ out.old ++ printed sent.now) }
{
    for one in sent {
        print_sent(alloc, out, one)?;
    }
    Ok(())
}
