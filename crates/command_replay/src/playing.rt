// A script, played to its end.
ghost use Rattle.std.specs.Prelude.{◌≡◌, ◌≤◌, ◌⊎◌, List, [], All, length, Err, OnOk, OnErr};
ghost use Rattle.gate_config.specs.declared.config.Config.{Config};
ghost use Rattle.gate_io.specs.Told.{Gains, GainsFront, Rose};
ghost use Rattle.replay_script.specs.declared.command.Command.{Command};
ghost use Rattle.replay_script.specs.Scripts.{AreLines, at_start, workers_of as workers_in};
ghost use Rattle.command_replay.specs.declared.playing.PlayEnd.TheVariants.{OutFault as OutFaultEnd, OutOfMemory as OutOfMemoryEnd};
ghost use Rattle.command_replay.specs.Delivered.{Prints, PrintsFront};
ghost use Rattle.command_replay.specs.Replay.{CanTurn, Flushed, IsReady, Setup, setup_of};

use crate::crew::{Crew, crew_of};
use filter_host::Host;
use gate_base::{Octets, WorkerNo};
use gate_config::Config;
use gate_io::{Failed, Sink, write_whole};
use replay_script::{Command, workers_of};
use std::alloc::{AllocError, Global};
use vm_factory::MakesHost;

/// How many bytes of output wait at most before they are written.
const MAX_PENDING: usize = 65536;

/// Why a script was not played to its end.
#[derive(Clone, Copy, PartialEq, Eq)]
pub enum PlayEnd {
    /// A write failed.
    OutFault,
    /// Memory ran out.
    OutOfMemory,
}

impl From<AllocError> for PlayEnd {
    ghost from_gives = { λ _ e. e ≡ OutOfMemoryEnd };

    fn from(_: AllocError) -> Self {
        PlayEnd::OutOfMemory
    }
}

impl From<Failed> for PlayEnd {
    ghost from_gives = { λ _ e. e ≡ OutFaultEnd };

    fn from(_: Failed) -> Self {
        PlayEnd::OutFault
    }
}

/// Plays the lines of a script from no open line on, over the workers of a configuration, and writes what they send.
pub fn play<H: Host + Drop, M: MakesHost<H>, O: Sink>(
    alloc: Global,
    maker: &M,
    config: Config,
    commands: Vec<Command>,
    out: &mut O,
) -> Result<(), PlayEnd>
    requires lines { AreLines (at_start config.workers) commands.items }
    requires takes { M.takes maker.now config }
    ensures done { OnOk result (Prints (setup_of H.calling H.exported H.registering config (M.made maker.now config)) commands.items (O.taken out.old) (O.taken out.new)) }
    ensures out_fault { result ≡ Err PlayEnd.OutFault
        → PrintsFront (setup_of H.calling H.exported H.registering config (M.made maker.now config)) commands.items (O.taken out.old) (O.taken out.new) }
    ensures memory { result ≡ Err PlayEnd.OutOfMemory → Gains (O.taken out.old) [] (O.taken out.new)
        ⊎ PrintsFront (setup_of H.calling H.exported H.registering config (M.made maker.now config)) commands.items (O.taken out.old) (O.taken out.new) }
    ensures faults { O.faults out.old ≤ O.faults out.new }
    ensures failed { result ≡ Err PlayEnd.OutFault → Rose (O.faults out.old) (O.faults out.new) }
{
    let whose = workers_of(alloc, &commands)?;
    let mut crew = crew_of(alloc, maker, &config, commands)?;
    play_all(alloc, &mut crew, &whose, out)
}

/// Takes one turn after another, each of its worker, and writes what they send.
fn play_all<H: Host + Drop, O: Sink>(
    alloc: Global,
    crew: &mut Crew<H>,
    whose: &[WorkerNo],
    out: &mut O,
) -> Result<(), PlayEnd>
    requires can_turn { CanTurn H.needs crew.old.workers crew.old.shared }
    requires there { All (λ who. (1 ≤ who) × (who ≤ length crew.old.workers)) whose.now }
    ensures done { (config : Config) (host : H) (commands : List Command)
        → IsReady (setup_of H.calling H.exported H.registering config host) commands crew.old.workers crew.old.world crew.old.shared crew.old.last
        → whose.now ≡ workers_in commands
        → OnOk result (Prints (setup_of H.calling H.exported H.registering config host) commands (O.taken out.old) (O.taken out.new)) }
    ensures front { (config : Config) (host : H) (commands : List Command)
        → IsReady (setup_of H.calling H.exported H.registering config host) commands crew.old.workers crew.old.world crew.old.shared crew.old.last
        → whose.now ≡ workers_in commands
        → OnErr result (PrintsFront (setup_of H.calling H.exported H.registering config host) commands (O.taken out.old) (O.taken out.new)) }
    ensures faults { O.faults out.old ≤ O.faults out.new }
    ensures failed { result ≡ Err PlayEnd.OutFault → Rose (O.faults out.old) (O.faults out.new) }
{
    let mut pending = Octets::new(alloc);
    'turns: for who in whose {
        crew.advance(alloc, *who, &mut pending)?;
        flush(&mut pending, out)?;
    }
    write_whole(out, pending.as_slice())?;
    Ok(())
}

/// Writes what waits, where that is enough.
fn flush<O: Sink>(pending: &mut Octets, out: &mut O) -> Result<(), Failed>
    ensures ok { OnOk result (Flushed pending.old (O.taken out.old) pending.new (O.taken out.new)) }
    ensures err { OnErr result (GainsFront (O.taken out.old) pending.old (O.taken out.new)) }
    ensures faults { O.faults out.old ≤ O.faults out.new }
    ensures failed { OnErr result (Rose (O.faults out.old) (O.faults out.new)) }
{
    if pending.len() < MAX_PENDING {
        return Ok(());
    }
    write_whole(out, pending.as_slice())?;
    pending.clear();
    Ok(())
}
