// A script over the filters of a configuration.
ghost use Rattle.std.specs.Prelude.{◌≡◌, ◌≤◌, ◌⊎◌, [], All, Err, OnOk};
ghost use Rattle.gate_io.specs.Told.{Gains, Rose};
ghost use Rattle.vm_machines.specs.Making.{HasFilter};
ghost use Rattle.command_replay_filters.specs.Filtered.{filtered};
ghost use Rattle.replay_script.specs.Scripts.{AreLines, at_start};
ghost use Rattle.command_replay.specs.Delivered.{Prints, PrintsFront};

use command_replay::{PlayEnd, play};
use gate_config::Config;
use gate_io::Sink;
use replay_script::Command;
use std::alloc::Global;
use vm_machines::Machines;

/// Plays the lines of a script from no open line on, over the workers of a configuration that holds its modules, and writes what they send.
#[tactic(auto, unfolding(crate::specs::Filtered::filtered))]
pub fn play_filtered<O: Sink>(
    alloc: Global,
    config: Config,
    commands: Vec<Command>,
    out: &mut O,
) -> Result<(), PlayEnd>
    requires lines { AreLines (at_start config.workers) commands.items }
    requires filters { All HasFilter config.vms }
    ensures done { OnOk result (Prints (filtered config) commands.items (O.taken out.old) (O.taken out.new)) }
    ensures out_fault { result ≡ Err PlayEnd.OutFault → PrintsFront (filtered config) commands.items (O.taken out.old) (O.taken out.new) }
    ensures memory { result ≡ Err PlayEnd.OutOfMemory → Gains (O.taken out.old) [] (O.taken out.new)
        ⊎ PrintsFront (filtered config) commands.items (O.taken out.old) (O.taken out.new) }
    ensures faults { O.faults out.old ≤ O.faults out.new }
    ensures failed { result ≡ Err PlayEnd.OutFault → Rose (O.faults out.old) (O.faults out.new) }
{
    play(alloc, &Machines, config, commands, out)
}
