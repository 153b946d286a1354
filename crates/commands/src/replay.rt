// A script over a configuration.
ghost use Rattle.std.specs.Prelude.{◌≡◌, ◌⊎◌, ◌≤◌, ◌∷◌, [], Some, None, ℕ, List, All, length, map, string_bytes};
ghost use Rattle.gate_io.specs.Told.{Gains, GainsFront, Rose};
ghost use Rattle.config_files.specs.Loading.{IsNotLoaded};
ghost use Rattle.config_files.specs.Plain.{IsNoPlain};
ghost use Rattle.vm_machines.specs.Making.{HasFilter};
ghost use Rattle.command_words.specs.Forms.{replay as plain_replay, replay_config as config_replay};
ghost use Rattle.replay_script.specs.Scripts.{AreLines, at_start};
ghost use Rattle.commands.specs.Scripts.{Plays, PlaysText, PlaysLines, Replays};
ghost use Rattle.commands.specs.Doing.{LoadsFile, LoadsPlain};
ghost use Rattle.commands.specs.Reading.{ReadsFor, ReadsOne};

use command_replay::PlayEnd;
use command_replay_filters::play_filtered;
use command_statuses::Status;
use config_files::{load, load_plain};
use gate_config::Config;
use gate_io::{FileEnd, Files, Sink};
use replay_script::{Command, ScriptEnd, read_script};
use std::alloc::Global;

/// How many bytes a script has at most: 64 MiB.
const MAX_SCRIPT: usize = 67108864;

/// Plays a script over the plain configuration with a VM for each of these modules.
pub fn replay_plain<F: Files, O: Sink>(
    alloc: Global,
    script: &str,
    modules: &[String],
    files: &mut F,
    out: &mut O,
) -> Status
    requires { length modules.now ≤ 16 }
    ensures replays { Replays (F.holds files.old) (LoadsPlain (F.holds files.old) (map string_bytes modules.now)) (IsNoPlain (F.holds files.old) (map string_bytes modules.now)) script.now result (O.taken out.old) (O.taken out.new) }
    ensures reads { ReadsFor (F.holds files.old) (Some (plain_replay script.now (map string_bytes modules.now))) result (F.paths files.old) (F.paths files.new) }
    ensures file_faults { F.faults files.old ≤ F.faults files.new }
    ensures file_fault { result ≡ Status.FileFault → Rose (F.faults files.old) (F.faults files.new) }
    ensures out_faults { O.faults out.old ≤ O.faults out.new }
    ensures out_fault { result ≡ Status.OutFault → Rose (O.faults out.old) (O.faults out.new) }
{
    match load_plain(alloc, modules, files) {
        Ok(config) => play_file(alloc, config, script, files, out),
        Err(end) => Status::of_load(end),
    }
}

/// Plays a script over the configuration of a file.
pub fn replay_config<F: Files, O: Sink>(
    alloc: Global,
    config: &str,
    script: &str,
    files: &mut F,
    out: &mut O,
) -> Status
    ensures replays { Replays (F.holds files.old) (LoadsFile (F.holds files.old) config.now) (IsNotLoaded (F.holds files.old) config.now) script.now result (O.taken out.old) (O.taken out.new) }
    ensures reads { ReadsFor (F.holds files.old) (Some (config_replay config.now script.now)) result (F.paths files.old) (F.paths files.new) }
    ensures file_faults { F.faults files.old ≤ F.faults files.new }
    ensures file_fault { result ≡ Status.FileFault → Rose (F.faults files.old) (F.faults files.new) }
    ensures out_faults { O.faults out.old ≤ O.faults out.new }
    ensures out_fault { result ≡ Status.OutFault → Rose (O.faults out.old) (O.faults out.new) }
{
    match load(alloc, config, files) {
        Ok(config) => play_file(alloc, config, script, files, out),
        Err(end) => Status::of_load(end),
    }
}

/// Plays the script of a file over a configuration that holds its modules.
fn play_file<F: Files, O: Sink>(
    alloc: Global,
    config: Config,
    path: &str,
    files: &mut F,
    out: &mut O,
) -> Status
    requires { All HasFilter config.vms }
    ensures plays { Plays (F.holds files.old) path.now config result (O.taken out.old) (O.taken out.new) }
    ensures front { GainsFront (F.paths files.old) (path.now ∷ []) (F.paths files.new) }
    ensures one { ReadsOne path.now result (F.paths files.old) (F.paths files.new) }
    ensures file_faults { F.faults files.old ≤ F.faults files.new }
    ensures file_fault { result ≡ Status.FileFault → Rose (F.faults files.old) (F.faults files.new) }
    ensures out_faults { O.faults out.old ≤ O.faults out.new }
    ensures out_fault { result ≡ Status.OutFault → Rose (O.faults out.old) (O.faults out.new) }
{
    match files.read(alloc, path, MAX_SCRIPT) {
        Ok(text) => play_text(alloc, config, text.as_slice(), out),
        Err(FileEnd::Failed) => Status::FileFault,
        Err(FileEnd::TooLong) => Status::Script { line: 0 },
        Err(FileEnd::OutOfMemory) => Status::OutOfMemory,
    }
}

/// Plays the script of a text over a configuration that holds its modules.
fn play_text<O: Sink>(alloc: Global, config: Config, text: &[u8], out: &mut O) -> Status
    requires short { length text.now ≤ 67108864 }
    requires filters { All HasFilter config.vms }
    ensures plays { PlaysText config text.now result (O.taken out.old) (O.taken out.new) }
    ensures out_faults { O.faults out.old ≤ O.faults out.new }
    ensures out_fault { result ≡ Status.OutFault → Rose (O.faults out.old) (O.faults out.new) }
{
    match read_script(alloc, text, config.workers) {
        Ok(commands) => play_lines(alloc, config, commands, out),
        Err(ScriptEnd::BadLine { number }) => Status::Script { line: number },
        Err(ScriptEnd::OutOfMemory) => Status::OutOfMemory,
    }
}

/// Plays the lines of a script over a configuration that holds its modules.
fn play_lines<O: Sink>(alloc: Global, config: Config, commands: Vec<Command>, out: &mut O) -> Status
    requires lines { AreLines (at_start config.workers) commands.items }
    requires filters { All HasFilter config.vms }
    ensures plays { PlaysLines config commands.items result (O.taken out.old) (O.taken out.new) }
    ensures out_faults { O.faults out.old ≤ O.faults out.new }
    ensures out_fault { result ≡ Status.OutFault → Rose (O.faults out.old) (O.faults out.new) }
{
    match play_filtered(alloc, config, commands, out) {
        Ok(()) => Status::Done,
        Err(PlayEnd::OutFault) => Status::OutFault,
        Err(PlayEnd::OutOfMemory) => Status::OutOfMemory,
    }
}
