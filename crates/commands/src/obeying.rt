// Each command with all that the top call promises of it.
ghost use Rattle.std.specs.Prelude.{◌≡◌, ◌≤◌, Some, length, map, string_bytes};
ghost use Rattle.gate_io.specs.Told.{Rose};
ghost use Rattle.command_words.specs.Forms.{replay as plain_replay, replay_config as config_replay, serve as serving, check as checking, invoke as invoking, generate as generating, report as reporting};
ghost use Rattle.commands.specs.Doing.{Obeys};
ghost use Rattle.commands.specs.Reading.{ReadsFor};

use crate::call::call;
use crate::check::check_file;
use crate::generate::generate_load;
use crate::replay::{replay_config, replay_plain};
use crate::report::report_file;
use crate::serve::serve_file;
use command_statuses::Status;
use gate_io::{Files, Gate, Sink, Site};
use std::alloc::Global;
use std::sync::Wait;
use std::thread::Threads;

/// Plays a script over the plain configuration with these modules. No socket is opened.
pub fn obey_replay<F: Files, S: Site, O: Sink>(
    alloc: Global,
    script: &str,
    modules: &[String],
    files: &mut F,
    site: &mut S,
    out: &mut O,
) -> Status
    requires { length modules.now ≤ 16 }
    ensures obeys { Obeys (record { trace = S.W.trace; last = S.W.last; nature = S.W.nature; faults = S.W.faults }) (F.holds files.old) (Some (plain_replay script.now (map string_bytes modules.now))) result
        (record { started = S.started site.old; seeds = S.seeds site.old; returned = S.returned site.old; faults = S.faults site.old })
        (record { started = S.started site.new; seeds = S.seeds site.new; returned = S.returned site.new; faults = S.faults site.new })
        (O.taken out.old) (O.taken out.new) }
    ensures reads { ReadsFor (F.holds files.old) (Some (plain_replay script.now (map string_bytes modules.now))) result (F.paths files.old) (F.paths files.new) }
    ensures file_faults { F.faults files.old ≤ F.faults files.new }
    ensures file_fault { result ≡ Status.FileFault → Rose (F.faults files.old) (F.faults files.new) }
    ensures site_faults { S.faults site.old ≤ S.faults site.new }
    ensures out_faults { O.faults out.old ≤ O.faults out.new }
    ensures out_fault { result ≡ Status.OutFault → Rose (O.faults out.old) (O.faults out.new) }
{
    replay_plain(alloc, script, modules, files, out)
}

/// Plays a script over the configuration of a file. No socket is opened.
pub fn obey_replay_config<F: Files, S: Site, O: Sink>(
    alloc: Global,
    config: &str,
    script: &str,
    files: &mut F,
    site: &mut S,
    out: &mut O,
) -> Status
    ensures obeys { Obeys (record { trace = S.W.trace; last = S.W.last; nature = S.W.nature; faults = S.W.faults }) (F.holds files.old) (Some (config_replay config.now script.now)) result
        (record { started = S.started site.old; seeds = S.seeds site.old; returned = S.returned site.old; faults = S.faults site.old })
        (record { started = S.started site.new; seeds = S.seeds site.new; returned = S.returned site.new; faults = S.faults site.new })
        (O.taken out.old) (O.taken out.new) }
    ensures reads { ReadsFor (F.holds files.old) (Some (config_replay config.now script.now)) result (F.paths files.old) (F.paths files.new) }
    ensures file_faults { F.faults files.old ≤ F.faults files.new }
    ensures file_fault { result ≡ Status.FileFault → Rose (F.faults files.old) (F.faults files.new) }
    ensures site_faults { S.faults site.old ≤ S.faults site.new }
    ensures out_faults { O.faults out.old ≤ O.faults out.new }
    ensures out_fault { result ≡ Status.OutFault → Rose (O.faults out.old) (O.faults out.new) }
{
    replay_config(alloc, config, script, files, out)
}

/// Serves by the configuration of a file.
pub fn obey_serve<R: Threads + Wait + Sync, F: Files, S: Site, O: Sink, G: Gate + Sync>(
    rt: &R,
    alloc: Global,
    config: &str,
    stop_after: Option<u32>,
    files: &mut F,
    site: &mut S,
    out: &mut O,
    gate: &G,
) -> Status
    ensures obeys { Obeys (record { trace = S.W.trace; last = S.W.last; nature = S.W.nature; faults = S.W.faults }) (F.holds files.old) (Some (serving config.now stop_after)) result
        (record { started = S.started site.old; seeds = S.seeds site.old; returned = S.returned site.old; faults = S.faults site.old })
        (record { started = S.started site.new; seeds = S.seeds site.new; returned = S.returned site.new; faults = S.faults site.new })
        (O.taken out.old) (O.taken out.new) }
    ensures reads { ReadsFor (F.holds files.old) (Some (serving config.now stop_after)) result (F.paths files.old) (F.paths files.new) }
    ensures file_faults { F.faults files.old ≤ F.faults files.new }
    ensures file_fault { result ≡ Status.FileFault → Rose (F.faults files.old) (F.faults files.new) }
    ensures site_faults { S.faults site.old ≤ S.faults site.new }
    ensures out_faults { O.faults out.old ≤ O.faults out.new }
    ensures out_fault { result ≡ Status.OutFault → Rose (O.faults out.old) (O.faults out.new) }
{
    serve_file(rt, alloc, config, stop_after, files, site, out, gate)
}

/// Checks the configuration of a file. No socket is opened.
pub fn obey_check<F: Files, S: Site, O: Sink>(
    alloc: Global,
    config: &str,
    files: &mut F,
    site: &mut S,
    out: &mut O,
) -> Status
    ensures obeys { Obeys (record { trace = S.W.trace; last = S.W.last; nature = S.W.nature; faults = S.W.faults }) (F.holds files.old) (Some (checking config.now)) result
        (record { started = S.started site.old; seeds = S.seeds site.old; returned = S.returned site.old; faults = S.faults site.old })
        (record { started = S.started site.new; seeds = S.seeds site.new; returned = S.returned site.new; faults = S.faults site.new })
        (O.taken out.old) (O.taken out.new) }
    ensures reads { ReadsFor (F.holds files.old) (Some (checking config.now)) result (F.paths files.old) (F.paths files.new) }
    ensures file_faults { F.faults files.old ≤ F.faults files.new }
    ensures file_fault { result ≡ Status.FileFault → Rose (F.faults files.old) (F.faults files.new) }
    ensures site_faults { S.faults site.old ≤ S.faults site.new }
    ensures out_faults { O.faults out.old ≤ O.faults out.new }
    ensures out_fault { result ≡ Status.OutFault → Rose (O.faults out.old) (O.faults out.new) }
{
    check_file(alloc, config, files, out)
}

/// Calls a function that the module of a file exports. No socket is opened.
pub fn obey_invoke<F: Files, S: Site, O: Sink>(
    alloc: Global,
    module: &str,
    export: &str,
    arguments: &[String],
    files: &mut F,
    site: &mut S,
    out: &mut O,
) -> Status
    ensures obeys { Obeys (record { trace = S.W.trace; last = S.W.last; nature = S.W.nature; faults = S.W.faults }) (F.holds files.old) (Some (invoking «module».now export.now (map string_bytes arguments.now))) result
        (record { started = S.started site.old; seeds = S.seeds site.old; returned = S.returned site.old; faults = S.faults site.old })
        (record { started = S.started site.new; seeds = S.seeds site.new; returned = S.returned site.new; faults = S.faults site.new })
        (O.taken out.old) (O.taken out.new) }
    ensures reads { ReadsFor (F.holds files.old) (Some (invoking «module».now export.now (map string_bytes arguments.now))) result (F.paths files.old) (F.paths files.new) }
    ensures file_faults { F.faults files.old ≤ F.faults files.new }
    ensures file_fault { result ≡ Status.FileFault → Rose (F.faults files.old) (F.faults files.new) }
    ensures site_faults { S.faults site.old ≤ S.faults site.new }
    ensures out_faults { O.faults out.old ≤ O.faults out.new }
    ensures out_fault { result ≡ Status.OutFault → Rose (O.faults out.old) (O.faults out.new) }
{
    call(alloc, module, export, arguments, files, out)
}

/// Prints what the module of a file imports and exports. No socket is opened.
pub fn obey_report<F: Files, S: Site, O: Sink>(
    alloc: Global,
    module: &str,
    files: &mut F,
    site: &mut S,
    out: &mut O,
) -> Status
    ensures obeys { Obeys (record { trace = S.W.trace; last = S.W.last; nature = S.W.nature; faults = S.W.faults }) (F.holds files.old) (Some (reporting «module».now)) result
        (record { started = S.started site.old; seeds = S.seeds site.old; returned = S.returned site.old; faults = S.faults site.old })
        (record { started = S.started site.new; seeds = S.seeds site.new; returned = S.returned site.new; faults = S.faults site.new })
        (O.taken out.old) (O.taken out.new) }
    ensures reads { ReadsFor (F.holds files.old) (Some (reporting «module».now)) result (F.paths files.old) (F.paths files.new) }
    ensures file_faults { F.faults files.old ≤ F.faults files.new }
    ensures file_fault { result ≡ Status.FileFault → Rose (F.faults files.old) (F.faults files.new) }
    ensures site_faults { S.faults site.old ≤ S.faults site.new }
    ensures out_faults { O.faults out.old ≤ O.faults out.new }
    ensures out_fault { result ≡ Status.OutFault → Rose (O.faults out.old) (O.faults out.new) }
{
    report_file(alloc, module, files, out)
}

/// Runs the generator's load of a number. No file is read and no socket opened.
pub fn obey_generate<R: Threads + Wait + Sync, F: Files, S: Site, O: Sink, G: Gate + Sync>(
    rt: &R,
    alloc: Global,
    n: u32,
    files: &mut F,
    site: &mut S,
    out: &mut O,
    gate: &G,
) -> Status
    ensures obeys { Obeys (record { trace = S.W.trace; last = S.W.last; nature = S.W.nature; faults = S.W.faults }) (F.holds files.old) (Some (generating n)) result
        (record { started = S.started site.old; seeds = S.seeds site.old; returned = S.returned site.old; faults = S.faults site.old })
        (record { started = S.started site.new; seeds = S.seeds site.new; returned = S.returned site.new; faults = S.faults site.new })
        (O.taken out.old) (O.taken out.new) }
    ensures reads { ReadsFor (F.holds files.old) (Some (generating n)) result (F.paths files.old) (F.paths files.new) }
    ensures file_faults { F.faults files.old ≤ F.faults files.new }
    ensures file_fault { result ≡ Status.FileFault → Rose (F.faults files.old) (F.faults files.new) }
    ensures site_faults { S.faults site.old ≤ S.faults site.new }
    ensures out_faults { O.faults out.old ≤ O.faults out.new }
    ensures out_fault { result ≡ Status.OutFault → Rose (O.faults out.old) (O.faults out.new) }
{
    generate_load(rt, alloc, n, out, gate)
}
