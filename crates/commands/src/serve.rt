// Serving by the configuration of a file.
ghost use Rattle.std.specs.Prelude.{◌≡◌, ◌≤◌, Some, All};
ghost use Rattle.gate_io.specs.Told.{Rose};
ghost use Rattle.vm_machines.specs.Making.{HasFilter};
ghost use Rattle.command_words.specs.Forms.{serve as serving};
ghost use Rattle.commands.specs.Doing.{Served, ServesFile};
ghost use Rattle.commands.specs.Reading.{ReadsFor};

use command_serve::ServeEnd;
use command_serve_filters::serve_filtered;
use command_statuses::Status;
use config_files::load;
use gate_config::Config;
use gate_io::{Files, Gate, Sink, Site};
use std::alloc::Global;
use std::sync::Wait;
use std::thread::Threads;

/// Serves by the configuration of a file and the modules of its VMs.
pub fn serve_file<R: Threads + Wait + Sync, F: Files, S: Site, O: Sink, G: Gate + Sync>(
    rt: &R,
    alloc: Global,
    path: &str,
    stop_after: Option<u32>,
    files: &mut F,
    site: &mut S,
    out: &mut O,
    gate: &G,
) -> Status
    ensures serves { ServesFile (record { trace = S.W.trace; last = S.W.last; nature = S.W.nature; faults = S.W.faults }) (F.holds files.old) path.now stop_after result
        (record { started = S.started site.old; seeds = S.seeds site.old; returned = S.returned site.old; faults = S.faults site.old })
        (record { started = S.started site.new; seeds = S.seeds site.new; returned = S.returned site.new; faults = S.faults site.new })
        (O.taken out.old) (O.taken out.new) }
    ensures reads { ReadsFor (F.holds files.old) (Some (serving path.now stop_after)) result (F.paths files.old) (F.paths files.new) }
    ensures file_faults { F.faults files.old ≤ F.faults files.new }
    ensures file_fault { result ≡ Status.FileFault → Rose (F.faults files.old) (F.faults files.new) }
    ensures site_faults { S.faults site.old ≤ S.faults site.new }
    ensures out_faults { O.faults out.old ≤ O.faults out.new }
    ensures out_fault { result ≡ Status.OutFault → Rose (O.faults out.old) (O.faults out.new) }
{
    match load(alloc, path, files) {
        Ok(config) => serve_by(rt, alloc, &config, stop_after, site, out, gate),
        Err(end) => Status::of_load(end),
    }
}

/// Serves by a configuration that holds its modules.
fn serve_by<R: Threads + Wait + Sync, S: Site, O: Sink, G: Gate + Sync>(
    rt: &R,
    alloc: Global,
    config: &Config,
    stop_after: Option<u32>,
    site: &mut S,
    out: &mut O,
    gate: &G,
) -> Status
    requires { All HasFilter config.now.vms }
    ensures served { Served (record { trace = S.W.trace; last = S.W.last; nature = S.W.nature; faults = S.W.faults }) config.now stop_after result
        (record { started = S.started site.old; seeds = S.seeds site.old; returned = S.returned site.old; faults = S.faults site.old })
        (record { started = S.started site.new; seeds = S.seeds site.new; returned = S.returned site.new; faults = S.faults site.new })
        (O.taken out.old) (O.taken out.new) }
    ensures site_faults { S.faults site.old ≤ S.faults site.new }
    ensures out_faults { O.faults out.old ≤ O.faults out.new }
    ensures out_fault { result ≡ Status.OutFault → Rose (O.faults out.old) (O.faults out.new) }
{
    match serve_filtered(rt, alloc, config, stop_after, site, out, gate) {
        ServeEnd::Done => Status::Done,
        ServeEnd::SiteFault => Status::SiteFault,
        ServeEnd::OutFault => Status::OutFault,
        ServeEnd::OutOfMemory => Status::OutOfMemory,
    }
}
