// Serving with the filters of a configuration.
ghost use Rattle.std.specs.Prelude.{◌≡◌, ◌≤◌, All};
ghost use Rattle.gate_io.specs.Told.{Rose};
ghost use Rattle.vm_machines.specs.Making.{HasFilter};
ghost use Rattle.command_serve_filters.specs.Filtered.{ServesFiltered};

use command_serve::{ServeEnd, serve};
use gate_config::Config;
use gate_io::{Gate, Sink, Site};
use std::alloc::Global;
use std::sync::Wait;
use std::thread::Threads;
use vm_machines::Machines;

/// Serves by a configuration that holds its modules: each worker has the machines of them in each of its lives. See `command_serve::serve`.
#[tactic(auto, unfolding(crate::specs::Filtered::ServesFiltered))]
pub fn serve_filtered<R: Threads + Wait + Sync, S: Site, O: Sink, G: Gate + Sync>(
    rt: &R,
    alloc: Global,
    config: &Config,
    stop_after: Option<u32>,
    site: &mut S,
    out: &mut O,
    gate: &G,
) -> ServeEnd
    requires { All HasFilter config.now.vms }
    ensures serves { ServesFiltered (record { trace = S.W.trace; last = S.W.last; nature = S.W.nature; faults = S.W.faults }) config.now stop_after result
        (record { started = S.started site.old; seeds = S.seeds site.old; returned = S.returned site.old; faults = S.faults site.old })
        (record { started = S.started site.new; seeds = S.seeds site.new; returned = S.returned site.new; faults = S.faults site.new })
        (O.taken out.old) (O.taken out.new) }
    ensures site_faults { S.faults site.old ≤ S.faults site.new }
    ensures out_faults { O.faults out.old ≤ O.faults out.new }
    ensures out_fault { result ≡ ServeEnd.OutFault → Rose (O.faults out.old) (O.faults out.new) }
{
    serve(rt, alloc, config, stop_after, &Machines, site, out, gate)
}
