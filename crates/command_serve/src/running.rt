// The core of the command that serves.
ghost use Rattle.std.specs.Prelude.{◌≡◌, ◌≤◌, length, IfOk};
ghost use Rattle.fleet.specs.Lives.{first_of};
ghost use Rattle.gate_io.specs.Told.{Rose};
ghost use Rattle.command_serve.specs.Summary.{summary};
ghost use Rattle.command_serve.specs.Serving.{Finishes, Serves, Tells, settings_of};

use crate::telling::summary;
use filter_host::Host;
use fleet::{FleetEnd, run_fleet};
use gate_base::OutOfMemory;
use gate_config::Config;
use gate_io::{Failed, Gate, Settings, Sink, Site, SiteEnd, write_whole};
use shared_seats::ClosedTables;
use std::alloc::Global;
use std::sync::Wait;
use std::thread::Threads;
use vm_factory::MakesHost;

/// How serving ended.
#[derive(Clone, Copy)]
pub enum ServeEnd {
    /// Each worker took Stop.
    Done,
    /// The site was not started, or one of its worlds failed.
    SiteFault,
    /// The output failed.
    OutFault,
    /// Memory ran out.
    OutOfMemory,
}

/// With what the site is started.
fn settings_of(
    alloc: Global,
    config: &Config,
    stop_after: Option<u32>,
) -> Result<Settings, OutOfMemory>
    ensures { IfOk result (λ s. s ≡ settings_of config.now stop_after) }
{
    let listen = config.listen.copy(alloc)?;
    let upstream = config.upstream.copy(alloc)?;
    Ok(Settings {
        listen,
        upstream,
        workers: config.workers,
        stop_after,
    })
}

/// Serves by a configuration: starts the site once, runs a worker in each of its worlds until Stop, gives the worlds back whatever
/// happened, and writes for each VM what its store came to, and then what its metrics came to. After `stop_after` lines, where it is given, no
/// more are accepted, and Stop comes once all have closed.
pub fn serve<
    R: Threads + Wait + Sync,
    H: Host + Send + Drop,
    M: MakesHost<H> + Sync,
    S: Site,
    O: Sink,
    G: Gate + Sync,
>(
    rt: &R,
    alloc: Global,
    config: &Config,
    stop_after: Option<u32>,
    maker: &M,
    site: &mut S,
    out: &mut O,
    gate: &G,
) -> ServeEnd
    requires takes { M.takes maker.now config.now }
    ensures serves { Serves (record { trace = S.W.trace; last = S.W.last; nature = S.W.nature; faults = S.W.faults }) H.calling
        (first_of H.exported H.registering config.now (M.made maker.now config.now)) config.now (settings_of config.now stop_after) result
        (record { started = S.started site.old; seeds = S.seeds site.old; returned = S.returned site.old; faults = S.faults site.old })
        (record { started = S.started site.new; seeds = S.seeds site.new; returned = S.returned site.new; faults = S.faults site.new })
        (O.taken out.old) (O.taken out.new) }
    ensures site_faults { S.faults site.old ≤ S.faults site.new }
    ensures out_faults { O.faults out.old ≤ O.faults out.new }
    ensures out_fault { result ≡ ServeEnd.OutFault → Rose (O.faults out.old) (O.faults out.new) }
{
    let Ok(settings) = settings_of(alloc, config, stop_after) else {
        return ServeEnd::OutOfMemory;
    };
    let mut worlds = match site.start(alloc, &settings) {
        Ok(worlds) => worlds,
        Err(SiteEnd::Failed) => return ServeEnd::SiteFault,
        Err(SiteEnd::OutOfMemory) => return ServeEnd::OutOfMemory,
    };
    let ran = run_fleet(rt, alloc, config, maker, &mut worlds, gate);
    site.give_back(worlds);
    finish(alloc, config, &ran, out)
}

/// Writes what the stores and metrics of a fleet came to, where it ended well.
fn finish<O: Sink>(
    alloc: Global,
    config: &Config,
    ran: &Result<ClosedTables, FleetEnd>,
    out: &mut O,
) -> ServeEnd
    requires stores { IfOk ran.now (λ closed. length closed.stores ≡ length config.now.vms) }
    requires metrics { IfOk ran.now (λ closed. length closed.metrics ≡ length config.now.vms) }
    ensures finishes { Finishes config.now.vms ran.now result (O.taken out.old) (O.taken out.new) }
    ensures faults { O.faults out.old ≤ O.faults out.new }
    ensures fault { result ≡ ServeEnd.OutFault → Rose (O.faults out.old) (O.faults out.new) }
{
    match ran {
        Ok(closed) => tell(alloc, config, closed, out),
        Err(FleetEnd::WorldFault) => ServeEnd::SiteFault,
        Err(FleetEnd::OutOfMemory) => ServeEnd::OutOfMemory,
    }
}

/// Writes what the stores and metrics came to.
fn tell<O: Sink>(alloc: Global, config: &Config, closed: &ClosedTables, out: &mut O) -> ServeEnd
    requires stores { length closed.now.stores ≡ length config.now.vms }
    requires metrics { length closed.now.metrics ≡ length config.now.vms }
    ensures told { Tells result (summary config.now.vms closed.now) (O.taken out.old) (O.taken out.new) }
    ensures faults { O.faults out.old ≤ O.faults out.new }
    ensures fault { result ≡ ServeEnd.OutFault → Rose (O.faults out.old) (O.faults out.new) }
{
    let Ok(text) = summary(alloc, config.vms.as_slice(), closed) else {
        return ServeEnd::OutOfMemory;
    };
    match write_whole(out, text.as_slice()) {
        Ok(()) => ServeEnd::Done,
        Err(Failed) => ServeEnd::OutFault,
    }
}
