// A run of the generator.
ghost use Rattle.std.specs.Prelude.{◌≡◌, ◌≤◌};
ghost use Rattle.gate_config.specs.declared.config.Config.{Config as Configs};
ghost use Rattle.gate_config.specs.Given.{given};
ghost use Rattle.gate_io.specs.Told.{Rose};
ghost use Rattle.command_generate.specs.Generating.{Generates, Tells, summary};
ghost use Rattle.command_generate.specs.Setting.{generator_config};

use crate::setting::{generator_config, worlds_of};
use crate::telling::summary;
use filter_host::Host;
use fleet::{FleetEnd, run_fleet};
use gate_io::{Failed, Gate, MemWorld, Sink, write_whole};
use shared_seats::ClosedTables;
use std::alloc::Global;
use std::sync::Wait;
use std::thread::Threads;
use vm_factory::MakesHost;

/// How a run of the generator ended.
#[derive(Clone, Copy)]
pub enum GenerateEnd {
    /// Each worker took Stop, and the summary was written.
    Done,
    /// The output failed.
    OutFault,
    /// Memory ran out.
    OutOfMemory,
}

/// Runs the four workers of the generator of a number, each in a thread of its own, and writes what they came to.
pub fn generate<
    R: Threads + Wait + Sync,
    H: Host + Send + Drop,
    M: MakesHost<H> + Sync,
    O: Sink,
    G: Gate + Sync,
>(rt: &R, alloc: Global, n: u32, maker: &M, out: &mut O, gate: &G) -> GenerateEnd
    requires takes { (config : Configs) → given config ≡ generator_config → M.takes maker.now config }
    ensures generates { Generates H.exported H.registering H.calling (M.made maker.now) n result (O.taken out.old) (O.taken out.new) }
    ensures out_faults { O.faults out.old ≤ O.faults out.new }
    ensures out_fault { result ≡ GenerateEnd.OutFault → Rose (O.faults out.old) (O.faults out.new) }
{
    let Ok(config) = generator_config(alloc) else {
        return GenerateEnd::OutOfMemory;
    };
    let Ok(mut worlds) = worlds_of(alloc, n) else {
        return GenerateEnd::OutOfMemory;
    };
    match run_fleet(rt, alloc, &config, maker, &mut worlds, gate) {
        Ok(closed) => tell(alloc, worlds, &closed, out),
        // No world of the generator fails.
        Err(FleetEnd::WorldFault) => unreachable!(),
        Err(FleetEnd::OutOfMemory) => GenerateEnd::OutOfMemory,
    }
}

/// Writes what a run came to.
fn tell<O: Sink>(
    alloc: Global,
    worlds: Vec<MemWorld>,
    closed: &ClosedTables,
    out: &mut O,
) -> GenerateEnd
    ensures told { Tells result (summary worlds.items closed.now.stores) (O.taken out.old) (O.taken out.new) }
    ensures faults { O.faults out.old ≤ O.faults out.new }
    ensures fault { result ≡ GenerateEnd.OutFault → Rose (O.faults out.old) (O.faults out.new) }
{
    let Ok(text) = summary(alloc, worlds, closed) else {
        return GenerateEnd::OutOfMemory;
    };
    match write_whole(out, text.as_slice()) {
        Ok(()) => GenerateEnd::Done,
        Err(Failed) => GenerateEnd::OutFault,
    }
}
