// The generator's load.
ghost use Rattle.std.specs.Prelude.{◌≡◌, ◌≤◌};
ghost use Rattle.gate_io.specs.Told.{Rose};
ghost use Rattle.commands.specs.Generated.{Generated};

use command_generate::{GenerateEnd, generate};
use command_statuses::Status;
use gate_io::{Gate, Sink};
use std::alloc::Global;
use std::sync::Wait;
use std::thread::Threads;
use vm_machines::Machines;

/// Runs the generator's load of a number over the machines of its filter, and prints what it came to.
pub fn generate_load<R: Threads + Wait + Sync, O: Sink, G: Gate + Sync>(
    rt: &R,
    alloc: Global,
    n: u32,
    out: &mut O,
    gate: &G,
) -> Status
    ensures generates { Generated n result (O.taken out.old) (O.taken out.new) }
    ensures out_faults { O.faults out.old ≤ O.faults out.new }
    ensures out_fault { result ≡ Status.OutFault → Rose (O.faults out.old) (O.faults out.new) }
{
    match generate(rt, alloc, n, &Machines, out, gate) {
        GenerateEnd::Done => Status::Done,
        GenerateEnd::OutFault => Status::OutFault,
        GenerateEnd::OutOfMemory => Status::OutOfMemory,
    }
}
