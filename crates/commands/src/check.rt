// A configuration, checked.
ghost use Rattle.std.specs.Prelude.{◌≡◌, ◌≤◌, Some};
ghost use Rattle.gate_io.specs.Told.{Rose};
ghost use Rattle.command_words.specs.Forms.{check as checking};
ghost use Rattle.commands.specs.Doing.{Checks};
ghost use Rattle.commands.specs.Reading.{ReadsFor};

use command_statuses::Status;
use config_check::{CheckEnd, check};
use gate_io::{Files, Sink};
use std::alloc::Global;

/// Reads the configuration of a file and the modules of its VMs, and prints how much of everything there is.
pub fn check_file<F: Files, O: Sink>(
    alloc: Global,
    path: &str,
    files: &mut F,
    out: &mut O,
) -> Status
    ensures checks { Checks (F.holds files.old) path.now result (O.taken out.old) (O.taken out.new) }
    ensures reads { ReadsFor (F.holds files.old) (Some (checking path.now)) result (F.paths files.old) (F.paths files.new) }
    ensures file_faults { F.faults files.old ≤ F.faults files.new }
    ensures file_fault { result ≡ Status.FileFault → Rose (F.faults files.old) (F.faults files.new) }
    ensures out_faults { O.faults out.old ≤ O.faults out.new }
    ensures out_fault { result ≡ Status.OutFault → Rose (O.faults out.old) (O.faults out.new) }
{
    match check(alloc, path, files, out) {
        Ok(()) => Status::Done,
        Err(CheckEnd::NotLoaded { end }) => Status::of_load(end),
        Err(CheckEnd::OutFault) => Status::OutFault,
        Err(CheckEnd::OutOfMemory) => Status::OutOfMemory,
    }
}
