// How a run ends.
use crate::causes::{end_line, fault_name, fault_place, refusal_name, refusal_place};
use crate::lines::{report_config, report_module, write_line};
use config_files::{LoadEnd, ModuleFault};
use gate_base::{Cause, Text};
use gate_io::{Failed, Sink, write_whole};
use wasm_invoke::Refusal;

/// Why a called function gave no result.
#[derive(Clone, Copy)]
pub enum InvokeEnd {
    /// The start function or the exported one trapped.
    Trap { cause: Cause },
    /// One of them needed a unit of fuel that was not there.
    FuelSpent,
}

/// How a run ends.
#[derive(Drop)]
pub enum Status {
    /// All was done that the words ask for.
    Done,
    /// The words are of no form.
    Usage,
    /// The configuration is refused, with this number at this key.
    Config { number: u8, key: Text },
    /// The file of the VM of this name is no module that it can run.
    Module { vm: Text, fault: ModuleFault },
    /// The module of a call or a report, or the call itself, is refused.
    Refused { refusal: Refusal },
    /// A read failed.
    FileFault,
    /// The site failed, or one of its worlds.
    SiteFault,
    /// A write of the output failed.
    OutFault,
    /// Memory ran out.
    OutOfMemory,
    /// The script has a line of no form; 0 where it is longer than 64 MiB.
    Script { line: u32 },
    /// The called function, or the start function, gave no result.
    Invoke { end: InvokeEnd },
}

impl Status {
    ghost use Rattle.std.specs.Prelude.{◌≡◌, ◌≤◌, OnOk, OnErr};
    ghost use Rattle.gate_io.specs.Told.{Gains, GainsFront, Rose};
    ghost use Rattle.command_statuses.specs.Statuses.{of_load as status_of_load, status_number, status_line};

    /// The status of what was not loaded.
    pub fn of_load(end: LoadEnd) -> Status
        ensures { result ≡ status_of_load end }
    {
        match end {
            LoadEnd::Config { number, key } => Status::Config { number, key },
            LoadEnd::Module { vm, fault } => Status::Module { vm, fault },
            LoadEnd::FileFault => Status::FileFault,
            LoadEnd::OutOfMemory => Status::OutOfMemory,
        }
    }

    /// The number with which the process ends.
    pub fn number(&self) -> u8
        ensures { result ≡ status_number self.now }
    {
        match self {
            Status::Done => 0,
            Status::Usage => 2,
            Status::Config { .. } => 3,
            Status::Module { .. } | Status::Refused { .. } => 4,
            Status::FileFault => 5,
            Status::SiteFault => 6,
            Status::OutFault => 7,
            Status::OutOfMemory => 8,
            Status::Script { .. } => 9,
            Status::Invoke { .. } => 10,
        }
    }

    /// Writes the line of the status, if it has one. After a refusal the sink took a front of it. It takes no memory.
    pub fn report<E: Sink>(&self, err: &mut E) -> Result<(), Failed>
        ensures ok { OnOk result (Gains (E.taken err.old) (status_line self.now) (E.taken err.new)) }
        ensures err { OnErr result (GainsFront (E.taken err.old) (status_line self.now) (E.taken err.new)) }
        ensures faults { E.faults err.old ≤ E.faults err.new }
        ensures failed { OnErr result (Rose (E.faults err.old) (E.faults err.new)) }
    {
        match self {
            Status::Done => Ok(()),
            Status::Usage => write_whole(err, b"wasmgate: usage\n"),
            Status::Config { number, key } => report_config(err, *number, key.as_str().as_bytes()),
            Status::Module { vm, fault } => report_module(
                err,
                vm.as_str().as_bytes(),
                fault_name(*fault),
                fault_place(*fault),
            ),
            Status::Refused { refusal } => {
                report_module(err, b"-", refusal_name(*refusal), refusal_place(*refusal))
            }
            Status::FileFault => write_whole(err, b"wasmgate: file\n"),
            Status::SiteFault => write_whole(err, b"wasmgate: site\n"),
            Status::OutFault => write_whole(err, b"wasmgate: out\n"),
            Status::OutOfMemory => write_whole(err, b"wasmgate: memory\n"),
            Status::Script { line } => write_line(err, b"wasmgate: script ", *line),
            Status::Invoke { end } => write_whole(err, end_line(*end)),
        }
    }
}
