// The report of a module.
ghost use Rattle.std.specs.Prelude.{◌≡◌, ◌≤◌, ◌∷◌, [], OnOk, OnErr};
ghost use Rattle.gate_io.specs.Told.{Gains, GainsFront, Rose};
ghost use Rattle.commands.specs.Reading.{ReadsOne};
ghost use Rattle.commands.specs.Report.{IsReported, OfReport, Reports};

use crate::call::MAX_MODULE;
use command_statuses::Status;
use filter_report::{ReportEnd, report_bytes};
use gate_base::Octets;
use gate_io::{Failed, FileEnd, Files, Sink, write_whole};
use std::alloc::Global;
use wasm_invoke::Refusal;

/// Prints what the module of a file imports and exports.
pub fn report_file<F: Files, O: Sink>(
    alloc: Global,
    path: &str,
    files: &mut F,
    out: &mut O,
) -> Status
    ensures front { GainsFront (F.paths files.old) (path.now ∷ []) (F.paths files.new) }
    ensures one { ReadsOne path.now result (F.paths files.old) (F.paths files.new) }
    ensures file_faults { F.faults files.old ≤ F.faults files.new }
    ensures file_fault { result ≡ Status.FileFault → Rose (F.faults files.old) (F.faults files.new) }
    ensures out_faults { O.faults out.old ≤ O.faults out.new }
    ensures out_fault { result ≡ Status.OutFault → Rose (O.faults out.old) (O.faults out.new) }
    ensures reports { Reports (F.holds files.old) path.now result (O.taken out.old) (O.taken out.new) }
{
    match files.read(alloc, path, MAX_MODULE) {
        Ok(text) => report_in(alloc, text.as_slice(), out),
        Err(FileEnd::Failed) => Status::FileFault,
        Err(FileEnd::TooLong) => Status::Refused {
            refusal: Refusal::Unread {
                number: 9,
                place: 0,
            },
        },
        Err(FileEnd::OutOfMemory) => Status::OutOfMemory,
    }
}

/// Prints what the module of these bytes imports and exports.
fn report_in<O: Sink>(alloc: Global, text: &[u8], out: &mut O) -> Status
    ensures no_file_fault { result ≡ Status.FileFault → ⊥ }
    ensures out_faults { O.faults out.old ≤ O.faults out.new }
    ensures out_fault { result ≡ Status.OutFault → Rose (O.faults out.old) (O.faults out.new) }
    ensures reported { IsReported text.now result (O.taken out.old) (O.taken out.new) }
    ensures of_report { OfReport result (O.taken out.old) (O.taken out.new) }
{
    match report_bytes(alloc, text) {
        Ok(lines) => match print(&lines, out) {
            Ok(()) => Status::Done,
            Err(Failed) => Status::OutFault,
        },
        Err(ReportEnd::Unread { number, place }) => Status::Refused {
            refusal: Refusal::Unread { number, place },
        },
        Err(ReportEnd::Invalid) => Status::Refused {
            refusal: Refusal::Invalid,
        },
        Err(ReportEnd::OutOfMemory) => Status::OutOfMemory,
    }
}

/// Prints lines.
fn print<O: Sink>(lines: &Octets, out: &mut O) -> Result<(), Failed>
    ensures ok { OnOk result (Gains (O.taken out.old) lines.now (O.taken out.new)) }
    ensures err { OnErr result (GainsFront (O.taken out.old) lines.now (O.taken out.new)) }
    ensures faults { O.faults out.old ≤ O.faults out.new }
    ensures failed { OnErr result (Rose (O.faults out.old) (O.faults out.new)) }
{
    write_whole(out, lines.as_slice())
}
