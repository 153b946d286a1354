// A call of an exported function.
ghost use Rattle.std.specs.Prelude.{◌≡◌, ◌≤◌, ◌++◌, ◌∷◌, [], Some, None, ℕ, List, OnOk, OnErr, map, string_bytes};
ghost use Rattle.gate_io.specs.Told.{Gains, GainsFront, Rose};
ghost use Rattle.commands.specs.Call.{printed, result_line, IsCalled, OfCall, Calls};
ghost use Rattle.commands.specs.Reading.{ReadsOne};

use command_statuses::{InvokeEnd, Status, write_numbered};
use gate_io::{Failed, FileEnd, Files, Sink};
use std::alloc::Global;
use wasm_invoke::{End, Invoked, Refusal, invoke};
use wasm_syntax::Value;

/// How many bytes a module has at most: 4 MiB.
pub(crate) const MAX_MODULE: usize = 4194304;

/// Calls a function that the module of a file exports, and prints its result and the fuel that it used.
pub fn call<F: Files, O: Sink>(
    alloc: Global,
    path: &str,
    export: &str,
    arguments: &[String],
    files: &mut F,
    out: &mut O,
) -> Status
    ensures front { GainsFront (F.paths files.old) (path.now ∷ []) (F.paths files.new) }
    ensures one { ReadsOne path.now result (F.paths files.old) (F.paths files.new) }
    ensures file_faults { F.faults files.old ≤ F.faults files.new }
    ensures file_fault { result ≡ Status.FileFault → Rose (F.faults files.old) (F.faults files.new) }
    ensures out_faults { O.faults out.old ≤ O.faults out.new }
    ensures out_fault { result ≡ Status.OutFault → Rose (O.faults out.old) (O.faults out.new) }
    ensures calls { Calls (F.holds files.old) path.now export.now (map string_bytes arguments.now) result (O.taken out.old) (O.taken out.new) }
{
    match files.read(alloc, path, MAX_MODULE) {
        Ok(text) => call_in(alloc, text.as_slice(), export, arguments, out),
        Err(FileEnd::Failed) => Status::FileFault,
        Err(FileEnd::TooLong) => Status::Refused {
            refusal: Refusal::Unread {
                number: 9,
                place: 0,
            },
        },
        Err(FileEnd::OutOfMemory) => Status::OutOfMemory,
    }
}

/// Calls a function that the module of these bytes exports, and prints its result and the fuel that it used.
fn call_in<O: Sink>(
    alloc: Global,
    text: &[u8],
    export: &str,
    arguments: &[String],
    out: &mut O,
) -> Status
    ensures no_file_fault { result ≡ Status.FileFault → ⊥ }
    ensures out_faults { O.faults out.old ≤ O.faults out.new }
    ensures out_fault { result ≡ Status.OutFault → Rose (O.faults out.old) (O.faults out.new) }
    ensures called { IsCalled text.now export.now (map string_bytes arguments.now) result (O.taken out.old) (O.taken out.new) }
    ensures of_call { OfCall result (O.taken out.old) (O.taken out.new) }
{
    match invoke(alloc, text, export, arguments) {
        Ok(invoked) => match print(&invoked, out) {
            Ok(()) => Status::Done,
            Err(Failed) => Status::OutFault,
        },
        Err(End::Refused(refusal)) => Status::Refused { refusal },
        Err(End::Trapped(cause)) => Status::Invoke {
            end: InvokeEnd::Trap { cause },
        },
        Err(End::FuelSpent) => Status::Invoke {
            end: InvokeEnd::FuelSpent,
        },
        Err(End::OutOfMemory) => Status::OutOfMemory,
    }
}

/// Prints the line of the result, if there is one, and the line of the fuel.
fn print<O: Sink>(invoked: &Invoked, out: &mut O) -> Result<(), Failed>
    ensures ok { OnOk result (Gains (O.taken out.old) (printed invoked.now) (O.taken out.new)) }
    ensures err { OnErr result (GainsFront (O.taken out.old) (printed invoked.now) (O.taken out.new)) }
    ensures faults { O.faults out.old ≤ O.faults out.new }
    ensures failed { OnErr result (Rose (O.faults out.old) (O.faults out.new)) }
{
    print_result(invoked.result, out)?;
    write_numbered(out, b"fuel ", invoked.used)
}

/// Prints the line of the result, if there is one.
fn print_result<O: Sink>(value: Option<Value>, out: &mut O) -> Result<(), Failed>
    ensures ok { OnOk result (Gains (O.taken out.old) (result_line value) (O.taken out.new)) }
    ensures err { OnErr result (GainsFront (O.taken out.old) (result_line value) (O.taken out.new)) }
    ensures faults { O.faults out.old ≤ O.faults out.new }
    ensures failed { OnErr result (Rose (O.faults out.old) (O.faults out.new)) }
{
    match value {
        None => Ok(()),
        Some(Value::I32(n)) => write_numbered(out, b"i32 ", u64::from(n)),
        Some(Value::I64(n)) => write_numbered(out, b"i64 ", n),
    }
}
