// Lines that are written piece by piece.
ghost use Rattle.std.specs.Prelude.{◌≡◌, ◌≤◌, ◌++◌, ◌∷◌, [], OnOk, OnErr, decimal};
ghost use Rattle.gate_io.specs.Told.{Gains, GainsFront, Rose};
ghost use Rattle.command_statuses.specs.Statuses.{config_line, module_line, cause_end};

use gate_io::{Failed, Sink, write_whole};
use itoa::Buffer;

/// Writes the line of a configuration that is refused.
pub(crate) fn report_config<E: Sink>(err: &mut E, number: u8, key: &[u8]) -> Result<(), Failed>
    ensures ok { OnOk result (Gains (E.taken err.old) (config_line number key.now) (E.taken err.new)) }
    ensures err { OnErr result (GainsFront (E.taken err.old) (config_line number key.now) (E.taken err.new)) }
    ensures faults { E.faults err.old ≤ E.faults err.new }
    ensures failed { OnErr result (Rose (E.faults err.old) (E.faults err.new)) }
{
    let mut buffer = Buffer::new();
    let digits = buffer.format(number);
    write_three(err, b"wasmgate: config ", digits.as_bytes(), b" ")?;
    write_two(err, key, b"\n")
}

/// Writes the line of a VM's module that is refused by a cause, which has a place or none.
pub(crate) fn report_module<E: Sink>(
    err: &mut E,
    vm: &[u8],
    cause: &[u8],
    place: Option<usize>,
) -> Result<(), Failed>
    ensures ok { OnOk result (Gains (E.taken err.old) (module_line vm.now cause.now place) (E.taken err.new)) }
    ensures err { OnErr result (GainsFront (E.taken err.old) (module_line vm.now cause.now place) (E.taken err.new)) }
    ensures faults { E.faults err.old ≤ E.faults err.new }
    ensures failed { OnErr result (Rose (E.faults err.old) (E.faults err.new)) }
{
    write_three(err, b"wasmgate: module ", vm, b" ")?;
    write_cause(err, cause, place)
}

/// Writes a cause, and what stands after it.
fn write_cause<E: Sink>(err: &mut E, cause: &[u8], place: Option<usize>) -> Result<(), Failed>
    ensures ok { OnOk result (Gains (E.taken err.old) (cause.now ++ cause_end place) (E.taken err.new)) }
    ensures err { OnErr result (GainsFront (E.taken err.old) (cause.now ++ cause_end place) (E.taken err.new)) }
    ensures faults { E.faults err.old ≤ E.faults err.new }
    ensures failed { OnErr result (Rose (E.faults err.old) (E.faults err.new)) }
{
    write_whole(err, cause)?;
    write_end(err, place)
}

/// Writes a blank and a place where there is one, and an LF.
fn write_end<E: Sink>(err: &mut E, place: Option<usize>) -> Result<(), Failed>
    ensures ok { OnOk result (Gains (E.taken err.old) (cause_end place) (E.taken err.new)) }
    ensures err { OnErr result (GainsFront (E.taken err.old) (cause_end place) (E.taken err.new)) }
    ensures faults { E.faults err.old ≤ E.faults err.new }
    ensures failed { OnErr result (Rose (E.faults err.old) (E.faults err.new)) }
{
    match place {
        Some(place) => write_numbered(err, b" ", place as u64),
        None => write_whole(err, b"\n"),
    }
}

/// Writes words, the number of a line and an LF.
pub(crate) fn write_line<E: Sink>(err: &mut E, words: &[u8], line: u32) -> Result<(), Failed>
    ensures ok { OnOk result (Gains (E.taken err.old) (words.now ++ (decimal line ++ (10 ∷ []))) (E.taken err.new)) }
    ensures err { OnErr result (GainsFront (E.taken err.old) (words.now ++ (decimal line ++ (10 ∷ []))) (E.taken err.new)) }
    ensures faults { E.faults err.old ≤ E.faults err.new }
    ensures failed { OnErr result (Rose (E.faults err.old) (E.faults err.new)) }
{
    write_numbered(err, words, u64::from(line))
}

/// Writes words, a number and an LF. After a refusal the sink took a front of them.
pub fn write_numbered<O: Sink>(sink: &mut O, words: &[u8], number: u64) -> Result<(), Failed>
    ensures ok { OnOk result (Gains (O.taken sink.old) (words.now ++ (decimal number ++ (10 ∷ []))) (O.taken sink.new)) }
    ensures err { OnErr result (GainsFront (O.taken sink.old) (words.now ++ (decimal number ++ (10 ∷ []))) (O.taken sink.new)) }
    ensures faults { O.faults sink.old ≤ O.faults sink.new }
    ensures failed { OnErr result (Rose (O.faults sink.old) (O.faults sink.new)) }
{
    let mut buffer = Buffer::new();
    let digits = buffer.format(number);
    write_three(sink, words, digits.as_bytes(), b"\n")
}

/// Writes three pieces, one after the other.
fn write_three<O: Sink>(
    sink: &mut O,
    first: &[u8],
    second: &[u8],
    third: &[u8],
) -> Result<(), Failed>
    ensures ok { OnOk result (Gains (O.taken sink.old) (first.now ++ (second.now ++ third.now)) (O.taken sink.new)) }
    ensures err { OnErr result (GainsFront (O.taken sink.old) (first.now ++ (second.now ++ third.now)) (O.taken sink.new)) }
    ensures faults { O.faults sink.old ≤ O.faults sink.new }
    ensures failed { OnErr result (Rose (O.faults sink.old) (O.faults sink.new)) }
{
    write_whole(sink, first)?;
    write_two(sink, second, third)
}

/// Writes two pieces, one after the other.
fn write_two<O: Sink>(sink: &mut O, first: &[u8], second: &[u8]) -> Result<(), Failed>
    ensures ok { OnOk result (Gains (O.taken sink.old) (first.now ++ second.now) (O.taken sink.new)) }
    ensures err { OnErr result (GainsFront (O.taken sink.old) (first.now ++ second.now) (O.taken sink.new)) }
    ensures faults { O.faults sink.old ≤ O.faults sink.new }
    ensures failed { OnErr result (Rose (O.faults sink.old) (O.faults sink.new)) }
{
    write_whole(sink, first)?;
    write_whole(sink, second)
}
