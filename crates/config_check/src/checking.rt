// A configuration that is checked with the modules of its VMs.
ghost use Rattle.std.specs.Prelude.{◌≡◌, ◌≤◌, ◌++◌, IfOk, OnOk, Err, string_bytes};
ghost use Rattle.gate_config.specs.Given.{given};
ghost use Rattle.gate_io.specs.Told.{Rose};
ghost use Rattle.config_files.specs.Loading.{ReadsInOrder};
ghost use Rattle.config_check.specs.Check.{IsChecked, IsPrinted, Reaches, count, counts_line};

use config_files::{LoadEnd, load};
use gate_base::OutOfMemory;
use gate_config::Config;
use gate_io::{Failed, Files, Sink, write_whole};
use itoa::Buffer;
use std::alloc::Global;

/// Why a check does not print its line.
#[derive(Drop)]
pub enum CheckEnd {
    /// The configuration or a module was refused, a read failed, or memory ran out for them.
    NotLoaded { end: LoadEnd },
    /// A write failed.
    OutFault,
    /// Memory ran out.
    OutOfMemory,
}

/// Reads a configuration and the modules of its VMs, none after a refusal, and prints `ok workers W vms V plugins P routes R`.
pub fn check<F: Files, O: Sink>(
    alloc: Global,
    path: &str,
    files: &mut F,
    out: &mut O,
) -> Result<(), CheckEnd>
    ensures checked { IsChecked (F.holds files.old) path.now result (O.taken out.old) (O.taken out.new) }
    ensures paths { ReadsInOrder (F.holds files.old) path.now (F.paths files.old) (F.paths files.new) }
    ensures reaches { Reaches (F.holds files.old) path.now result (F.paths files.old) (F.paths files.new) }
    ensures file_faults { F.faults files.old ≤ F.faults files.new }
    ensures file_fault { result ≡ Err (CheckEnd.NotLoaded LoadEnd.FileFault) → Rose (F.faults files.old) (F.faults files.new) }
    ensures out_faults { O.faults out.old ≤ O.faults out.new }
    ensures out_fault { result ≡ Err CheckEnd.OutFault → Rose (O.faults out.old) (O.faults out.new) }
{
    match load(alloc, path, files) {
        Ok(config) => print_counts(alloc, &config, out),
        Err(end) => Err(CheckEnd::NotLoaded { end }),
    }
}

/// Prints how much of everything a configuration has.
fn print_counts<O: Sink>(alloc: Global, config: &Config, out: &mut O) -> Result<(), CheckEnd>
    ensures printed { IsPrinted (counts_line (given config.now)) result (O.taken out.old) (O.taken out.new) }
    ensures out_faults { O.faults out.old ≤ O.faults out.new }
    ensures out_fault { result ≡ Err CheckEnd.OutFault → Rose (O.faults out.old) (O.faults out.new) }
{
    match counts_line(alloc, config) {
        Ok(line) => print(line.as_bytes(), out),
        Err(_) => Err(CheckEnd::OutOfMemory),
    }
}

/// Prints a line.
fn print<O: Sink>(line: &[u8], out: &mut O) -> Result<(), CheckEnd>
    ensures printed { IsPrinted line.now result (O.taken out.old) (O.taken out.new) }
    ensures out_faults { O.faults out.old ≤ O.faults out.new }
    ensures out_fault { result ≡ Err CheckEnd.OutFault → Rose (O.faults out.old) (O.faults out.new) }
{
    match write_whole(out, line) {
        Ok(()) => Ok(()),
        Err(Failed) => Err(CheckEnd::OutFault),
    }
}

/// The line of a configuration.
fn counts_line(alloc: Global, config: &Config) -> Result<String, OutOfMemory>
    ensures { IfOk result (λ s. string_bytes s ≡ counts_line (given config.now)) }
{
    let mut line = String::from_str(alloc, "ok")?;
    push_count(&mut line, " workers ", usize::from(config.workers))?;
    push_count(&mut line, " vms ", config.vms.len())?;
    push_count(&mut line, " plugins ", config.plugins.len())?;
    push_count(&mut line, " routes ", config.routes.len())?;
    line.push_str("\n")?;
    Ok(line)
}

/// Puts a word and a number after a text.
fn push_count(line: &mut String, word: &str, n: usize) -> Result<(), OutOfMemory>
    ensures { OnOk result (string_bytes line.new ≡ string_bytes line.old ++ count word.now n) }
{
    line.push_str(word)?;
    line.push_str(Buffer::new().format(n))
}
