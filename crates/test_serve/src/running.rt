//! Runs of the program's command.

use crate::files::{calls, laid_out};
use crate::gates::Watch;
use crate::told::{tell_bytes, tell_number, tell_starts, tell_worlds};
use crate::worlds::Worlds;
use command_statuses::Status;
use commands::run;
use gate_base::{Octets, OutOfMemory, Pairs};
use gate_io::{MemFiles, MemSink, MemSite};
use std::alloc::Global;
use std::sync::Wait;
use std::thread::Threads;
use test_rows::word;

/// What a command is run over.
#[derive(Drop)]
struct Stage {
    words: Vec<String>,
    files: MemFiles,
    site: MemSite,
    out: MemSink,
    err: MemSink,
    gate: Watch,
}

/// The words of a command.
fn words_of(alloc: Global, text: &str) -> Result<Vec<String>, OutOfMemory> {
    let mut words = Vec::new(alloc);
    for one in text.split(',') {
        words.push(String::from_str(alloc, one)?)?;
    }
    Ok(words)
}

/// The output whose writes of these numbers fail, 0 for none.
fn output(alloc: Global, write: &str) -> Result<MemSink, OutOfMemory> {
    let fails = calls(alloc, write)?;
    Ok(MemSink::new(Octets::new(alloc), fails))
}

/// The two words with `/` between them; the second is 0 where there is none.
fn both(text: &str) -> (&str, &str) {
    match text.split_once('/') {
        Some(parts) => parts,
        None => (text, "0"),
    }
}

/// What the command of a row `GATE START/READ WRITE/LINE WORD,WORD..` is run over.
fn staged(
    alloc: Global,
    files: &Pairs,
    worlds: &mut Worlds,
    row: &str,
) -> Result<Stage, OutOfMemory> {
    let (held, rest) = word(row);
    let (start, rest) = word(rest);
    let (write, command) = word(rest);
    let (start, read) = both(start);
    let (write, line) = both(write);
    let words = words_of(alloc, command)?;
    let starts = calls(alloc, start)?;
    let reads = calls(alloc, read)?;
    let out = output(alloc, write)?;
    let err = output(alloc, line)?;
    let files = laid_out(alloc, files, reads)?;
    Ok(Stage {
        words,
        files,
        site: worlds.take(alloc, starts),
        out,
        err,
        gate: Watch::new(held),
    })
}

impl Stage {
    /// Runs the command.
    fn run<R: Threads + Wait + Sync>(&mut self, rt: &R, alloc: Global) -> Status {
        run(
            rt,
            alloc,
            self.words.as_slice(),
            &mut self.files,
            &mut self.site,
            &mut self.out,
            &mut self.err,
            &self.gate,
        )
    }

    /// Puts the status and what was written at the end of a text.
    fn tell_written(
        &self,
        alloc: Global,
        told: &mut String,
        status: u64,
    ) -> Result<(), OutOfMemory> {
        told.push_str("status ")?;
        tell_number(alloc, told, status)?;
        told.push_str("; err ")?;
        tell_bytes(alloc, told, self.err.as_slice())?;
        told.push_str("; out ")?;
        tell_bytes(alloc, told, self.out.as_slice())
    }

    /// Puts what the site was started with, what its worlds took, and what passed the gate at the end of a text.
    fn tell_passed(&self, alloc: Global, told: &mut String) -> Result<(), OutOfMemory> {
        told.push_str("; started ")?;
        tell_starts(alloc, told, &self.site)?;
        tell_worlds(alloc, told, &self.site)?;
        told.push_str("; ")?;
        self.gate.tell(alloc, told)
    }
}

/// `serve GATE START/READ WRITE/LINE WORD,WORD..`: runs the command of these words over what is laid out, where the site's starts, the files' reads, the
/// output's writes and the writes of the status's line of these numbers fail, 0 or nothing for none, and the gate holds a turn for the word `turn` and a call for `call`, tells no calls for `load`, and for
/// `seen` tells how many were made before each turn. How it ended, what it wrote to standard error and to standard output, with what the site
/// was started, what each world took that came back, and what passed the gate.
pub fn served<R: Threads + Wait + Sync>(
    rt: &R,
    alloc: Global,
    files: &Pairs,
    worlds: &mut Worlds,
    row: &str,
) -> Result<String, OutOfMemory> {
    let mut stage = staged(alloc, files, worlds, row)?;
    let status = stage.run(rt, alloc);
    let mut told = String::new(alloc);
    stage.tell_written(alloc, &mut told, u64::from(status.number()))?;
    stage.tell_passed(alloc, &mut told)?;
    Ok(told)
}
