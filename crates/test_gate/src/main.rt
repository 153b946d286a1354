//! Plays rows on the outside of the gateway, one a line of standard input, and writes what each gives: files, sources, sinks and
//! worlds in memory, and those over the system; the plain configuration; what is sent and what waits; scripts and their worlds.
//!
//! A row that begins with `#` is written as it is. Texts have escapes, as the library of rows says.
#![tactic(auto)]

mod configs;
mod deliveries;
mod files;
mod hosts;
mod scripts;
mod streams;
mod things;
mod turns;
mod worlds;

use gate_base::OutOfMemory;
use std::alloc::Global;
use std::io;
use test_rows::word;

/// What a row on scripts, or on what is sent, gives.
fn on_scripts(alloc: Global, operation: &str, words: &str) -> Result<String, OutOfMemory> {
    match operation {
        "script" => scripts::read(alloc, words),
        "lines" => scripts::lines(alloc, words),
        "stops" => scripts::stops(alloc, words),
        "events" => scripts::events(alloc, words),
        "workers" => scripts::workers(alloc, words),
        "plays" => turns::played(alloc, words),
        "print" => things::printed(alloc, words),
        "print-on" => things::printed_on(alloc, words),
        _ => String::from_str(alloc, "no such row"),
    }
}

/// What a row that asks nothing of the system gives.
fn in_memory(alloc: Global, operation: &str, words: &str) -> Result<String, OutOfMemory> {
    match operation {
        "files" => files::read(alloc, words),
        "source" => streams::read(alloc, words),
        "sink" => streams::written(alloc, words),
        "gives" => worlds::given(alloc, words),
        "takes" => worlds::taken(alloc, words),
        "refuses" => worlds::refused(alloc, words),
        "no-memory" => worlds::without_memory(alloc, words),
        "gate" => worlds::passed(alloc, words),
        "plain" => configs::plain(alloc, words),
        "route" => configs::routed(alloc, words),
        "offers" => deliveries::offered(alloc, words),
        "delivers" => deliveries::ended(alloc, words),
        "full" => deliveries::filled(alloc, words),
        _ => on_scripts(alloc, operation, words),
    }
}

/// What a row gives.
fn played(rt: &HostRuntime, alloc: Global, row: &str) -> io::Result<String> {
    let (operation, words) = word(row);
    match operation {
        "host-file" => hosts::file(rt, alloc, words),
        "host-source" => Ok(hosts::source(rt, alloc, words)?),
        "host-sink" => Ok(hosts::sink(rt, alloc, words)?),
        _ => Ok(in_memory(alloc, operation, words)?),
    }
}

fn main(rt: HostRuntime) -> io::Result<()> {
    let alloc = rt.alloc();
    for line in rt.lines(alloc) {
        let line = line?;
        let row = line.as_str();
        if row.starts_with("#") {
            println!(rt; "{row}")?;
            continue;
        }
        let text = played(&rt, alloc, row)?;
        println!(rt; "{text}")?;
    }
    Ok(())
}
