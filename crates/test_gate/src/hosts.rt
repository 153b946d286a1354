//! Files, sources and sinks over the system.

use crate::files::{answer, push_told};
use crate::streams::pieces;
use gate_base::OutOfMemory;
use gate_io::{Failed, HostFiles, HostSink, HostSource, Sink, Source};
use std::alloc::Global;
use std::io::Cursor;
use std::{env, fs, io, process};
use test_rows::{from_text, number, shown, word};

/// The path of a file that is this run's own.
fn path_here(rt: &HostRuntime, alloc: Global) -> io::Result<String> {
    let folder = env::temp_dir(rt)?;
    let id = process::id(rt.process());
    let folder = folder.as_path().to_str().unwrap_or(".");
    Ok(format!(in alloc; "{folder}/gate_driver.{id}")?)
}

/// What two reads of a file give, and one once it is gone.
fn answers_here(rt: &HostRuntime, alloc: Global, path: &str, words: &str) -> io::Result<String> {
    let mut files = HostFiles::new(rt);
    let (most, less) = word(words);
    let whole = answer(alloc, &mut files, path, most)?;
    let short = answer(alloc, &mut files, path, less)?;
    fs::remove_file(rt, path)?;
    let gone = answer(alloc, &mut files, path, most)?;
    Ok(format!(in alloc; "{whole}, {short}, {gone}")?)
}

/// `host-file TEXT MOST LESS`: what reads of a file of this text give, of so many bytes at most, of fewer, and once it is gone.
pub fn file(rt: &HostRuntime, alloc: Global, words: &str) -> io::Result<String> {
    let (text, rest) = word(words);
    let path = path_here(rt, alloc)?;
    let bytes = from_text(alloc, text)?;
    fs::write(rt, path.as_str(), bytes.as_slice())?;
    answers_here(rt, alloc, path.as_str(), rest)
}

/// What one read into a room gives, in quotes.
fn piece<S: Source>(alloc: Global, source: &mut S, room: &mut [u8]) -> Result<String, OutOfMemory> {
    match source.read(room) {
        Ok(n) => {
            let bytes = shown(alloc, &room[..n])?;
            format!(in alloc; "\"{bytes}\"")
        }
        Err(Failed) => String::from_str(alloc, "failed"),
    }
}

/// What three reads into a room of at most 8 bytes give.
fn three<S: Source>(alloc: Global, source: &mut S, size: usize) -> Result<String, OutOfMemory> {
    let mut told = String::new(alloc);
    let mut room = [0u8; 8];
    let size = size.min(8);
    for _ in 0..3 {
        let one = piece(alloc, source, &mut room[..size])?;
        push_told(&mut told, one.as_str())?;
    }
    Ok(told)
}

/// `host-source ROOM TEXT`: what three reads of a reader of this text give, into a room of so many bytes.
pub fn source(rt: &HostRuntime, alloc: Global, words: &str) -> Result<String, OutOfMemory> {
    let (size, text) = word(words);
    let bytes = from_text(alloc, text)?;
    let mut source = HostSource::new(rt, Cursor::new(bytes.as_slice()));
    three(alloc, &mut source, number(size).min(8) as usize)
}

/// How many bytes a sink takes of a piece without any, and what writes of pieces are answered.
fn writes<O: Sink>(alloc: Global, sink: &mut O, words: &str) -> Result<String, OutOfMemory> {
    let none = sink.write(b"").unwrap_or(1);
    let told = pieces(alloc, sink, words)?;
    format!(in alloc; "{none}, {told}")
}

/// `host-sink PIECE PIECE ..`: how many bytes a sink over a writer takes of a piece without any, what writes of the pieces are
/// answered, and what was written.
pub fn sink(rt: &HostRuntime, alloc: Global, words: &str) -> Result<String, OutOfMemory> {
    let mut bytes = Vec::new(alloc);
    let mut sink = HostSink::new(rt, &mut bytes);
    let told = writes(alloc, &mut sink, words)?;
    drop(sink);
    let taken = shown(alloc, bytes.as_slice())?;
    format!(in alloc; "{told}; {taken}")
}
