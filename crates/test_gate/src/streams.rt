//! Sources and sinks in memory.

use crate::files::{calls, end_word, push_told};
use gate_base::OutOfMemory;
use gate_io::{Failed, MemSink, MemSource, Sink, read_whole, write_whole};
use std::alloc::Global;
use test_rows::{from_text, number, shown, word};

/// How many bytes a source gives, of which so many are taken at most.
fn whole(alloc: Global, source: &mut MemSource, most: &str) -> Result<String, OutOfMemory> {
    let most = number(most).min(67_108_864) as usize;
    match read_whole(alloc, source, most) {
        Ok(bytes) => format!(in alloc; "{} bytes", bytes.len()),
        Err(end) => String::from_str(alloc, end_word(end)),
    }
}

/// `source TEXT MOST FAIL`: how many bytes a source of this text gives, of which so many are taken at most, where one call fails.
pub fn read(alloc: Global, words: &str) -> Result<String, OutOfMemory> {
    let (text, rest) = word(words);
    let (most, fail) = word(rest);
    let fails = calls(alloc, fail)?;
    let mut source = MemSource::new(from_text(alloc, text)?, fails);
    whole(alloc, &mut source, most)
}

/// What writes of these pieces, a word each and eight at most, are answered.
pub fn pieces<O: Sink>(alloc: Global, sink: &mut O, words: &str) -> Result<String, OutOfMemory> {
    let mut told = String::new(alloc);
    let mut rest = words;
    for _ in 0..8 {
        if rest.is_empty() {
            break;
        }
        let (piece, behind) = word(rest);
        let piece = from_text(alloc, piece)?;
        let end = match write_whole(sink, piece.as_slice()) {
            Ok(()) => "written",
            Err(Failed) => "failed",
        };
        push_told(&mut told, end)?;
        rest = behind;
    }
    Ok(told)
}

/// What the writes are answered, and what was taken.
fn both(alloc: Global, sink: &mut MemSink, words: &str) -> Result<String, OutOfMemory> {
    let told = pieces(alloc, sink, words)?;
    let taken = shown(alloc, sink.as_slice())?;
    format!(in alloc; "{told}; {taken}")
}

/// `sink TEXT FAIL PIECE PIECE ..`: a sink that took this text is to take the pieces, and one call fails. What the writes are answered,
/// and what it took then.
pub fn written(alloc: Global, words: &str) -> Result<String, OutOfMemory> {
    let (text, rest) = word(words);
    let (fail, rest) = word(rest);
    let fails = calls(alloc, fail)?;
    let mut sink = MemSink::new(from_text(alloc, text)?, fails);
    both(alloc, &mut sink, rest)
}
