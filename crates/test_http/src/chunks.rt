//! Chunked bodies: what a reader answers of a text.

use gate_base::{Octets, OutOfMemory};
use h1_chunks::{ChunkReader, ChunkStep};
use header_maps::HeaderList;
use std::alloc::Global;
use test_rows::from_text;

/// Puts fields at the end, each after a blank.
fn push_fields(out: &mut Octets, fields: &HeaderList) -> Result<(), OutOfMemory> {
    for at in 0..fields.len() {
        let (name, value) = fields.pair(at);
        out.push(b' ')?;
        out.extend_from_slice(name)?;
        out.push(b'=')?;
        out.extend_from_slice(value)?;
    }
    Ok(())
}

/// Puts an answer at the end, its data in brackets or its trailers after `end`, and gives how many bytes it used.
fn push_step(alloc: Global, out: &mut Octets, step: &ChunkStep) -> Result<usize, OutOfMemory> {
    match step {
        ChunkStep::Data { bytes, used } => {
            out.push(b'[')?;
            out.extend_from_slice(bytes.as_slice())?;
            out.push(b']')?;
            Ok(*used)
        }
        ChunkStep::End { trailers, used } => {
            out.extend_from_slice(b"end")?;
            push_fields(out, trailers)?;
            Ok(*used)
        }
        ChunkStep::NotYet => {
            out.extend_from_slice(b"not yet")?;
            Ok(0)
        }
        ChunkStep::Refused { number } => {
            let text = format!(in alloc; "{number}")?;
            out.extend_from_slice(text.as_str().as_bytes())?;
            Ok(0)
        }
    }
}

/// Puts a reader's next answer at the end, and gives how many bytes it used.
fn push_next(
    alloc: Global,
    out: &mut Octets,
    reader: &mut ChunkReader,
    text: &[u8],
) -> Result<usize, OutOfMemory> {
    let step = reader.next(alloc, text)?;
    push_step(alloc, out, &step)
}

/// Puts all answers to a text at the end, up to one that uses nothing, and gives how many bytes they used.
fn push_answers(alloc: Global, out: &mut Octets, text: &[u8]) -> Result<usize, OutOfMemory> {
    let mut reader = ChunkReader::new();
    let mut rest = text;
    for _ in 0..=text.len() {
        match rest.get(push_next(alloc, out, &mut reader, rest)?..) {
            Some(more) if more.len() < rest.len() => rest = more,
            Some(_) | None => break,
        }
    }
    Ok(text.len().saturating_sub(rest.len()))
}

/// `chunks TEXT`: all answers.
pub fn answered(alloc: Global, words: &str) -> Result<Octets, OutOfMemory> {
    let text = from_text(alloc, words)?;
    let mut out = Octets::new(alloc);
    push_answers(alloc, &mut out, text.as_slice())?;
    Ok(out)
}

/// `chunks-used TEXT`: all answers, and how many bytes they used.
pub fn used(alloc: Global, words: &str) -> Result<Octets, OutOfMemory> {
    let text = from_text(alloc, words)?;
    let mut out = Octets::new(alloc);
    let used = push_answers(alloc, &mut out, text.as_slice())?;
    let behind = format!(in alloc; ", used {used}")?;
    out.extend_from_slice(behind.as_str().as_bytes())?;
    Ok(out)
}

/// How many bytes of data an answer has, and how many bytes it used.
fn size_of(step: &ChunkStep) -> (usize, usize) {
    match step {
        ChunkStep::Data { bytes, used } => (bytes.len(), *used),
        ChunkStep::End { used, .. } => (0, *used),
        ChunkStep::NotYet | ChunkStep::Refused { .. } => (0, 0),
    }
}

/// How many bytes of data a reader's next answer has, and how many it used.
fn next_size(
    alloc: Global,
    reader: &mut ChunkReader,
    text: &[u8],
) -> Result<(usize, usize), OutOfMemory> {
    let step = reader.next(alloc, text)?;
    Ok(size_of(&step))
}

/// Puts the sizes of the first answers to a text at the end.
fn push_sizes(alloc: Global, out: &mut Octets, text: &[u8]) -> Result<(), OutOfMemory> {
    let mut reader = ChunkReader::new();
    let mut rest = text;
    for _ in 0..8 {
        let (size, used) = next_size(alloc, &mut reader, rest)?;
        let told = format!(in alloc; "{size}/{used} ")?;
        out.extend_from_slice(told.as_str().as_bytes())?;
        rest = rest.get(used..).unwrap_or(&[]);
    }
    Ok(())
}

/// `chunks-sizes TEXT`: how many bytes of data each answer has, and how many it used.
pub fn sizes(alloc: Global, words: &str) -> Result<Octets, OutOfMemory> {
    let text = from_text(alloc, words)?;
    let mut out = Octets::new(alloc);
    push_sizes(alloc, &mut out, text.as_slice())?;
    Ok(out)
}

/// Puts an answer to what is held at the end, and `?` where it does not use all of that; and tells whether it is one.
fn push_whole(
    alloc: Global,
    out: &mut Octets,
    step: &ChunkStep,
    held: usize,
) -> Result<bool, OutOfMemory> {
    if matches!(step, ChunkStep::NotYet) {
        return Ok(false);
    }
    if push_step(alloc, out, step)? != held {
        out.push(b'?')?;
    }
    Ok(true)
}

/// Puts a reader's answer to what is held at the end, and tells whether it is one.
fn push_held(
    alloc: Global,
    out: &mut Octets,
    reader: &mut ChunkReader,
    held: &[u8],
) -> Result<bool, OutOfMemory> {
    let step = reader.next(alloc, held)?;
    push_whole(alloc, out, &step, held.len())
}

/// `chunks-by-byte TEXT`: all answers where the text comes byte by byte, and `?` after one that does not use all that is held.
pub fn by_byte(alloc: Global, words: &str) -> Result<Octets, OutOfMemory> {
    let text = from_text(alloc, words)?;
    let mut out = Octets::new(alloc);
    let mut reader = ChunkReader::new();
    let mut held = Octets::new(alloc);
    for byte in text.as_slice() {
        held.push(*byte)?;
        if push_held(alloc, &mut out, &mut reader, held.as_slice())? {
            held.clear();
        }
    }
    Ok(out)
}
