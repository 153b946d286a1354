//! Bodies: bytes that are pushed, spliced, read and taken out.

use body_buffers::{Body, BodyEnd};
use bytes::Bytes;
use gate_base::OutOfMemory;
use std::alloc::{AllocError, Global};
use test_rows::{from_text, number, shown, word};

/// Pushes bytes so often.
fn push(body: &mut Body, piece: &[u8], times: u64) -> Result<(), BodyEnd> {
    for _ in 0..times {
        body.push(piece)?;
    }
    Ok(())
}

/// Pushes a shared piece so often.
fn push_shared(body: &mut Body, piece: &Bytes, times: u64) -> Result<(), BodyEnd> {
    for _ in 0..times {
        body.push_shared(piece.slice(..)?)?;
    }
    Ok(())
}

/// Puts bytes in place of those of a range, so often.
fn splice(
    alloc: Global,
    body: &mut Body,
    start: u64,
    size: u64,
    given: &[u8],
    times: u64,
) -> Result<(), BodyEnd> {
    for _ in 0..times {
        body.splice(alloc, start as usize, size as usize, given)?;
    }
    Ok(())
}

/// How many bytes there are after a change.
fn told(alloc: Global, body: &Body, changed: Result<(), BodyEnd>) -> Result<String, OutOfMemory> {
    match changed {
        Ok(()) => format!(in alloc; "{}", body.len()),
        Err(BodyEnd::OverLimit) => format!(in alloc; "over the limit, {}", body.len()),
        Err(BodyEnd::OutOfMemory) => Err(AllocError),
    }
}

/// `push TIMES TEXT` and `shared TIMES TEXT`: how many bytes there are then.
fn pushed(
    alloc: Global,
    body: &mut Body,
    operation: &str,
    words: &str,
) -> Result<String, OutOfMemory> {
    let (times, text) = word(words);
    let piece = from_text(alloc, text)?;
    let changed = if operation == "push" {
        push(body, piece.as_slice(), number(times))
    } else {
        push_shared(body, &Bytes::from_vec(piece.into_vec())?, number(times))
    };
    told(alloc, body, changed)
}

/// `splice TIMES START SIZE TEXT`: how many bytes there are then.
fn spliced(alloc: Global, body: &mut Body, words: &str) -> Result<String, OutOfMemory> {
    let (times, rest) = word(words);
    let (start, rest) = word(rest);
    let (size, text) = word(rest);
    let given = from_text(alloc, text)?;
    let changed = splice(
        alloc,
        body,
        number(start),
        number(size),
        given.as_slice(),
        number(times),
    );
    told(alloc, body, changed)
}

/// `read START MOST`: the bytes.
fn part(alloc: Global, body: &Body, words: &str) -> Result<String, OutOfMemory> {
    let (start, most) = word(words);
    let start = usize::min(number(start) as usize, body.len());
    let bytes = body.read(alloc, start, number(most) as usize)?;
    shown(alloc, bytes.as_slice())
}

/// `take`: the bytes that were taken out, and how many are left.
fn taken(alloc: Global, body: &mut Body) -> Result<String, OutOfMemory> {
    let bytes = body.take(alloc).into_octets()?;
    let text = shown(alloc, bytes.as_slice())?;
    format!(in alloc; "{} and {}, {}", text.as_str(), body.len(), body.is_empty())
}

/// `body OPERATION WORDS`: what an operation on the body gives.
pub fn played(alloc: Global, body: &mut Body, words: &str) -> Result<String, OutOfMemory> {
    let (operation, rest) = word(words);
    match operation {
        "push" | "shared" => pushed(alloc, body, operation, rest),
        "splice" => spliced(alloc, body, rest),
        "read" => part(alloc, body, rest),
        _ => taken(alloc, body),
    }
}
