//! The numbers of the binary format, and its opcodes and kinds.

use gate_base::{Octets, OutOfMemory};
use std::alloc::Global;
use test_rows::{from_hex, hex, number, word};
use wasm_syntax::{
    EXTERNAL_KINDS, LebEnd, SECTIONS, opcode_at, read_s32, read_s64, read_u32, write_s32,
    write_s64, write_u32,
};

/// A number that was read and the place after it, or why there is none.
fn told(alloc: Global, end: Result<(i64, usize), LebEnd>) -> Result<String, OutOfMemory> {
    match end {
        Ok((n, place)) => format!(in alloc; "{n} {place}"),
        Err(end) => format!(in alloc; "{end:?}"),
    }
}

/// `u32 AT HEX`, `s32 AT HEX`, `s64 AT HEX`: the number that stands there.
fn read(alloc: Global, kind: &str, words: &str) -> Result<String, OutOfMemory> {
    let (at, digits) = word(words);
    let bytes = from_hex(alloc, digits)?;
    let at = number(at) as usize;
    if at > bytes.len() {
        return format!(in alloc; "nothing");
    }
    let b = bytes.as_slice();
    match kind {
        "u32" => told(alloc, read_u32(b, at).map(|x| (i64::from(x.0), x.1))),
        "s32" => told(alloc, read_s32(b, at).map(|x| (i64::from(x.0), x.1))),
        _ => told(alloc, read_s64(b, at)),
    }
}

/// `write-u32 N`, `write-s32 N`, `write-s64 N`: the bytes of the number.
fn written(alloc: Global, kind: &str, words: &str) -> Result<String, OutOfMemory> {
    let n = words.parse::<i64>().unwrap_or(0);
    let mut out = Octets::new(alloc);
    match kind {
        "write-u32" => write_u32(&mut out, u32::try_from(n).unwrap_or(0))?,
        "write-s32" => write_s32(&mut out, i32::try_from(n).unwrap_or(0))?,
        _ => write_s64(&mut out, n)?,
    }
    hex(alloc, out.as_slice())
}

/// `opcode HEX`: what each byte is as an opcode.
fn opcodes(alloc: Global, words: &str) -> Result<String, OutOfMemory> {
    let mut out = String::new(alloc);
    let bytes = from_hex(alloc, words)?;
    for byte in bytes.as_slice() {
        out.push_str(format!(in alloc; "{:?} ", opcode_at(*byte))?.as_str())?;
    }
    Ok(out)
}

/// `kinds`: the ids of the sections, and the bytes of what is imported and exported.
fn kinds(alloc: Global) -> Result<String, OutOfMemory> {
    let mut out = Octets::new(alloc);
    for kind in SECTIONS {
        out.push(kind.id())?;
    }
    for kind in EXTERNAL_KINDS {
        out.push(kind.byte())?;
    }
    hex(alloc, out.as_slice())
}

/// What a row on numbers, opcodes or kinds gives.
pub fn played(alloc: Global, operation: &str, words: &str) -> Result<String, OutOfMemory> {
    match operation {
        "u32" | "s32" | "s64" => read(alloc, operation, words),
        "write-u32" | "write-s32" | "write-s64" => written(alloc, operation, words),
        "opcode" => opcodes(alloc, words),
        "kinds" => kinds(alloc),
        _ => format!(in alloc; "no such row"),
    }
}
