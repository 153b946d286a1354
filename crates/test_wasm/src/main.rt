//! Plays rows on the layer of WebAssembly, one a line of standard input, and writes what each gives: modules that are read,
//! validated, written again, linked, run and called, and numbers of the binary format.
//!
//! A row that begins with `#` is written as it is. `front HEX` and `back HEX` set what stands in front of and after the bytes of
//! the rows that follow.
#![tactic(auto)]

mod bytes;
mod calls;
mod leb;
mod numeric;
mod runs;
mod stores;

use crate::bytes::Around;
use gate_base::OutOfMemory;
use std::alloc::Global;
use std::io;
use test_rows::word;

/// What a row on the bytes of a module gives.
fn on_bytes(
    alloc: Global,
    around: &Around,
    operation: &str,
    words: &str,
) -> Result<String, OutOfMemory> {
    match operation {
        "read" => bytes::read(alloc, around, words),
        "zeros" => bytes::zeros(alloc, words),
        "opcodes" => bytes::opcodes(alloc, around, words),
        "targets" => bytes::targets(alloc, around, words),
        "valid" => bytes::valid(alloc, around, words),
        "shorten" => bytes::shortened(alloc, around, words),
        "made" => numeric::made(alloc, around, words),
        "link" => stores::linked(alloc, around, words),
        "invoke" => calls::called(alloc, around, words),
        "run" => runs::played(alloc, around, words),
        _ => leb::played(alloc, operation, words),
    }
}

/// Sets what stands in front of and after the bytes of the rows that follow, where the row does that.
fn is_set(alloc: Global, around: &mut Around, row: &str) -> Result<bool, OutOfMemory> {
    let (operation, words) = word(row);
    let bytes = test_rows::from_hex(alloc, words)?;
    match operation {
        "front" => {
            around.front = bytes;
            Ok(true)
        }
        "back" => {
            around.back = bytes;
            Ok(true)
        }
        _ => Ok(false),
    }
}

fn main(rt: HostRuntime) -> io::Result<()> {
    let alloc = rt.alloc();
    let mut around = Around::new(alloc);
    for line in rt.lines(alloc) {
        let line = line?;
        let row = line.as_str();
        if row.starts_with("#") {
            println!(rt; "{row}")?;
            continue;
        }
        if is_set(alloc, &mut around, row)? {
            continue;
        }
        let (operation, words) = word(row);
        let text = on_bytes(alloc, &around, operation, words)?;
        println!(rt; "{text}")?;
    }
    Ok(())
}
