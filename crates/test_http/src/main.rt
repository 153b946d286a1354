//! Plays rows on the layer of HTTP, one a line of standard input, and writes what each gives: header lists, heads that are read,
//! chunked bodies, streams of messages, items that are written, and replies of the gateway's own.
//!
//! A row that begins with `#` is written as it is. Texts have escapes, as the library of rows says.
#![tactic(auto)]

mod chunks;
mod heads;
mod items;
mod lists;
mod replies;
mod streams;

use crate::items::Written;
use gate_base::{Octets, OutOfMemory};
use header_maps::HeaderList;
use std::alloc::Global;
use std::io;
use test_rows::word;

/// What is kept from row to row: the list that is worked on, and what was written.
#[derive(Drop)]
struct Kept {
    list: HeaderList,
    written: Written,
}

/// What a row on a text gives.
fn on_text(alloc: Global, operation: &str, words: &str) -> Result<Octets, OutOfMemory> {
    match operation {
        "head" => heads::both(alloc, words),
        "used" => heads::used(alloc, words),
        "up" => heads::sent(alloc, words),
        "connection" => heads::connection(alloc, words),
        "listed" => heads::listed(alloc, words),
        "chunks" => chunks::answered(alloc, words),
        "chunks-used" => chunks::used(alloc, words),
        "chunks-sizes" => chunks::sizes(alloc, words),
        "chunks-by-byte" => chunks::by_byte(alloc, words),
        "stream" => streams::handed(alloc, words),
        "stream-sizes" => streams::sizes(alloc, words),
        "framing" => items::framing(alloc, words),
        _ => Octets::from_slice(alloc, b"no such row"),
    }
}

/// What a row gives.
fn played(alloc: Global, kept: &mut Kept, row: &str) -> Result<Octets, OutOfMemory> {
    let (operation, words) = word(row);
    match operation {
        "new" | "request" | "response" | "of" | "set" | "add" | "replace" | "remove" => {
            lists::changed(alloc, &mut kept.list, operation, words)
        }
        "get" | "first" | "about" | "copy" => lists::told(alloc, &kept.list, operation, words),
        "reply" => replies::replied(alloc, &kept.list, words),
        "clear" | "tail" | "write-head" | "write-piece" | "write-trailers" | "write-request" => {
            items::write_out(alloc, &mut kept.written, &kept.list, operation, words)
        }
        _ => on_text(alloc, operation, words),
    }
}

/// Writes what a row gives.
fn show(rt: &HostRuntime, kept: &mut Kept, row: &str) -> io::Result<()> {
    if row.starts_with("#") {
        return println!(rt; "{row}");
    }
    let alloc = rt.alloc();
    let bytes = played(alloc, kept, row)?;
    let text = test_rows::shown(alloc, bytes.as_slice())?;
    println!(rt; "{text}")
}

fn main(rt: HostRuntime) -> io::Result<()> {
    let alloc = rt.alloc();
    let mut kept = Kept {
        list: HeaderList::new(alloc),
        written: Written::new(alloc),
    };
    for line in rt.lines(alloc) {
        show(&rt, &mut kept, line?.as_str())?;
    }
    Ok(())
}
