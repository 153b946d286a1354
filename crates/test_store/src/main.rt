//! Plays rows on the base types, on bodies and on the shared store, one a line of standard input, and writes what each gives.
//!
//! A row that begins with `#` is written as it is. Texts have escapes, as the library of rows says.
#![tactic(auto)]

ghost use Rattle.store_model.specs.Limits.{IsWithin};

mod base;
mod bodies;
mod keys;
mod queues;

use body_buffers::Body;
use gate_base::{OutOfMemory, VmNo};
use shared_data::SharedData;
use shared_queues::SharedQueues;
use std::alloc::Global;
use std::io;
use store_model::{MOST_BYTES, MOST_NAMES, Used};
use test_rows::{number, word};

/// What is kept from row to row: a body, and the keys and the queues of a store.
#[derive(Drop)]
struct Kept {
    body: Body,
    keys: SharedData,
    queues: SharedQueues,
}

/// What two numbers say that the other part of the store uses, within the limits.
fn used(names: u64, bytes: u64) -> Used
    ensures { IsWithin result }
{
    Used {
        names: u64::min(names, MOST_NAMES),
        bytes: u64::min(bytes, MOST_BYTES),
    }
}

/// The parts of a store of this VM, with nothing in them.
fn opened(alloc: Global, vm: u64) -> Option<Kept> {
    let vm = VmNo::new(u8::try_from(vm).ok()?)?;
    Some(Kept {
        body: Body::new(alloc),
        keys: SharedData::new(alloc),
        queues: SharedQueues::new(alloc, vm),
    })
}

/// What a row on the keys or the queues gives, beside a part that uses these names and bytes.
fn on_store(
    alloc: Global,
    kept: &mut Kept,
    operation: &str,
    words: &str,
) -> Result<String, OutOfMemory> {
    let (names, rest) = word(words);
    let (bytes, rest) = word(rest);
    let other = used(number(names), number(bytes));
    match operation {
        "get" | "set" => keys::played(alloc, &mut kept.keys, operation, rest, other),
        _ => queues::played(alloc, &mut kept.queues, operation, rest, other),
    }
}

/// What so many repetitions of a row give, which is to be the same each time.
fn repeated(alloc: Global, kept: &mut Kept, words: &str) -> Result<String, OutOfMemory> {
    let (times, row) = word(words);
    let (operation, rest) = word(row);
    let first = on_store(alloc, kept, operation, rest)?;
    for _ in 1..number(times) {
        let next = on_store(alloc, kept, operation, rest)?;
        if next.as_str() != first.as_str() {
            return Ok(next);
        }
    }
    Ok(first)
}

/// What a row gives.
fn played(alloc: Global, kept: &mut Kept, row: &str) -> Result<String, OutOfMemory> {
    let (operation, words) = word(row);
    match operation {
        "store" => match opened(alloc, number(words)) {
            Some(fresh) => {
                *kept = fresh;
                format!(in alloc; "opened")
            }
            None => format!(in alloc; "no such VM"),
        },
        "times" => repeated(alloc, kept, words),
        "used-by-keys" => base::uses(alloc, kept.keys.used()),
        "used-by-queues" => base::uses(alloc, kept.queues.used()),
        "body" => bodies::played(alloc, &mut kept.body, words),
        "items" => queues::items(alloc, &kept.queues, words),
        "get" | "set" | "register" | "resolve" | "enqueue" | "dequeue" | "notice" => {
            on_store(alloc, kept, operation, words)
        }
        _ => base::played(alloc, operation, words),
    }
}

fn main(rt: HostRuntime) -> io::Result<()> {
    let alloc = rt.alloc();
    let Some(mut kept) = opened(alloc, 0) else {
        return Ok(());
    };
    for line in rt.lines(alloc) {
        let line = line?;
        let row = line.as_str();
        if row.starts_with("#") {
            println!(rt; "{row}")?;
            continue;
        }
        let text = played(alloc, &mut kept, row)?;
        println!(rt; "{text}")?;
    }
    Ok(())
}
