//! Plays rows on serving, one a line of standard input: files and worlds in memory are laid out, and then the program's command is run over
//! them, each worker in a thread of its own.
//!
//! `text PATH TEXT` and `module PATH HEX` lay out a file, `world MOST FAIL REFUSED SCRIPT` lays out a world for the next row that serves, and
//! `serve GATE START/READ WRITE/LINE WORD,WORD..` runs the command of these words. A row that begins with `#` is written as it is. Texts have escapes,
//! as the library of rows says.
#![tactic(auto)]

mod files;
mod gates;
mod running;
mod told;
mod worlds;

use crate::worlds::Worlds;
use gate_base::{Members, OutOfMemory, Pairs};
use std::alloc::Global;
use std::io;
use std::sync::Wait;
use std::thread::Threads;
use test_rows::word;

/// What a row gives; nothing where it lays out what the next rows are played over.
fn played<R: Threads + Wait + Sync>(
    rt: &R,
    alloc: Global,
    files: &mut Pairs,
    worlds: &mut Worlds,
    row: &str,
) -> Result<Option<String>, OutOfMemory> {
    let (operation, words) = word(row);
    match operation {
        "text" => files::lay_text(alloc, files, words)?,
        "module" => files::lay_module(alloc, files, words)?,
        "world" => worlds.lay(alloc, words)?,
        "serve" => return Ok(Some(running::served(rt, alloc, files, worlds, words)?)),
        _ => return Ok(Some(String::from_str(alloc, "no such row")?)),
    }
    Ok(None)
}

fn main(rt: HostRuntime) -> io::Result<()> {
    let alloc = rt.alloc();
    let mut files = Members::new(alloc);
    let mut worlds = Worlds::new(alloc);
    for line in rt.lines(alloc) {
        let line = line?;
        let row = line.as_str();
        if row.starts_with("#") {
            println!(rt; "{row}")?;
            continue;
        }
        if let Some(text) = played(&rt, alloc, &mut files, &mut worlds, row)? {
            println!(rt; "{text}")?;
        }
    }
    Ok(())
}
