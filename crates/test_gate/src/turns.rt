//! The world of a script, turn by turn.

use crate::scripts::{events_in, refusal};
use crate::things::{line_of, lines_of};
use crate::worlds::next_told;
use gate_base::{Level, LineNo, OutOfMemory};
use gate_io::{Event, Side, World, are_in_order};
use replay_script::ScriptWorld;
use std::alloc::Global;
use test_rows::{hex, word};

/// Sends a world each kind of thing: a connection, bytes for both sides, none of them for the client, an empty line of the log, and a
/// close.
fn send_each(alloc: Global, line: LineNo, world: &mut ScriptWorld) -> Result<(), OutOfMemory> {
    world.connect(alloc, line)?;
    let _ = world.send(alloc, line, Side::Up, b"G")?;
    let _ = world.send(alloc, line, Side::Down, b"")?;
    world.log(alloc, Level::Info, b"")?;
    world.close(alloc, line, Side::Down)
}

/// What the world gives next, and the lines of output of what it then took.
fn turn(alloc: Global, line: LineNo, world: &mut ScriptWorld) -> Result<String, OutOfMemory> {
    let event = next_told(alloc, world)?;
    send_each(alloc, line, world)?;
    let taken = lines_of(alloc, world.taken())?;
    format!(in alloc; "{event}: {taken}")
}

/// The seed of a world, and four turns.
fn four(alloc: Global, line: LineNo, world: &mut ScriptWorld) -> Result<String, OutOfMemory> {
    let mut told = hex(alloc, &world.seed())?;
    for _ in 0..4 {
        told.push_str("; ")?;
        told.push_str(turn(alloc, line, world)?.as_str())?;
    }
    Ok(told)
}

/// The turns of a world of these events.
fn over(alloc: Global, line: LineNo, events: Vec<Event>) -> Result<String, OutOfMemory> {
    if !are_in_order(&events) {
        return String::from_str(alloc, "out of order");
    }
    let mut world = ScriptWorld::new(alloc, events);
    four(alloc, line, &mut world)
}

/// `plays LINE WORKERS TEXT`: the seed of a script's world, and four turns in which it gives an event and is sent each kind of thing on
/// this line: the event, and the lines of output of what it took.
pub fn played(alloc: Global, words: &str) -> Result<String, OutOfMemory> {
    let (line, rest) = word(words);
    match events_in(alloc, rest) {
        Ok(events) => over(alloc, line_of(line), events),
        Err(end) => refusal(alloc, end),
    }
}
