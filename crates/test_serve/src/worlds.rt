// Worlds in memory.
ghost use Rattle.std.specs.Prelude.{[], ◌≡◌, IfOk, Some};
ghost use Rattle.gate_io.specs.MemoryWorld.{last_in};
ghost use Rattle.gate_io.specs.Sites.{IsFresh};

use crate::files::calls;
use gate_base::{CallNos, OutOfMemory};
use gate_io::{Event, MemSite, MemWorld, are_in_order};
use replay_script::{Command, ScriptEnd, events_of, read_script};
use std::alloc::Global;
use std::marker::Model;
use std::mem;
use test_rows::{from_text, number, word};

/// Worlds that are laid out, in which nothing has happened.
#[derive(Drop)]
pub struct Worlds {
    list: Vec<MemWorld>,
}

impl Model for Worlds {
    ghost use Rattle.std.specs.Prelude.{List};
    ghost use Rattle.gate_io.specs.MemoryWorld.{MemoryWorld};
    ghost use Rattle.gate_io.specs.Sites.{AreFresh};

    ghost Value = { List MemoryWorld };

    ghost view = { λ w. w.list.items };

    ghost invariant = { λ w. AreFresh w.list.items };
}

/// The commands of a script of one worker.
fn commands(alloc: Global, text: &str) -> Result<Vec<Command>, ScriptEnd> {
    let text = from_text(alloc, text)?;
    if text.len() > 67_108_864 {
        return Err(ScriptEnd::BadLine { number: 0 });
    }
    read_script(alloc, text.as_slice(), 1)
}

/// The events of a script of one worker; none where it is no script.
fn events(alloc: Global, text: &str) -> Result<Vec<Event>, OutOfMemory> {
    match commands(alloc, text) {
        Ok(commands) => events_of(alloc, commands),
        Err(_) => Ok(Vec::new(alloc)),
    }
}

/// How many bytes of a piece a world takes at most; all for `-`.
fn most_of(word: &str) -> Option<usize> {
    match word {
        "-" => None,
        n => Some(number(n).min(67_108_864) as usize),
    }
}

/// A world of these events; of none where no world gives them in this order.
fn world_of(alloc: Global, events: Vec<Event>, most: Option<usize>, fails: CallNos) -> MemWorld
    ensures { IsFresh (Some result.trace) (last_in result) result.faults }
{
    let events = if are_in_order(&events) {
        events
    } else {
        Vec::new(alloc)
    };
    MemWorld::new(alloc, events, [7; 32], most, fails)
}

/// The world of a row `MOST FAIL REFUSED SCRIPT`.
fn world(alloc: Global, words: &str) -> Result<MemWorld, OutOfMemory>
    ensures { IfOk result (λ w. IsFresh (Some w.trace) (last_in w) w.faults) }
{
    let (most, rest) = word(words);
    let (fail, rest) = word(rest);
    let (refused, script) = word(rest);
    let events = events(alloc, script)?;
    let mut world = world_of(alloc, events, most_of(most), calls(alloc, fail)?);
    world.refuse_memory(calls(alloc, refused)?);
    Ok(world)
}

impl Worlds {
    /// No world is laid out.
    pub fn new(alloc: Global) -> Self {
        Worlds {
            list: Vec::new(alloc),
        }
    }

    /// `world MOST FAIL REFUSED SCRIPT`: lays out a world of the events of a script, which takes so many bytes of a piece at most, all for `-`,
    /// of whose calls these fail, and of whose calls of `send` these are refused memory: 0 for none, and `1+3` for the first and the third.
    pub fn lay(&mut self, alloc: Global, words: &str) -> Result<(), OutOfMemory> {
        let world = world(alloc, words)?;
        self.list.push(world)?;
        Ok(())
    }

    /// A site over the worlds that are laid out, after which none is, of whose starts these fail.
    pub fn take(&mut self, alloc: Global, fails: CallNos) -> MemSite {
        let list = mem::replace(&mut self.list, Vec::new(alloc));
        MemSite::new(alloc, list, fails)
    }
}
