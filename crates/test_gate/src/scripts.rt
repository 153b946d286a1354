//! Scripts: their lines, their events, and the workers of these.

use crate::files::push_told;
use crate::things::what_word;
use crate::worlds::event_told;
use gate_base::OutOfMemory;
use gate_io::{Event, are_in_order};
use replay_script::{Command, ScriptEnd, events_of, read_script, workers_of};
use std::alloc::Global;
use test_rows::{from_text, number, word};

/// The commands of a row `WORKERS TEXT`.
fn commands(alloc: Global, words: &str) -> Result<Vec<Command>, ScriptEnd> {
    let (workers, text) = word(words);
    let text = from_text(alloc, text)?;
    if text.len() > 67_108_864 {
        return Err(ScriptEnd::BadLine { number: 0 });
    }
    let workers = number(workers).max(1).min(8) as u8;
    read_script(alloc, text.as_slice(), workers)
}

/// The events of a row `WORKERS TEXT`.
pub fn events_in(alloc: Global, words: &str) -> Result<Vec<Event>, ScriptEnd> {
    Ok(events_of(alloc, commands(alloc, words)?)?)
}

/// What is told of a script that is refused.
pub fn refusal(alloc: Global, end: ScriptEnd) -> Result<String, OutOfMemory> {
    match end {
        ScriptEnd::BadLine { number } => format!(in alloc; "bad line {number}"),
        ScriptEnd::OutOfMemory => String::from_str(alloc, "out of memory"),
    }
}

/// `script WORKERS TEXT`: how many lines a script of so many workers has, or the number of its first line of no form.
pub fn read(alloc: Global, words: &str) -> Result<String, OutOfMemory> {
    match &commands(alloc, words) {
        Ok(commands) => format!(in alloc; "{} lines", commands.len()),
        Err(end) => refusal(alloc, *end),
    }
}

/// The word of what happens at a line.
fn line_word(alloc: Global, command: &Command) -> Result<&'static str, OutOfMemory> {
    match &command.what(alloc)? {
        Some(what) => Ok(what_word(what)),
        None => Ok("-"),
    }
}

/// The words of what happens at lines.
fn line_words(alloc: Global, commands: &[Command]) -> Result<String, OutOfMemory> {
    let mut told = String::new(alloc);
    for command in commands {
        push_told(&mut told, line_word(alloc, command)?)?;
    }
    Ok(told)
}

/// `lines WORKERS TEXT`: what happens at each line of a script, `-` for nothing.
pub fn lines(alloc: Global, words: &str) -> Result<String, OutOfMemory> {
    match &commands(alloc, words) {
        Ok(commands) => line_words(alloc, commands.as_slice()),
        Err(end) => refusal(alloc, *end),
    }
}

/// How many lines are `stop`, and whether the first is `open`.
fn stop_words(alloc: Global, commands: &[Command]) -> Result<String, OutOfMemory> {
    let stops = commands.iter().filter(|command| command.is_stop()).count();
    let opens = matches!(commands.first(), Some(Command::Open { .. }));
    format!(in alloc; "{stops}, {opens}")
}

/// `stops WORKERS TEXT`: how many lines of a script are `stop`, and whether the first is `open`.
pub fn stops(alloc: Global, words: &str) -> Result<String, OutOfMemory> {
    match &commands(alloc, words) {
        Ok(commands) => stop_words(alloc, commands.as_slice()),
        Err(end) => refusal(alloc, *end),
    }
}

/// The moments and words of events, and whether a world may give them in this order.
fn event_words(alloc: Global, events: &[Event]) -> Result<String, OutOfMemory> {
    let mut told = String::new(alloc);
    for event in events {
        let one = event_told(alloc, event)?;
        push_told(&mut told, one.as_str())?;
    }
    format!(in alloc; "{told}; in order {}", are_in_order(events))
}

/// `events WORKERS TEXT`: the events of a script, and whether a world may give them in this order.
pub fn events(alloc: Global, words: &str) -> Result<String, OutOfMemory> {
    match &events_in(alloc, words) {
        Ok(events) => event_words(alloc, events.as_slice()),
        Err(end) => refusal(alloc, *end),
    }
}

/// The workers of the events of lines.
fn worker_words(alloc: Global, commands: &[Command]) -> Result<String, OutOfMemory> {
    let mut told = String::new(alloc);
    for who in workers_of(alloc, commands)? {
        let one = format!(in alloc; "{}", who.get())?;
        push_told(&mut told, one.as_str())?;
    }
    Ok(told)
}

/// `workers WORKERS TEXT`: the worker of each event of a script.
pub fn workers(alloc: Global, words: &str) -> Result<String, OutOfMemory> {
    match &commands(alloc, words) {
        Ok(commands) => worker_words(alloc, commands.as_slice()),
        Err(end) => refusal(alloc, *end),
    }
}
