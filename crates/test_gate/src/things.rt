//! What happens and what is sent, as words and as lines of output.

use gate_base::{Level, LineNo, Octets, OutOfMemory, WorkerNo};
use gate_io::{Sent, Side, What};
use replay_script::{print_on, print_sent};
use std::alloc::Global;
use test_rows::{from_text, number, shown, word};

/// The word of what happened.
pub fn what_word(what: &What) -> &'static str {
    match what {
        What::Opened { .. } => "opened",
        What::Bytes { side, .. } => by_side(*side, "bytes", "upbytes"),
        What::End { side, .. } => by_side(*side, "end", "upend"),
        What::Gone { side, .. } => by_side(*side, "gone", "upgone"),
        What::Joined { .. } => "joined",
        What::Refused { .. } => "refused",
        What::Room { side, .. } => by_side(*side, "room", "uproom"),
        What::Clock => "clock",
        What::Stop => "stop",
    }
}

/// One of two words.
fn by_side(side: Side, down: &'static str, up: &'static str) -> &'static str {
    match side {
        Side::Down => down,
        Side::Up => up,
    }
}

/// A line of the number that a word has; 1 for any other word.
pub fn line_of(word: &str) -> LineNo {
    let line = u32::try_from(number(word)).ok().and_then(LineNo::new);
    match line {
        Some(line) => line,
        None => LineNo::new(1).unwrap(),
    }
}

/// The level of a word.
fn level_of(word: &str) -> Level {
    match word {
        "trace" => Level::Trace,
        "debug" => Level::Debug,
        "warn" => Level::Warn,
        "error" => Level::Error,
        "critical" => Level::Critical,
        _ => Level::Info,
    }
}

/// Bytes for a side.
fn bytes_of(alloc: Global, side: Side, line: &str, text: &str) -> Result<Sent, OutOfMemory> {
    Ok(Sent::Bytes {
        line: line_of(line),
        side,
        bytes: from_text(alloc, text)?,
    })
}

/// `connect LINE`, `up LINE TEXT`, `down LINE TEXT`, `close LINE`, `upclose LINE` and `log LEVEL TEXT` as what is sent.
fn sent_of(alloc: Global, words: &str) -> Result<Sent, OutOfMemory> {
    let (kind, rest) = word(words);
    let (first, text) = word(rest);
    match kind {
        "up" => bytes_of(alloc, Side::Up, first, text),
        "down" => bytes_of(alloc, Side::Down, first, text),
        "close" | "upclose" => Ok(Sent::Close {
            line: line_of(first),
            side: if kind == "close" {
                Side::Down
            } else {
                Side::Up
            },
        }),
        "log" => Ok(Sent::Log {
            level: level_of(first),
            text: from_text(alloc, text)?,
        }),
        _ => Ok(Sent::Connect {
            line: line_of(first),
        }),
    }
}

/// The lines of output of what is sent.
pub fn lines_of(alloc: Global, all: &[Sent]) -> Result<String, OutOfMemory> {
    let mut out = Octets::new(alloc);
    for sent in all {
        print_sent(alloc, &mut out, sent)?;
    }
    shown(alloc, out.as_slice())
}

/// `print THING,THING ..`: the lines of output of these things.
pub fn printed(alloc: Global, words: &str) -> Result<String, OutOfMemory> {
    let mut all = Vec::new(alloc);
    for thing in words.split(',') {
        all.push(sent_of(alloc, thing)?)?;
    }
    lines_of(alloc, &all)
}

/// `print-on WORKER`: the line of output that tells of which worker what follows is.
pub fn printed_on(alloc: Global, words: &str) -> Result<String, OutOfMemory> {
    let Some(who) = WorkerNo::new(number(words).min(255) as u8) else {
        return String::from_str(alloc, "no such worker");
    };
    let mut out = Octets::new(alloc);
    print_on(alloc, &mut out, who)?;
    shown(alloc, out.as_slice())
}
