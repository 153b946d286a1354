//! What is told of a run, put after a text.

use gate_base::{LineNo, OutOfMemory};
use gate_io::{MemSite, MemWorld, Passed, Sent, Settings, Side};
use std::alloc::Global;
use test_rows::shown;

/// Puts a number at the end.
pub fn tell_number(alloc: Global, out: &mut String, n: u64) -> Result<(), OutOfMemory> {
    let digits = format!(in alloc; "{n}")?;
    out.push_str(digits.as_str())
}

/// Puts bytes at the end, as a text with escapes.
pub fn tell_bytes(alloc: Global, out: &mut String, bytes: &[u8]) -> Result<(), OutOfMemory> {
    let text = shown(alloc, bytes)?;
    out.push_str(text.as_str())
}

/// Puts a comma at the end, but for the first of a list.
fn tell_comma(out: &mut String, is_first: bool) -> Result<(), OutOfMemory> {
    if is_first { Ok(()) } else { out.push_str(", ") }
}

/// One of two words.
fn by_side(side: Side, down: &'static str, up: &'static str) -> &'static str {
    match side {
        Side::Down => down,
        Side::Up => up,
    }
}

/// Puts a word and the number of a line at the end.
fn tell_line(alloc: Global, out: &mut String, word: &str, line: LineNo) -> Result<(), OutOfMemory> {
    out.push_str(word)?;
    tell_number(alloc, out, u64::from(line.get()))
}

/// Puts a thing that was sent at the end.
fn tell_sent(alloc: Global, out: &mut String, sent: &Sent) -> Result<(), OutOfMemory> {
    match sent {
        Sent::Connect { line } => tell_line(alloc, out, "connect ", *line),
        Sent::Bytes { line, side, bytes } => {
            tell_line(alloc, out, by_side(*side, "down ", "up "), *line)?;
            out.push_str(" ")?;
            tell_bytes(alloc, out, bytes.as_slice())
        }
        Sent::Close { line, side } => {
            tell_line(alloc, out, by_side(*side, "close ", "upclose "), *line)
        }
        Sent::Log { text, .. } => {
            out.push_str("log ")?;
            tell_bytes(alloc, out, text.as_slice())
        }
    }
}

/// Puts what a world took, in order, at the end.
fn tell_world(alloc: Global, out: &mut String, world: &MemWorld) -> Result<(), OutOfMemory> {
    let mut is_first = true;
    for step in world.trace() {
        if let Passed::Took { sent } = step {
            tell_comma(out, is_first)?;
            tell_sent(alloc, out, sent)?;
            is_first = false;
        }
    }
    Ok(())
}

/// Puts what the worlds took that a site was given back, one after the other, at the end.
pub fn tell_worlds(alloc: Global, out: &mut String, site: &MemSite) -> Result<(), OutOfMemory> {
    for world in site.returned() {
        out.push_str("; took ")?;
        tell_world(alloc, out, world)?;
    }
    Ok(())
}

/// Puts how many lines a site is started for at the end, where that is told.
fn tell_lines(alloc: Global, out: &mut String, lines: Option<u32>) -> Result<(), OutOfMemory> {
    match lines {
        None => Ok(()),
        Some(n) => {
            out.push_str(" until ")?;
            tell_number(alloc, out, u64::from(n))
        }
    }
}

/// Puts what a site is started with at the end.
fn tell_settings(alloc: Global, out: &mut String, settings: &Settings) -> Result<(), OutOfMemory> {
    out.push_str(settings.listen.as_str())?;
    out.push_str(" ")?;
    out.push_str(settings.upstream.as_str())?;
    out.push_str(" ")?;
    tell_number(alloc, out, u64::from(settings.workers))?;
    tell_lines(alloc, out, settings.stop_after)
}

/// Puts what a site was started with, each time, at the end.
pub fn tell_starts(alloc: Global, out: &mut String, site: &MemSite) -> Result<(), OutOfMemory> {
    let mut is_first = true;
    for settings in site.started() {
        tell_comma(out, is_first)?;
        tell_settings(alloc, out, settings)?;
        is_first = false;
    }
    Ok(())
}
