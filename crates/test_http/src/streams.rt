//! Streams of messages: the items of a text that comes in pieces.

use crate::heads::kind_of;
use gate_base::{Octets, OutOfMemory};
use h1_head::{Item, Kind};
use h1_stream::{MessageReader, Step};
use header_maps::HeaderList;
use std::alloc::Global;
use test_rows::{from_text, number, word};

/// Puts a dot at the end where that is the end of a message.
fn push_end(out: &mut Octets, end: bool) -> Result<(), OutOfMemory> {
    if end { out.push(b'.') } else { Ok(()) }
}

/// Puts fields at the end, a blank after each.
fn push_fields(out: &mut Octets, fields: &HeaderList) -> Result<(), OutOfMemory> {
    for at in 0..fields.len() {
        let (name, value) = fields.pair(at);
        out.extend_from_slice(name)?;
        out.push(b'=')?;
        out.extend_from_slice(value)?;
        out.push(b' ')?;
    }
    Ok(())
}

/// Puts an item at the end: `H` a head and `I` an interim one, bytes in parentheses, trailers as `name=value `; a dot after what
/// has the end flag.
fn push_item(out: &mut Octets, item: &Item) -> Result<(), OutOfMemory> {
    match item {
        Item::Head { end, .. } => {
            out.push(b'H')?;
            push_end(out, *end)
        }
        Item::Interim { .. } => out.push(b'I'),
        Item::Piece { bytes, end } => {
            out.push(b'(')?;
            out.extend_from_slice(bytes.as_slice())?;
            out.push(b')')?;
            push_end(out, *end)
        }
        Item::Trailers { fields } => push_fields(out, fields),
    }
}

/// Puts what a reader answers at the end, and tells whether it was an item: nothing for not yet, `!` for over, or the number of a
/// refusal.
fn push_step(alloc: Global, out: &mut Octets, step: &Step) -> Result<bool, OutOfMemory> {
    match step {
        Step::Item { item } => {
            push_item(out, item)?;
            Ok(true)
        }
        Step::NotYet => Ok(false),
        Step::Over => {
            out.push(b'!')?;
            Ok(false)
        }
        Step::Refused { number } => {
            let text = format!(in alloc; "{number}")?;
            out.extend_from_slice(text.as_str().as_bytes())?;
            Ok(false)
        }
    }
}

/// Puts what a reader answers next at the end, and tells whether it was an item.
fn push_next(
    alloc: Global,
    out: &mut Octets,
    reader: &mut MessageReader,
) -> Result<bool, OutOfMemory> {
    let step = reader.next_item()?;
    push_step(alloc, out, &step)
}

/// Puts all items that a reader has at the end, at most a thousand, and why there is no more.
fn push_all(
    alloc: Global,
    out: &mut Octets,
    reader: &mut MessageReader,
) -> Result<(), OutOfMemory> {
    for _ in 0..1000 {
        if !push_next(alloc, out, reader)? {
            return Ok(());
        }
    }
    Ok(())
}

/// Puts what is handed on of a text in pieces of so many bytes at the end.
fn push_pieces(
    alloc: Global,
    out: &mut Octets,
    reader: &mut MessageReader,
    text: &[u8],
    size: usize,
) -> Result<(), OutOfMemory> {
    for piece in text.chunks(size.max(1)) {
        if reader.has_ended() {
            break;
        }
        reader.feed(piece)?;
        push_all(alloc, out, reader)?;
    }
    Ok(())
}

/// Puts what is handed on of a text in pieces of so many bytes at the end, which then ends or not.
fn push_stream(
    alloc: Global,
    out: &mut Octets,
    reader: &mut MessageReader,
    text: &[u8],
    size: usize,
    ends: bool,
) -> Result<(), OutOfMemory> {
    push_pieces(alloc, out, reader, text, size)?;
    if !ends {
        return Ok(());
    }
    reader.end();
    push_all(alloc, out, reader)
}

/// `stream KIND SIZE ends|stays TEXT`: what is handed on of the text in pieces of so many bytes, which then ends or not.
pub fn handed(alloc: Global, words: &str) -> Result<Octets, OutOfMemory> {
    let (kind, rest) = word(words);
    let (size, rest) = word(rest);
    let (ends, text) = word(rest);
    let text = from_text(alloc, text)?;
    let mut out = Octets::new(alloc);
    let mut reader = MessageReader::new(alloc, kind_of(kind))?;
    let size = number(size) as usize;
    push_stream(
        alloc,
        &mut out,
        &mut reader,
        text.as_slice(),
        size,
        ends == "ends",
    )?;
    Ok(out)
}

/// How many bytes a piece has, and whether it has the end flag.
fn piece_of(step: &Step) -> (usize, bool) {
    match step {
        Step::Item {
            item: Item::Piece { bytes, end },
        } => (bytes.len(), *end),
        _ => (0, false),
    }
}

/// How many bytes a reader's next item has, and whether it has the end flag.
fn next_size(reader: &mut MessageReader) -> Result<(usize, bool), OutOfMemory> {
    let step = reader.next_item()?;
    Ok(piece_of(&step))
}

/// Puts the sizes of the first items of a text at the end, and then what is left unread.
fn push_sizes(
    alloc: Global,
    out: &mut Octets,
    reader: &mut MessageReader,
    text: &[u8],
    count: u64,
) -> Result<(), OutOfMemory> {
    if !reader.has_ended() {
        reader.feed(text)?;
    }
    for _ in 0..count {
        let (size, end) = next_size(reader)?;
        let told = format!(in alloc; "{size}{} ", if end { "." } else { "" })?;
        out.extend_from_slice(told.as_str().as_bytes())?;
    }
    let left = format!(in alloc; "unread {}", reader.unread_len())?;
    out.extend_from_slice(left.as_str().as_bytes())
}

/// `stream-sizes COUNT TEXT`: how many bytes each of the first items of a request has, and whether it is the last; then what is
/// left unread.
pub fn sizes(alloc: Global, words: &str) -> Result<Octets, OutOfMemory> {
    let (count, text) = word(words);
    let text = from_text(alloc, text)?;
    let mut out = Octets::new(alloc);
    let mut reader = MessageReader::new(alloc, Kind::Request)?;
    push_sizes(alloc, &mut out, &mut reader, text.as_slice(), number(count))?;
    Ok(out)
}
