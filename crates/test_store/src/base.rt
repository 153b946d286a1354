//! Numbers in range, bytes, texts and lists.

use gate_base::{
    ContextId, LineList, LineNo, Members, Octets, OutOfMemory, Pairs, QueueId, Text, VmNo, WorkerNo,
};
use std::alloc::Global;
use store_model::{MOST_BYTES, MOST_NAMES, Used};
use test_rows::{from_text, number, shown, word};

/// What a part of a store uses.
pub fn uses(alloc: Global, used: Used) -> Result<String, OutOfMemory> {
    format!(in alloc; "{} names, {} bytes", used.names, used.bytes)
}

/// A number, where there is one.
fn maybe(alloc: Global, n: Option<u32>) -> Result<String, OutOfMemory> {
    match n {
        Some(n) => format!(in alloc; "{n}"),
        None => format!(in alloc; "none"),
    }
}

/// `worker N`, `vm N`, `line N`, `context N` and `queue N`: the number of such a thing.
fn numbered(alloc: Global, kind: &str, words: &str) -> Result<String, OutOfMemory> {
    let n = u32::try_from(number(words)).unwrap_or(0);
    let byte = n.min(255) as u8;
    match kind {
        "worker" => maybe(alloc, WorkerNo::new(byte).map(|w| u32::from(w.get()))),
        "vm" => maybe(alloc, VmNo::new(byte).map(|v| u32::from(v.get()))),
        "line" => maybe(alloc, LineNo::new(n).map(|l| l.get())),
        "context" => maybe(alloc, Some(ContextId::new(n).get())),
        _ => maybe(alloc, Some(QueueId::new(n).get())),
    }
}

/// `text TEXT`: a text and its copy.
fn text(alloc: Global, words: &str) -> Result<String, OutOfMemory> {
    let text = Text::of(alloc, words)?;
    let copy = text.copy(alloc)?;
    format!(in alloc; "{} {}", text.as_str(), copy.as_str())
}

/// `octets FRONT TEXT`: bytes, made of a front, a byte and a text; their copy; and what is left when they are cleared.
fn octets(alloc: Global, words: &str) -> Result<String, OutOfMemory> {
    let (front, rest) = word(words);
    let mut bytes = Octets::from_slice(alloc, front.as_bytes())?;
    bytes.push(b'c')?;
    bytes.extend_from_slice(rest.as_bytes())?;
    let size = bytes.len();
    let whole = shown(alloc, bytes.as_slice())?;
    let copy = Octets::from_vec(bytes.copy(alloc)?.into_vec());
    bytes.clear();
    let again = shown(alloc, copy.as_slice())?;
    format!(in alloc;
        "{size} {whole} {again} {} {}",
        bytes.is_empty(),
        copy.is_empty()
    )
}

/// The lines of these numbers, in order.
fn listed(alloc: Global, words: &str) -> Result<LineList, OutOfMemory> {
    let mut lines: LineList = Members::new(alloc);
    for n in words.split(' ') {
        if let Some(line) = LineNo::new(u32::try_from(number(n)).unwrap_or(0)) {
            lines.push(line)?;
        }
    }
    Ok(lines)
}

/// `lines N N ..`: how many lines there are, the first, the last, which is taken off, and how many then.
fn lines(alloc: Global, words: &str) -> Result<String, OutOfMemory> {
    let mut lines = listed(alloc, words)?;
    let count = lines.len();
    if lines.is_empty() {
        return format!(in alloc; "no lines");
    }
    let first = lines.get(0).get();
    let last = lines.pop().map_or(0, |l| l.get());
    format!(in alloc; "{count} {first} {last} {}", lines.as_slice().len())
}

/// `pair NAME VALUE`: a list of one pair, and how many pairs can be taken off it.
fn pair(alloc: Global, words: &str) -> Result<String, OutOfMemory> {
    let (name, value) = word(words);
    let mut pairs: Pairs = Members::new(alloc);
    pairs.push((from_text(alloc, name)?, from_text(alloc, value)?))?;
    let count = pairs.len();
    let mut taken = 0u32;
    for _ in 0..2 {
        if pairs.pop().is_some() {
            taken = taken.saturating_add(1);
        }
    }
    format!(in alloc; "{count} {taken}")
}

/// `fits NAMES BYTES OTHER-NAMES OTHER-BYTES`: whether a part of a store fits beside another.
fn fits(alloc: Global, words: &str) -> Result<String, OutOfMemory> {
    let (names, rest) = word(words);
    let (bytes, rest) = word(rest);
    let (other_names, other_bytes) = word(rest);
    let part = Used {
        names: number(names),
        bytes: number(bytes),
    };
    let other = Used {
        names: u64::min(number(other_names), MOST_NAMES),
        bytes: u64::min(number(other_bytes), MOST_BYTES),
    };
    format!(in alloc; "{}", part.fits_beside(other))
}

/// What a row on the base types gives.
pub fn played(alloc: Global, operation: &str, words: &str) -> Result<String, OutOfMemory> {
    match operation {
        "worker" | "vm" | "line" | "context" | "queue" => numbered(alloc, operation, words),
        "text" => text(alloc, words),
        "octets" => octets(alloc, words),
        "lines" => lines(alloc, words),
        "pair" => pair(alloc, words),
        "fits" => fits(alloc, words),
        _ => format!(in alloc; "no such row"),
    }
}
