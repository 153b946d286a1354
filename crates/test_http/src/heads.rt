//! Heads: what is read of a text, and what goes up for it.

ghost use Rattle.std.specs.List.{list_all};
ghost use Rattle.std.specs.Prelude.{◌≡◌, true, IfOk};
ghost use Rattle.header_maps.specs.Kept.{is_kept_field};

use gate_base::{Members, Octets, OutOfMemory};
use h1_head::{Head, HeadStep, Item, Kind, Length, read_head, without_listed};
use h1_write::{Framing, write_item};
use header_maps::{HeaderEnd, HeaderList};
use std::alloc::{AllocError, Global};
use test_rows::{from_text, word};

/// The kind that a word names.
pub fn kind_of(word: &str) -> Kind {
    match word {
        "to-head" => Kind::Response { to_head: true },
        "response" => Kind::Response { to_head: false },
        _ => Kind::Request,
    }
}

/// Puts a pseudo-header's value at the end with a blank after it, or a field after a `;`.
fn push_field(out: &mut Octets, name: &[u8], value: &[u8]) -> Result<(), OutOfMemory> {
    if name.starts_with(b":") {
        out.extend_from_slice(value)?;
        out.push(b' ')
    } else {
        out.push(b';')?;
        out.extend_from_slice(name)?;
        out.push(b'=')?;
        out.extend_from_slice(value)
    }
}

/// The pseudo-headers of a head, and then each field after a `;`.
fn fields_of(alloc: Global, head: &Head) -> Result<Octets, OutOfMemory> {
    let mut out = Octets::new(alloc);
    for at in 0..head.fields.len() {
        let (name, value) = head.fields.pair(at);
        push_field(&mut out, name, value)?;
    }
    Ok(out)
}

/// A length, and what Content-Length told.
fn length_of(alloc: Global, length: Length, told: Option<u64>) -> Result<String, OutOfMemory> {
    let mut text = match length {
        Length::Nothing => format!(in alloc; "none")?,
        Length::Exactly(n) => format!(in alloc; "{n}")?,
        Length::Chunked => format!(in alloc; "chunked")?,
        Length::UntilEnd => format!(in alloc; "end")?,
    };
    if let Some(n) = told {
        text.push_str(format!(in alloc; " told {n}")?.as_str())?;
    }
    Ok(text)
}

/// What is told of a head: its fields, and then version, length and told number.
fn told_of(alloc: Global, head: &Head) -> Result<Octets, OutOfMemory> {
    let mut out = fields_of(alloc, head)?;
    let length = length_of(alloc, head.length, head.told)?;
    let close = if head.close { " close" } else { "" };
    let tail = if head.tail.is_empty() { "" } else { " tail" };
    let behind = format!(in alloc; "|{} {length}{close}{tail}", head.minor)?;
    out.extend_from_slice(behind.as_str().as_bytes())?;
    Ok(out)
}

/// What a text gives that is no head, or not yet.
fn other(alloc: Global, step: &HeadStep) -> Result<Octets, OutOfMemory> {
    match step {
        HeadStep::Refused { number } => {
            let text = format!(in alloc; "{number}")?;
            Octets::from_slice(alloc, text.as_str().as_bytes())
        }
        _ => Octets::from_slice(alloc, b"not yet"),
    }
}

/// What is told of a head that uses so many of a text's bytes, and how many where those are not all, or where it is asked.
fn told_used(
    alloc: Global,
    head: &Head,
    used: usize,
    len: usize,
    is_asked: bool,
) -> Result<Octets, OutOfMemory> {
    let mut out = told_of(alloc, head)?;
    if is_asked || used != len {
        let text = format!(in alloc; " used {used}")?;
        out.extend_from_slice(text.as_str().as_bytes())?;
    }
    Ok(out)
}

/// What is told of a text's head, and how many bytes it uses where those are not all, or where it is asked.
fn told(alloc: Global, kind: Kind, text: &[u8], is_asked: bool) -> Result<Octets, OutOfMemory> {
    let step = read_head(alloc, text, kind)?;
    match &step {
        HeadStep::Head { head, used } => told_used(alloc, head, *used, text.len(), is_asked),
        _ => other(alloc, &step),
    }
}

/// A text with this in place of each `~`.
fn with_ends(alloc: Global, text: &[u8], end: &[u8]) -> Result<Octets, OutOfMemory> {
    let mut out = Octets::new(alloc);
    for byte in text {
        if *byte == b'~' {
            out.extend_from_slice(end)?;
        } else {
            out.push(*byte)?;
        }
    }
    Ok(out)
}

/// What is told of a text with this in place of each `~`.
fn told_with(alloc: Global, kind: Kind, text: &[u8], end: &[u8]) -> Result<Octets, OutOfMemory> {
    let text = with_ends(alloc, text, end)?;
    told(alloc, kind, text.as_slice(), false)
}

/// Puts what is told with CR LF at the end, where it is something else.
fn push_other(first: &mut Octets, second: &[u8]) -> Result<(), OutOfMemory> {
    if first.as_slice() == second {
        return Ok(());
    }
    first.extend_from_slice(b" and with CR LF ")?;
    first.extend_from_slice(second)
}

/// `head KIND TEXT`: what is told of the text with LF, and then with CR LF in place of each `~`: once, where those are the same.
pub fn both(alloc: Global, words: &str) -> Result<Octets, OutOfMemory> {
    let (kind, text) = word(words);
    let text = from_text(alloc, text)?;
    let mut first = told_with(alloc, kind_of(kind), text.as_slice(), b"\n")?;
    let second = told_with(alloc, kind_of(kind), text.as_slice(), b"\r\n")?;
    push_other(&mut first, second.as_slice())?;
    Ok(first)
}

/// `used KIND TEXT`: what is told of the text, and how many bytes it uses.
pub fn used(alloc: Global, words: &str) -> Result<Octets, OutOfMemory> {
    let (kind, text) = word(words);
    let text = from_text(alloc, text)?;
    told(alloc, kind_of(kind), text.as_slice(), true)
}

/// The fields that stand after all others of a head that goes up: `via`, and `connection: close`.
fn tail_of(alloc: Global, minor: u8) -> Result<HeaderList, HeaderEnd> {
    let via: &[u8] = if minor == 0 {
        b"1.0 wasmgate"
    } else {
        b"1.1 wasmgate"
    };
    let mut tail = HeaderList::new(alloc);
    tail.add(alloc, b"via", via)?;
    tail.add(alloc, b"connection", b"close")?;
    Ok(tail)
}

/// Writes the head of a request without a body at the end, as it goes up.
pub fn write_up(alloc: Global, out: &mut Octets, mut head: Head) -> Result<(), OutOfMemory> {
    head.tail = match tail_of(alloc, head.minor) {
        Ok(tail) => tail,
        Err(_) => return Err(AllocError),
    };
    write_item(
        alloc,
        out,
        &Item::Head { head, end: true },
        Framing::Nothing,
    )
}

/// `up TEXT`: the bytes that go up for a request's head.
pub fn sent(alloc: Global, words: &str) -> Result<Octets, OutOfMemory> {
    let text = from_text(alloc, words)?;
    match read_head(alloc, text.as_slice(), Kind::Request)? {
        HeadStep::Head { head, .. } => {
            let mut out = Octets::new(alloc);
            write_up(alloc, &mut out, head)?;
            Ok(out)
        }
        step => other(alloc, &step),
    }
}

/// The values of a head's Connection fields, each in brackets.
fn values_of(alloc: Global, head: &Head) -> Result<Octets, OutOfMemory> {
    let mut out = Octets::new(alloc);
    for value in head.connection.as_slice() {
        out.push(b'[')?;
        out.extend_from_slice(value.as_slice())?;
        out.push(b']')?;
    }
    Ok(out)
}

/// `connection TEXT`: those of the text's head.
pub fn connection(alloc: Global, words: &str) -> Result<Octets, OutOfMemory> {
    let text = from_text(alloc, words)?;
    let step = read_head(alloc, text.as_slice(), Kind::Request)?;
    match &step {
        HeadStep::Head { head, .. } => values_of(alloc, head),
        _ => other(alloc, &step),
    }
}

/// Fields that stand in no pseudo-header's place.
fn two_fields(alloc: Global) -> Result<HeaderList, HeaderEnd>
    ensures { IfOk result (λ list. list_all is_kept_field list.pairs ≡ true) }
{
    let mut list = HeaderList::new(alloc);
    list.add(alloc, b"X-A", b"1")?;
    list.add(alloc, b"X-B", b"2")?;
    Ok(list)
}

/// `listed VALUE VALUE`: which of the fields x-a and x-b two values of Connection leave.
pub fn listed(alloc: Global, words: &str) -> Result<Octets, OutOfMemory> {
    let (first, second) = word(words);
    let mut values = Members::new(alloc);
    values.push(from_text(alloc, first)?)?;
    values.push(from_text(alloc, second)?)?;
    let Ok(fields) = two_fields(alloc) else {
        return Octets::from_slice(alloc, b"no fields");
    };
    let left = without_listed(alloc, &values, fields);
    crate::lists::shown(alloc, &left)
}
