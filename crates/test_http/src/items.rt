//! Items that are written, and how messages are framed.

use crate::heads::write_up;
use gate_base::{Members, Octets, OutOfMemory};
use h1_head::{Head, HeadStep, Item, Kind, Length, read_head};
use h1_write::{Framing, framing_of, write_item};
use header_maps::{HeaderList, ListKind};
use std::alloc::Global;
use test_rows::{from_text, number, word};

/// What was written, and the tail of heads that are written.
#[derive(Drop)]
pub struct Written {
    out: Octets,
    tail: HeaderList,
}

impl Written {
    /// Nothing.
    pub fn new(alloc: Global) -> Written {
        Written {
            out: Octets::new(alloc),
            tail: HeaderList::new(alloc),
        }
    }
}

/// The framing that a word names: `nothing`, `chunked`, `close`, or a length.
fn framing_at(word: &str) -> Framing {
    match word {
        "nothing" => Framing::Nothing,
        "chunked" => Framing::Chunked,
        "close" => Framing::UntilClose,
        _ => Framing::Length(number(word)),
    }
}

/// The item of a head, which is an interim one by the kind of its list.
fn head_item(alloc: Global, fields: HeaderList, tail: HeaderList) -> Item {
    let is_interim = fields.kind() == ListKind::Interim;
    let head = Head {
        fields,
        tail,
        form: None,
        minor: 1,
        length: Length::Nothing,
        told: None,
        close: false,
        connection: Members::new(alloc),
    };
    if is_interim {
        Item::Interim { head }
    } else {
        Item::Head { head, end: false }
    }
}

/// The item of an operation, with these fields.
fn item_of(
    alloc: Global,
    written: &Written,
    list: &HeaderList,
    operation: &str,
    words: &str,
) -> Result<Item, OutOfMemory> {
    match operation {
        "write-head" => Ok(head_item(alloc, list.copy(alloc)?, written.tail.copy(alloc)?)),
        "write-trailers" => Ok(Item::Trailers {
            fields: list.copy(alloc)?,
        }),
        _ => {
            let (end, text) = word(words);
            Ok(Item::Piece {
                bytes: from_text(alloc, text)?,
                end: end == "last",
            })
        }
    }
}

/// Writes a request's head after what was written.
fn write_request(alloc: Global, out: &mut Octets, words: &str) -> Result<(), OutOfMemory> {
    let text = from_text(alloc, words)?;
    match read_head(alloc, text.as_slice(), Kind::Request)? {
        HeadStep::Head { head, .. } => write_up(alloc, out, head),
        _ => Ok(()),
    }
}

/// Writes the item of an operation after what was written.
fn write_behind(
    alloc: Global,
    written: &mut Written,
    list: &HeaderList,
    operation: &str,
    words: &str,
) -> Result<(), OutOfMemory> {
    let (framing, rest) = word(words);
    let item = item_of(alloc, written, list, operation, rest)?;
    write_item(alloc, &mut written.out, &item, framing_at(framing))
}

/// `clear` takes back what was written, `tail` makes the list the tail of heads; `write-head FRAMING`, `write-trailers FRAMING`,
/// `write-piece FRAMING more|last TEXT` and `write-request TEXT` write after what was written, and all of that is the answer.
pub fn write_out(
    alloc: Global,
    written: &mut Written,
    list: &HeaderList,
    operation: &str,
    words: &str,
) -> Result<Octets, OutOfMemory> {
    match operation {
        "clear" => written.out.clear(),
        "tail" => written.tail = list.copy(alloc)?,
        "write-request" => write_request(alloc, &mut written.out, words)?,
        _ => write_behind(alloc, written, list, operation, words)?,
    }
    written.out.copy(alloc)
}

/// A number, where the word is one.
fn maybe(word: &str) -> Option<u64> {
    word.parse::<u64>().ok()
}

/// The length that a word names.
fn length_at(word: &str) -> Length {
    match word {
        "none" => Length::Nothing,
        "chunked" => Length::Chunked,
        "end" => Length::UntilEnd,
        _ => Length::Exactly(number(word)),
    }
}

/// The word of a framing.
fn framing_word(alloc: Global, framing: Framing) -> Result<String, OutOfMemory> {
    match framing {
        Framing::Nothing => format!(in alloc; "nothing"),
        Framing::Chunked => format!(in alloc; "chunked"),
        Framing::UntilClose => format!(in alloc; "close"),
        Framing::Length(n) => format!(in alloc; "{n}"),
    }
}

/// `framing BARE FILTERED OLD STATUS TOLD LENGTH`, with `yes` and `no`, and `-` where there is no number.
pub fn framing(alloc: Global, words: &str) -> Result<Octets, OutOfMemory> {
    let (bare, rest) = word(words);
    let (filtered, rest) = word(rest);
    let (old, rest) = word(rest);
    let (status, rest) = word(rest);
    let (told, length) = word(rest);
    let status = maybe(status).map(|n| n.min(999) as u16);
    let framing = framing_of(
        bare == "yes",
        filtered == "yes",
        old == "yes",
        status,
        maybe(told),
        length_at(length),
    );
    let text = framing_word(alloc, framing)?;
    Octets::from_slice(alloc, text.as_str().as_bytes())
}
