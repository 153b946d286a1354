//! Header lists: what each operation makes of one.

ghost use Rattle.std.specs.List.{list_all};
ghost use Rattle.std.specs.Prelude.{◌≡◌};
ghost use Rattle.header_maps.specs.Kept.{is_short};

use gate_base::{Octets, OutOfMemory, Pairs};
use header_maps::{HeaderEnd, HeaderList, ListKind};
use std::alloc::Global;
use test_rows::{from_text, word};

/// Puts the pair of two words at the end, and gives the words after them.
fn push_pair<'a>(alloc: Global, pairs: &mut Pairs, words: &'a str) -> Result<&'a str, OutOfMemory> {
    let (name, rest) = word(words);
    let (value, rest) = word(rest);
    let name = from_text(alloc, name)?;
    let value = from_text(alloc, value)?;
    pairs.push((name, value))?;
    Ok(rest)
}

/// The pairs that a row has, a word for each name and each value: eight at most.
pub fn pairs_of(alloc: Global, words: &str) -> Result<Pairs, OutOfMemory> {
    let mut pairs = Pairs::new(alloc);
    let mut rest = words;
    for _ in 0..8 {
        if rest.is_empty() {
            break;
        }
        rest = push_pair(alloc, &mut pairs, rest)?;
    }
    Ok(pairs)
}

/// Whether all names and values are short.
fn is_short(pairs: &Pairs) -> bool
    ensures { result ≡ list_all is_short pairs.now }
{
    pairs.as_slice().iter().all(|pair| pair.0.len() <= 16_777_216 && pair.1.len() <= 16_777_216)
}

/// A request's list of a method, a scheme, an authority and a path.
fn requested(alloc: Global, words: &str) -> Result<HeaderList, HeaderEnd> {
    let (method, rest) = word(words);
    let (scheme, rest) = word(rest);
    let (authority, path) = word(rest);
    if method.len() > 16_777_216 || authority.len() > 16_777_216 || path.len() > 16_777_216 {
        return Err(HeaderEnd::BadValue);
    }
    HeaderList::request(
        alloc,
        method.as_bytes(),
        scheme.as_bytes(),
        authority.as_bytes(),
        path.as_bytes(),
    )
}

/// A list of a kind with these pairs.
fn given(alloc: Global, words: &str) -> Result<HeaderList, HeaderEnd> {
    let (kind, rest) = word(words);
    let pairs = pairs_of(alloc, rest)?;
    if !is_short(&pairs) {
        return Err(HeaderEnd::BadValue);
    }
    let kind = match kind {
        "request" => ListKind::Request,
        "response" => ListKind::Response,
        "interim" => ListKind::Interim,
        _ => ListKind::Plain,
    };
    HeaderList::of(alloc, kind, &pairs)
}

/// A new list.
fn made(alloc: Global, operation: &str, words: &str) -> Result<HeaderList, HeaderEnd> {
    match operation {
        "request" => requested(alloc, words),
        "response" => HeaderList::response(alloc, test_rows::number(words).min(65_535) as u16),
        "of" => given(alloc, words),
        _ => Ok(HeaderList::new(alloc)),
    }
}

/// Adds a field, or replaces those of its name.
fn put(alloc: Global, list: &mut HeaderList, is_more: bool, words: &str) -> Result<(), HeaderEnd> {
    let (name, value) = word(words);
    let name = from_text(alloc, name)?;
    let value = from_text(alloc, value)?;
    if value.len() > 16_777_216 {
        return Err(HeaderEnd::BadValue);
    }
    if is_more {
        list.add(alloc, name.as_slice(), value.as_slice())
    } else {
        list.replace(alloc, name.as_slice(), value.as_slice())
    }
}

/// Gives the list other pairs.
fn set(alloc: Global, list: &mut HeaderList, words: &str) -> Result<(), HeaderEnd> {
    let pairs = pairs_of(alloc, words)?;
    if !is_short(&pairs) {
        return Err(HeaderEnd::BadValue);
    }
    list.set_all(alloc, &pairs)
}

/// One operation on a list.
fn change(
    alloc: Global,
    list: &mut HeaderList,
    operation: &str,
    words: &str,
) -> Result<(), HeaderEnd> {
    match operation {
        "add" => put(alloc, list, true, words),
        "replace" => put(alloc, list, false, words),
        "remove" => list.remove(words.as_bytes()),
        "set" => set(alloc, list, words),
        _ => {
            *list = made(alloc, operation, words)?;
            Ok(())
        }
    }
}

/// What a list has, a name, `=`, a value and `;` for each pair.
pub fn shown(alloc: Global, fields: &HeaderList) -> Result<Octets, OutOfMemory> {
    let mut text = Octets::new(alloc);
    for at in 0..fields.len() {
        let (name, value) = fields.pair(at);
        push_shown(&mut text, name, value)?;
    }
    Ok(text)
}

/// Puts a pair at the end, a name, `=`, a value and `;`.
fn push_shown(text: &mut Octets, name: &[u8], value: &[u8]) -> Result<(), OutOfMemory> {
    text.extend_from_slice(name)?;
    text.push(b'=')?;
    text.extend_from_slice(value)?;
    text.push(b';')
}

/// A word of an end.
fn word_of(end: HeaderEnd) -> &'static str {
    match end {
        HeaderEnd::BadName => "bad name",
        HeaderEnd::BadValue => "bad value",
        HeaderEnd::TooMany => "too many",
        HeaderEnd::OutOfMemory => "out of memory",
    }
}

/// `new`, `request METHOD SCHEME AUTHORITY PATH`, `response STATUS`, `of KIND NAME VALUE ..`, `set NAME VALUE ..`,
/// `add NAME VALUE`, `replace NAME VALUE`, `remove NAME`: what the list then has, or why it was refused.
pub fn changed(
    alloc: Global,
    list: &mut HeaderList,
    operation: &str,
    words: &str,
) -> Result<Octets, OutOfMemory> {
    match change(alloc, list, operation, words) {
        Ok(()) => shown(alloc, list),
        Err(end) => Octets::from_slice(alloc, word_of(end).as_bytes()),
    }
}

/// The values of a name, joined.
fn joined(alloc: Global, list: &HeaderList, name: &[u8]) -> Result<Octets, OutOfMemory> {
    match list.get(alloc, name)? {
        Some(value) => Ok(value),
        None => Octets::from_slice(alloc, b"none"),
    }
}

/// The word of a kind.
fn kind_word(kind: ListKind) -> &'static str {
    match kind {
        ListKind::Request => "request",
        ListKind::Response => "response",
        ListKind::Interim => "interim",
        ListKind::Plain => "plain",
    }
}

/// Its kind, how many pairs it has, and how many bytes it takes.
fn about(alloc: Global, list: &HeaderList) -> Result<Octets, OutOfMemory> {
    let kind = kind_word(list.kind());
    let rest = if list.is_empty() { ", empty" } else { "" };
    let text = format!(in alloc;
        "{kind}, {} pairs, {} bytes{rest}",
        list.len(),
        list.byte_size()
    )?;
    Octets::from_slice(alloc, text.as_str().as_bytes())
}

/// What a copy of the list has.
fn shown_copy(alloc: Global, list: &HeaderList) -> Result<Octets, OutOfMemory> {
    let copy = list.copy(alloc)?;
    shown(alloc, &copy)
}

/// What its pairs alone are.
fn shown_pairs(alloc: Global, list: &HeaderList) -> Result<Octets, OutOfMemory> {
    let mut text = Octets::new(alloc);
    let pairs = list.pairs(alloc)?;
    for (name, value) in pairs.as_slice() {
        push_shown(&mut text, name.as_slice(), value.as_slice())?;
    }
    Ok(text)
}

/// A copy of the list, and its pairs alone, which are as many.
fn copied(alloc: Global, list: &HeaderList) -> Result<Octets, OutOfMemory> {
    let mut text = shown_copy(alloc, list)?;
    let pairs = shown_pairs(alloc, list)?;
    text.extend_from_slice(pairs.as_slice())?;
    Ok(text)
}

/// `get NAME`, `first NAME`, `about`, `copy`.
pub fn told(
    alloc: Global,
    list: &HeaderList,
    operation: &str,
    words: &str,
) -> Result<Octets, OutOfMemory> {
    match operation {
        "get" => joined(alloc, list, words.as_bytes()),
        "first" => Octets::from_slice(alloc, list.first(words.as_bytes()).unwrap_or(b"none")),
        "about" => about(alloc, list),
        _ => copied(alloc, list),
    }
}
