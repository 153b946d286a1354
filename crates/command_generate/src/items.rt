// The lines of the items.
ghost use Rattle.std.specs.Prelude.{◌≡◌, ◌<◌, ◌≤◌, ◌++◌, length, position, IfOk, IfSome, OnOk, OnErr, bytes_eq, codes};
ghost use Rattle.std.specs.List.{list_any, position_or_len};
ghost use Rattle.command_generate.specs.Items.{comes_before, count_of, item_line, item_lines, lines_of, number_line, put_in, texts_of};

use gate_base::{Octets, OutOfMemory};
use itoa::Buffer;
use std::alloc::Global;

/// Whether the bytes of a text come before those of another.
fn comes_before(text: &[u8], other: &[u8]) -> bool
    ensures { result ≡ comes_before text.now other.now }
{
    text.cmp(other).is_lt()
}

/// Whether a text is among others.
fn is_there(texts: &[Octets], text: &[u8]) -> bool
    ensures { result ≡ list_any (bytes_eq text.now) texts.now }
{
    texts.iter().any(|other| text == other.as_slice())
}

/// The place of the first that comes after a text, if there is one.
fn first_after(texts: &[Octets], text: &[u8]) -> Option<usize>
    ensures place { result ≡ position (comes_before text.now) texts.now }
    ensures within { IfSome result (λ at. at < length texts.now) }
{
    texts
        .iter()
        .position(|other| comes_before(text, other.as_slice()))
}

/// The place of the first that comes after a text, or the end.
fn place(texts: &[Octets], text: &[u8]) -> usize
    ensures place { result ≡ position_or_len (comes_before text.now) texts.now }
    ensures within { result ≤ length texts.now }
{
    match first_after(texts, text) {
        Some(at) => at,
        None => texts.len(),
    }
}

/// Puts a text at its place among others, where it is not there.
fn put(alloc: Global, texts: &mut Vec<Octets>, text: &[u8]) -> Result<(), OutOfMemory>
    ensures { OnOk result (texts.new.items ≡ put_in text.now texts.old.items) }
{
    if is_there(texts.as_slice(), text) {
        return Ok(());
    }
    let at = place(texts.as_slice(), text);
    let copy = Octets::from_slice(alloc, text)?;
    texts.insert(at, copy)?;
    Ok(())
}

/// The texts of items, each once, in the order of their bytes.
pub fn texts_of(alloc: Global, items: &[Octets]) -> Result<Vec<Octets>, OutOfMemory>
    ensures { IfOk result (λ texts. texts.items ≡ texts_of items.now) }
{
    let mut texts = Vec::new(alloc);
    for item in items {
        put(alloc, &mut texts, item.as_slice())?;
    }
    Ok(texts)
}

/// How many of the items are a text.
fn count_of(items: &[Octets], text: &[u8]) -> usize
    ensures { result ≡ count_of text.now items.now }
{
    items.iter().filter(|item| text == item.as_slice()).count()
}

/// Puts a word, a number and the end of the line at the end.
pub(crate) fn put_number_line(out: &mut Octets, word: &[u8], number: u64) -> Result<(), OutOfMemory>
    ensures { OnOk result (out.new ≡ out.old ++ number_line word.now number) }
{
    out.extend_from_slice(word)?;
    out.extend_from_slice(Buffer::new().format(number).as_bytes())?;
    out.push(b'\n')
}

/// Puts the word of an item's line and its text at the end.
fn put_text(out: &mut Octets, text: &[u8]) -> Result<(), OutOfMemory>
    ensures { OnOk result (out.new ≡ out.old ++ (codes "item " ++ text.now)) }
{
    out.extend_from_slice(b"item ")?;
    out.extend_from_slice(text)
}

/// Puts the line of a text at the end.
fn put_item_line(out: &mut Octets, text: &[u8], count: u64) -> Result<(), OutOfMemory>
    ensures { OnOk result (out.new ≡ out.old ++ item_line text.now count) }
{
    put_text(out, text)?;
    put_number_line(out, b" ", count)
}

/// Puts a line for each of some texts at the end, `item TEXT COUNT`, by how many of the items it is.
fn put_lines(out: &mut Octets, items: &[Octets], texts: &[Octets]) -> Result<(), OutOfMemory>
    ensures { OnOk result (out.new ≡ out.old ++ lines_of items.now texts.now) }
{
    for text in texts {
        let bytes = text.as_slice();
        put_item_line(out, bytes, count_of(items, bytes) as u64)?;
    }
    Ok(())
}

/// Puts a line for each text of the items at the end, `item TEXT COUNT`, in the order of their bytes. After a refusal the text is as
/// before.
pub fn put_item_lines(alloc: Global, out: &mut Octets, items: &[Octets]) -> Result<(), OutOfMemory>
    ensures ok { OnOk result (out.new ≡ out.old ++ item_lines items.now) }
    ensures err { OnErr result (out.new ≡ out.old) }
{
    let texts = texts_of(alloc, items)?;
    let mut lines = Octets::new(alloc);
    put_lines(&mut lines, items, texts.as_slice())?;
    out.extend_from_slice(lines.as_slice())
}
