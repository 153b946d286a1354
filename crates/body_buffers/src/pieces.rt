// Lists of shared pieces of bytes, read and changed.
ghost use Rattle.std.specs.Prelude.{◌≡◌, ◌≤◌, ◌<◌, ◌+◌, ◌++◌, [], ◌∷◌, length, take, drop, IfOk, OnOk, OnErr};
ghost use Rattle.std.specs.List.{concat};
ghost use Rattle.body_buffers.specs.Bodies.{part_of, body_limit};
ghost use Rattle.body_buffers.specs.Pieces.{AreFull, IsPlace, piece_at};

use bytes::Bytes;
use gate_base::OutOfMemory;
use std::alloc::{AllocError, Global};

/// How many pieces there are at most before more are put among them: the last bytes as one, and three of a splice.
const MANY_PIECES: usize = 1_020;

/// How many bytes splices have taken out at most before the pieces are joined.
const MANY_BYTES: usize = 1_048_576;

/// Puts a part of some bytes behind others.
pub fn put_part(
    out: &mut Vec<u8>,
    bytes: &[u8],
    start: usize,
    most: usize,
) -> Result<(), OutOfMemory>
    ensures { OnOk result (out.new.items ≡ out.old.items ++ part_of bytes.now start most) }
{
    let from = start.min(bytes.len());
    let many = most.min(bytes.len() - from);
    out.extend_from_slice(&bytes[from..from + many])?;
    Ok(())
}

/// Puts a part of the bytes of pieces behind others.
pub fn put_parts(
    out: &mut Vec<u8>,
    list: &[Bytes],
    start: usize,
    most: usize,
) -> Result<(), OutOfMemory>
    ensures { OnOk result (out.new.items ≡ out.old.items ++ part_of (concat list.now) start most) }
{
    let mut skip = start;
    let mut left = most;
    for piece in list {
        if left == 0 {
            return Ok(());
        }
        if piece.len() <= skip {
            skip -= piece.len();
            continue;
        }
        let before = out.len();
        put_part(out, piece.as_slice(), skip, left)?;
        left -= out.len() - before;
        skip = 0;
    }
    Ok(())
}

/// The bytes with others in place of those from one place to another.
pub fn copied(
    alloc: Global,
    bytes: &[u8],
    from: usize,
    to: usize,
    given: &[u8],
) -> Result<Vec<u8>, OutOfMemory>
    requires from { from ≤ to }
    requires to { to ≤ length bytes.now }
    ensures { IfOk result (λ v. v.items ≡ take from bytes.now ++ (given.now ++ drop to bytes.now)) }
{
    let mut out = Vec::from_slice(alloc, &bytes[..from])?;
    out.extend_from_slice(given)?;
    out.extend_from_slice(&bytes[to..])?;
    Ok(out)
}

/// Puts a piece behind others, unless it is empty.
fn put_full(list: &mut Vec<Bytes>, piece: Bytes) -> Result<(), OutOfMemory>
    ensures ok { OnOk result (concat list.new.items ≡ concat list.old.items ++ piece) }
    ensures full { OnOk result (AreFull list.old.items → AreFull list.new.items) }
    ensures few { OnOk result (length list.new.items ≤ length list.old.items + 1) }
{
    if piece.is_empty() {
        return Ok(());
    }
    list.push(piece)?;
    Ok(())
}

/// The bytes of all pieces, so many, as one piece, or as none where there are none.
fn joined(alloc: Global, list: &[Bytes], sum: usize) -> Result<Vec<Bytes>, OutOfMemory>
    requires { sum ≡ length (concat list.now) }
    ensures bytes { IfOk result (λ one. concat one.items ≡ concat list.now) }
    ensures full { IfOk result (λ one. AreFull one.items) }
    ensures few { IfOk result (λ one. length one.items ≤ 1) }
{
    let mut bytes = Vec::with_capacity(alloc, sum)?;
    put_parts(&mut bytes, list, 0, sum)?;
    let mut one = Vec::new(alloc);
    put_full(&mut one, Bytes::from_vec(bytes)?)?;
    Ok(one)
}

/// Joins the pieces, which have so many bytes, where there are many, or where splices took many bytes out, of which it gives the number.
fn settle(
    alloc: Global,
    list: &mut Vec<Bytes>,
    sum: usize,
    cut: usize,
) -> Result<usize, OutOfMemory>
    requires { sum ≡ length (concat list.old.items) }
    ensures bytes { concat list.new.items ≡ concat list.old.items }
    ensures full { AreFull list.old.items → AreFull list.new.items }
    ensures few { OnOk result (length list.new.items ≤ 1020) }
    ensures most { length list.old.items ≤ 1024 → length list.new.items ≤ 1024 }
{
    if list.len() <= MANY_PIECES && cut <= MANY_BYTES {
        return Ok(cut);
    }
    *list = joined(alloc, list.as_slice(), sum)?;
    Ok(0)
}

/// Makes bytes the last piece, and leaves none of them where they were. They are not copied.
fn put_last(list: &mut Vec<Bytes>, last: &mut Vec<u8>) -> Result<(), OutOfMemory>
    ensures ok { OnOk result (list.new.items ≡ list.old.items ++ last.old.items ∷ []) }
    ensures left { OnOk result (last.new.items ≡ []) }
    ensures err { OnErr result (list.new.items ≡ list.old.items) }
    ensures kept { OnErr result (last.new.items ≡ last.old.items) }
{
    list.reserve(1)?;
    let alloc = *last.allocator();
    match Bytes::from_vec(std::mem::replace(last, Vec::new(alloc))) {
        Ok(piece) => {
            list.push_reserved(piece);
            Ok(())
        }
        Err(refused) => {
            *last = refused.value;
            Err(AllocError)
        }
    }
}

/// Makes the bytes behind pieces one of these, and first joins the pieces, which have so many bytes, where they are many. It gives how many
/// bytes splices took out since the pieces were joined.
pub fn close(
    list: &mut Vec<Bytes>,
    sum: usize,
    last: &mut Vec<u8>,
    cut: usize,
) -> Result<usize, OutOfMemory>
    requires { sum ≡ length (concat list.old.items) }
    ensures ok { OnOk result (concat list.new.items ≡ concat list.old.items ++ last.old.items) }
    ensures left { OnOk result (last.new.items ≡ []) }
    ensures few { OnOk result (length list.new.items ≤ 1021) }
    ensures err { OnErr result (concat list.new.items ≡ concat list.old.items) }
    ensures kept { OnErr result (last.new.items ≡ last.old.items) }
    ensures full { AreFull list.old.items → AreFull list.new.items }
    ensures most { length list.old.items ≤ 1024 → length list.new.items ≤ 1024 }
{
    let alloc = *last.allocator();
    let cut = settle(alloc, list, sum, cut)?;
    if last.is_empty() {
        return Ok(cut);
    }
    put_last(list, last)?;
    Ok(cut)
}

/// A place among the bytes of all: behind so many whole pieces, and behind so many bytes of the next.
#[derive(Clone, Copy)]
struct Place {
    whole: usize,
    more: usize,
}

/// Where a place is among the pieces.
fn find(list: &[Bytes], place: usize) -> Place
    requires { place ≤ length (concat list.now) }
    ensures { IsPlace list.now place result.whole result.more }
{
    let mut more = place;
    for whole in 0..list.len() {
        let len = list[whole].len();
        if more < len {
            return Place { whole, more };
        }
        more -= len;
    }
    Place {
        whole: list.len(),
        more,
    }
}

/// The bytes before a place that are of its piece, shared.
fn front_of(list: &[Bytes], at: Place) -> Result<Bytes, OutOfMemory>
    requires { at.more ≤ length (piece_at list.now at.whole) }
    ensures { IfOk result (λ b. b ≡ take at.more (piece_at list.now at.whole)) }
{
    match list.get(at.whole) {
        Some(piece) => piece.slice(..at.more),
        None => Ok(Bytes::new()),
    }
}

/// The bytes behind a place that are of its piece, shared.
fn back_of(list: &[Bytes], at: Place) -> Result<Bytes, OutOfMemory>
    requires { at.more ≤ length (piece_at list.now at.whole) }
    ensures { IfOk result (λ b. b ≡ drop at.more (piece_at list.now at.whole)) }
{
    match list.get(at.whole) {
        Some(piece) => piece.slice(at.more..),
        None => Ok(Bytes::new()),
    }
}

/// What stands in place of the pieces at two places: what of them is before the first, the bytes given, and what of them is behind
/// the second. Only the bytes given are copied.
fn between(
    alloc: Global,
    list: &[Bytes],
    first: Place,
    last: Place,
    given: &[u8],
) -> Result<Vec<Bytes>, OutOfMemory>
    requires first { first.more ≤ length (piece_at list.now first.whole) }
    requires last { last.more ≤ length (piece_at list.now last.whole) }
    ensures bytes { IfOk result (λ m. concat m.items ≡ take first.more (piece_at list.now first.whole) ++ (given.now ++ drop last.more (piece_at list.now last.whole))) }
    ensures full { IfOk result (λ m. AreFull m.items) }
    ensures few { IfOk result (λ m. length m.items ≤ 3) }
{
    let mut pieces = Vec::new(alloc);
    put_full(&mut pieces, front_of(list, first)?)?;
    put_full(&mut pieces, Bytes::copy_from_slice(alloc, given)?)?;
    put_full(&mut pieces, back_of(list, last)?)?;
    Ok(pieces)
}

/// Puts pieces in place of those from one to another.
fn replace(
    list: &mut Vec<Bytes>,
    from: usize,
    to: usize,
    mut with: Vec<Bytes>,
) -> Result<(), OutOfMemory>
    requires from { from ≤ to }
    requires to { to ≤ length list.old.items }
    ensures ok { OnOk result (list.new.items ≡ take from list.old.items ++ (with.items ++ drop to list.old.items)) }
    ensures err { OnErr result (list.new.items ≡ list.old.items) }
{
    list.reserve(with.len())?;
    let mut back = list.split_off(to)?;
    list.truncate(from);
    list.append(&mut with)?;
    list.append(&mut back)?;
    Ok(())
}

/// Puts bytes in place of so many from a place on: the pieces at both ends are cut, and the others are not touched.
pub fn splice(
    alloc: Global,
    list: &mut Vec<Bytes>,
    from: usize,
    size: usize,
    given: &[u8],
) -> Result<(), OutOfMemory>
    requires within { from + size ≤ length (concat list.old.items) }
    requires short { length (concat list.old.items) ≤ body_limit }
    ensures ok { OnOk result (concat list.new.items ≡ take from (concat list.old.items) ++ (given.now ++ drop (from + size) (concat list.old.items))) }
    ensures full { OnOk result (AreFull list.old.items → AreFull list.new.items) }
    ensures few { OnOk result (length list.new.items ≤ length list.old.items + 3) }
    ensures err { OnErr result (list.new.items ≡ list.old.items) }
{
    let first = find(list.as_slice(), from);
    let behind = find(&list[first.whole..], first.more + size);
    let last = Place {
        whole: first.whole + behind.whole,
        more: behind.more,
    };
    let pieces = between(alloc, list.as_slice(), first, last, given)?;
    let end = (last.whole + 1).min(list.len());
    replace(list, first.whole, end, pieces)?;
    Ok(())
}
