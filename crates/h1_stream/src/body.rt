// What is unread next in a body.
ghost use Rattle.std.specs.List.{list_all};
ghost use Rattle.std.specs.Prelude.{◌≡◌, ◌≤◌, Bool, true, Some, [], length, min, IfOk, IfSome};
ghost use Rattle.header_maps.specs.Kept.{is_kept_field};
ghost use Rattle.h1_model.specs.Messages as model;
ghost use Rattle.h1_model.specs.Messages.{body, unbounded_step, trailers_left, end_step};
ghost use Rattle.h1_model.specs.Trailers.{piece_limit};
ghost use Rattle.h1_model.specs.Unread.{IsNext, by_itself};
ghost use Rattle.h1_stream.specs.Seen.{asked_of, seen_body, seen_next, IsWithin, IsFlagged};
ghost use Rattle.h1_stream.specs.Behind.{StandsBehind};

use crate::next::{Body, Due, Next, Stop, due_next, malformed, stop_short};
use gate_base::{Members, Octets, OutOfMemory};
use h1_chunks::{ChunkReader, ChunkStep};
use h1_head::{Item, Kind, without_listed};
use header_maps::HeaderList;
use std::alloc::Global;

/// How many bytes a piece has at most.
const PIECE_LIMIT: usize = 16_384;

/// A piece of a body.
fn piece(bytes: Octets, end: bool, used: usize, due: Due) -> Next
    ensures { result ≡ Next.Part (Item.Piece bytes end) used due }
{
    Next::Part {
        item: Item::Piece { bytes, end },
        used,
        due,
    }
}

/// How many bytes of a text a piece takes, where so many are left of the body.
fn piece_len(there: usize, left: u64) -> usize
    ensures { result ≡ min (min there piece_limit) left }
{
    let most = there.min(PIECE_LIMIT);
    if left < most as u64 {
        left as usize
    } else {
        most
    }
}

/// What is unread next in a body of which so many bytes are left.
fn counted_next(
    alloc: Global,
    kind: Kind,
    ended: bool,
    left: u64,
    text: &[u8],
) -> Result<Next, OutOfMemory>
    ensures next { IfOk result (λ n. IsNext ended (asked_of kind) (body (model.counted left)) text.now (seen_next (body (model.counted left)) n)) }
    ensures within { IfOk result (IsWithin (length text.now)) }
    ensures flagged { IfOk result IsFlagged }
{
    if left == 0 {
        return Ok(piece(Octets::new(alloc), true, 0, due_next(kind)));
    }
    if text.is_empty() {
        return Ok(Next::Halt(stop_short(kind, ended)));
    }
    let len = piece_len(text.len(), left);
    let bytes = Octets::from_slice(alloc, &text[..len])?;
    let left = left - len as u64;
    if left == 0 {
        Ok(piece(bytes, true, len, due_next(kind)))
    } else {
        Ok(piece(bytes, false, len, Due::Body(Body::Counted(left))))
    }
}

/// What is next in a body that goes on until the line ends, where nothing of it is there.
fn unbounded_end(alloc: Global, kind: Kind, ended: bool) -> Next
    ensures next { by_itself (unbounded_step ended (asked_of kind) []) ≡ Some (seen_next (body model.unbounded) result) }
    ensures within { IsWithin 0 result }
    ensures flagged { IsFlagged result }
{
    if ended {
        piece(Octets::new(alloc), true, 0, due_next(kind))
    } else {
        Next::Halt(Stop::Rest)
    }
}

/// What is unread next in a body that goes on until the line ends.
fn unbounded_next(alloc: Global, kind: Kind, ended: bool, text: &[u8]) -> Result<Next, OutOfMemory>
    ensures next { IfOk result (λ n. IsNext ended (asked_of kind) (body model.unbounded) text.now (seen_next (body model.unbounded) n)) }
    ensures within { IfOk result (IsWithin (length text.now)) }
    ensures flagged { IfOk result IsFlagged }
{
    if text.is_empty() {
        return Ok(unbounded_end(alloc, kind, ended));
    }
    let len = text.len().min(PIECE_LIMIT);
    let bytes = Octets::from_slice(alloc, &text[..len])?;
    if len < text.len() {
        return Ok(piece(bytes, false, len, Due::Body(Body::Unbounded)));
    }
    if ended {
        Ok(piece(bytes, true, len, due_next(kind)))
    } else {
        Ok(piece(bytes, false, len, Due::Body(Body::Unbounded)))
    }
}

/// The trailers that a message keeps: none that its head's Connection lists, and a request's have no `host`.
fn left_trailers(
    alloc: Global,
    kind: Kind,
    connection: &Members<Octets>,
    trailers: HeaderList,
) -> HeaderList
    requires { list_all is_kept_field trailers.pairs ≡ true }
    ensures { result.pairs ≡ trailers_left (asked_of kind) connection.now trailers.pairs }
{
    let mut trailers = without_listed(alloc, connection, trailers);
    match kind {
        Kind::Request => {
            // The name of a field is never refused.
            let _ = trailers.remove(b"host");
            trailers
        }
        Kind::Response { .. } => trailers,
    }
}

/// The end of a chunked body that uses up so many bytes, with these trailers.
fn end_next(
    alloc: Global,
    kind: Kind,
    connection: &Members<Octets>,
    trailers: HeaderList,
    used: usize,
) -> Next
    requires { list_all is_kept_field trailers.pairs ≡ true }
    ensures next { (here : model.Due) → by_itself (end_step (asked_of kind) used (trailers_left (asked_of kind) connection.now trailers.pairs)) ≡ Some (seen_next here result) }
    ensures within { IsWithin used result }
    ensures flagged { IsFlagged result }
{
    let fields = left_trailers(alloc, kind, connection, trailers);
    if fields.is_empty() {
        return piece(Octets::new(alloc), true, used, due_next(kind));
    }
    Next::Part {
        item: Item::Trailers { fields },
        used,
        due: due_next(kind),
    }
}

/// How many bytes of a text the end of a chunked body takes, where it is what comes next and no trailers are left.
fn end_behind(
    alloc: Global,
    kind: Kind,
    connection: &Members<Octets>,
    reader: &ChunkReader,
    text: &[u8],
) -> Result<Option<usize>, OutOfMemory>
    ensures behind { IfOk result (λ end. (ended : Bool) → StandsBehind ended (asked_of kind) connection.now reader.now text.now end) }
    ensures within { IfOk result (λ end. IfSome end (λ used. used ≤ length text.now)) }
{
    if reader.has_data(text) {
        return Ok(None);
    }
    match reader.copy().next(alloc, text)? {
        ChunkStep::End { trailers, used } => {
            if left_trailers(alloc, kind, connection, trailers).is_empty() {
                Ok(Some(used))
            } else {
                Ok(None)
            }
        }
        ChunkStep::Data { .. } => Ok(None),
        ChunkStep::NotYet => Ok(None),
        ChunkStep::Refused { .. } => Ok(None),
    }
}

/// What is unread next in a chunked body, from a reader's place on.
fn coded_next(
    alloc: Global,
    kind: Kind,
    ended: bool,
    connection: &Members<Octets>,
    at: &ChunkReader,
    text: &[u8],
) -> Result<Next, OutOfMemory>
    ensures next { IfOk result (λ n. IsNext ended (asked_of kind) (body (model.coded connection.now at.now)) text.now (seen_next (body (model.coded connection.now at.now)) n)) }
    ensures within { IfOk result (IsWithin (length text.now)) }
    ensures flagged { IfOk result IsFlagged }
{
    let mut reader = at.copy();
    match reader.next(alloc, text)? {
        ChunkStep::Data { bytes, used } => {
            match end_behind(alloc, kind, connection, &reader, &text[used..])? {
                Some(more) => Ok(piece(bytes, true, used + more, due_next(kind))),
                None => Ok(Next::Chunks {
                    bytes,
                    used,
                    reader,
                }),
            }
        }
        ChunkStep::End { trailers, used } => Ok(end_next(alloc, kind, connection, trailers, used)),
        ChunkStep::NotYet => Ok(Next::Halt(stop_short(kind, ended))),
        ChunkStep::Refused { .. } => Ok(Next::Halt(malformed(kind))),
    }
}

/// What is unread next in a body.
pub(crate) fn body_next(
    alloc: Global,
    kind: Kind,
    ended: bool,
    at: &Body,
    text: &[u8],
) -> Result<Next, OutOfMemory>
    ensures next { IfOk result (λ n. IsNext ended (asked_of kind) (body (seen_body at.now)) text.now (seen_next (body (seen_body at.now)) n)) }
    ensures within { IfOk result (IsWithin (length text.now)) }
    ensures flagged { IfOk result IsFlagged }
{
    match at {
        Body::Counted(left) => counted_next(alloc, kind, ended, *left, text),
        Body::Coded { connection, reader } => {
            coded_next(alloc, kind, ended, connection, reader, text)
        }
        Body::Unbounded => unbounded_next(alloc, kind, ended, text),
    }
}
