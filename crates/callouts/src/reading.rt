// One callout: how it begins, what comes of its line, and what its reader hears.
ghost use Rattle.std.specs.Prelude.{◌≡◌, IfOk, OnOk, OnErr, Some};
ghost use Rattle.h1_head.specs.Measures.{seen_length};
ghost use Rattle.h1_head.specs.Seen.{seen_head};
ghost use Rattle.h1_model.specs.Unread.{head_part, piece, trailer_part};
ghost use Rattle.h1_stream.specs.Seen.{asked_of, seen_part};
ghost use Rattle.callouts.specs.Callouts.{asked_by, due_of, no_answer, begun, more, no_more, comes_of, is_bare};
ghost use Rattle.callouts.specs.Steps.{callout_by, next_by, step_by, after_own_part, callout_after, next_after, HearsTo};

use crate::types::{CallStep, Callout};
use body_buffers::{Body, BodyEnd};
use contexts::{CallAnswer, Request};
use gate_base::OutOfMemory;
use gate_io::{Side, What};
use h1_head::{Head, Item, Kind, Length, pseudo_of};
use h1_stream::{MessageReader, Step};
use header_maps::{HeaderList, ListKind};
use std::alloc::{AllocError, Global};

/// How many nanoseconds a millisecond has.
const MILLISECOND: u64 = 1_000_000;

/// The moment so many milliseconds after another, at most 2^64 - 1.
fn due_of(now: u64, timeout_ms: u32) -> u64
    ensures { result ≡ due_of now timeout_ms }
{
    now.saturating_add(u64::from(timeout_ms) * MILLISECOND)
}

/// What the response to a request with these fields is read as.
fn response_kind(fields: &HeaderList) -> Kind
    ensures { asked_of result ≡ Some (asked_by fields.now) }
{
    Kind::Response {
        to_head: pseudo_of(fields, b":method") == b"HEAD".as_slice(),
    }
}

/// Nothing came back.
fn no_answer(alloc: Global) -> CallAnswer
    ensures { result ≡ no_answer }
{
    CallAnswer {
        fields: HeaderList::new(alloc),
        body: Body::new(alloc),
        trailers: HeaderList::new(alloc),
    }
}

/// The callout of an id for a request, which begins at a moment.
pub fn begun(alloc: Global, id: u32, now: u64, call: &Request) -> Result<Callout, OutOfMemory>
    ensures { IfOk result (λ c. c ≡ begun id now call.now) }
{
    Ok(Callout {
        id,
        vm: call.vm,
        context: call.context,
        due: due_of(now, call.timeout_ms),
        reader: MessageReader::new(alloc, response_kind(&call.fields))?,
        answer: no_answer(alloc),
    })
}

/// Bytes come. What is done next is said, if anything is.
fn take_bytes(c: &mut Callout, bytes: &[u8]) -> Result<Option<CallStep>, OutOfMemory>
    ensures callout { OnOk result (c.new ≡ callout_by (more bytes.now c.old.reader) c.old) }
    ensures next { IfOk result (λ next. next ≡ next_by c.old.id (more bytes.now c.old.reader)) }
    ensures err { OnErr result (c.new ≡ c.old) }
{
    if c.reader.has_ended() {
        return Ok(None);
    }
    c.reader.feed(bytes)?;
    Ok(Some(CallStep::Read { id: c.id }))
}

/// The server sends nothing more.
fn take_end(c: &mut Callout) -> Option<CallStep>
    ensures callout { c.new ≡ callout_by (no_more c.old.reader) c.old }
    ensures next { result ≡ next_by c.old.id (no_more c.old.reader) }
{
    if c.reader.has_ended() {
        return None;
    }
    c.reader.end();
    Some(CallStep::Read { id: c.id })
}

/// Something comes of its line. What is done next is said, if anything is.
pub(crate) fn come(c: &mut Callout, what: &What) -> Result<Option<CallStep>, OutOfMemory>
    ensures callout { OnOk result (c.new ≡ callout_by (comes_of what.now c.old.reader) c.old) }
    ensures next { IfOk result (λ next. next ≡ next_by c.old.id (comes_of what.now c.old.reader)) }
    ensures err { OnErr result (c.new ≡ c.old) }
{
    match what {
        What::Bytes {
            side: Side::Up,
            bytes,
            ..
        } => take_bytes(c, bytes.as_slice()),
        What::End { side: Side::Up, .. } => Ok(take_end(c)),
        What::Gone { side: Side::Up, .. } => Ok(Some(CallStep::Fail { id: c.id })),
        What::Refused { .. } => Ok(Some(CallStep::Fail { id: c.id })),
        What::Bytes {
            side: Side::Down,
            ..
        } => Ok(None),
        What::End {
            side: Side::Down,
            ..
        } => Ok(None),
        What::Gone {
            side: Side::Down,
            ..
        } => Ok(None),
        What::Opened { .. } => Ok(None),
        What::Joined { .. } => Ok(None),
        What::Room { .. } => Ok(None),
        What::Clock => Ok(None),
        What::Stop => Ok(None),
    }
}

/// Whether no body follows a head.
fn is_bare(length: Length) -> bool
    ensures { result ≡ is_bare (seen_length length) }
{
    matches!(length, Length::Nothing)
}

/// What is done next behind a part, with which the response is whole or not.
fn next_step(id: u32, is_whole: bool) -> CallStep
    ensures { result ≡ step_by is_whole id }
{
    if is_whole {
        CallStep::Answer { id }
    } else {
        CallStep::Read { id }
    }
}

/// The final head was read.
fn take_head(c: &mut Callout, head: Head) -> CallStep
    ensures callout { c.new ≡ callout_after (after_own_part (head_part (seen_head head)) c.old) }
    ensures next { Some result ≡ next_after c.old.id (after_own_part (head_part (seen_head head)) c.old) }
{
    let is_whole = is_bare(head.length);
    c.answer.fields = head.fields;
    next_step(c.id, is_whole)
}

/// Bytes of the body were read.
fn take_piece(c: &mut Callout, bytes: &[u8], end: bool) -> Result<CallStep, OutOfMemory>
    ensures callout { OnOk result (c.new ≡ callout_after (after_own_part (piece bytes.now end) c.old)) }
    ensures next { IfOk result (λ next. Some next ≡ next_after c.old.id (after_own_part (piece bytes.now end) c.old)) }
{
    match c.answer.body.push(bytes) {
        Ok(()) => Ok(next_step(c.id, end)),
        Err(BodyEnd::OverLimit) => Ok(CallStep::Fail { id: c.id }),
        Err(BodyEnd::OutOfMemory) => Err(AllocError),
    }
}

/// Trailers were read. No list of them has pseudo-headers.
fn take_trailers(c: &mut Callout, fields: HeaderList) -> Result<CallStep, OutOfMemory>
    ensures callout { OnOk result (c.new ≡ callout_after (after_own_part (trailer_part fields.pairs) c.old)) }
    ensures next { IfOk result (λ next. Some next ≡ next_after c.old.id (after_own_part (trailer_part fields.pairs) c.old)) }
{
    match fields.kind() {
        ListKind::Plain => {
            c.answer.trailers = fields;
            Ok(CallStep::Answer { id: c.id })
        }
        ListKind::Request | ListKind::Response | ListKind::Interim => Err(AllocError),
    }
}

/// A part was read.
fn take_part(c: &mut Callout, part: Item) -> Result<CallStep, OutOfMemory>
    ensures callout { OnOk result (c.new ≡ callout_after (after_own_part (seen_part part) c.old)) }
    ensures next { IfOk result (λ next. Some next ≡ next_after c.old.id (after_own_part (seen_part part) c.old)) }
{
    match part {
        Item::Head { head, .. } => Ok(take_head(c, head)),
        Item::Interim { .. } => Ok(CallStep::Read { id: c.id }),
        Item::Piece { bytes, end } => take_piece(c, bytes.as_slice(), end),
        Item::Trailers { fields } => take_trailers(c, fields),
    }
}

/// Its reader is heard, once. What is done next is said, if anything is. Where memory is out, the part that was heard is lost.
pub(crate) fn hear(c: &mut Callout) -> Result<Option<CallStep>, OutOfMemory>
    ensures { IfOk result (λ next. HearsTo next c.old c.new) }
{
    let step = c.reader.next_item()?;
    match step {
        Step::Item { item } => {
            let next = take_part(c, item)?;
            Ok(Some(next))
        }
        Step::NotYet => Ok(None),
        Step::Over => Ok(Some(CallStep::Answer { id: c.id })),
        Step::Refused { .. } => Ok(Some(CallStep::Fail { id: c.id })),
    }
}
