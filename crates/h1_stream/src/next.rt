// What is unread next, where a head is due; and what all bodies share.
ghost use Rattle.std.specs.Prelude.{◌≡◌, ◌≤◌, Some, drop, length, IfOk};
ghost use Rattle.h1_model.specs.Messages.{head, due_next, malformed_status, stop_short, item_of, stop_at};
ghost use Rattle.h1_model.specs.Messages as model;
ghost use Rattle.h1_model.specs.Unread.{IsNext, by_itself};
ghost use Rattle.h1_head.specs.Seen.{seen_head};
ghost use Rattle.h1_head.specs.Measures.{seen_length};
ghost use Rattle.h1_stream.specs.Seen.{asked_of, is_nothing, seen_due, seen_stop, seen_next, IsWithin, IsFlagged};

use gate_base::{Members, Octets, OutOfMemory};
use h1_chunks::ChunkReader;
use h1_head::{Head, HeadStep, Item, Kind, Length, read_head, skip_empty_lines};
use header_maps::ListKind;
use std::alloc::Global;

/// Where a body goes on.
#[derive(Drop)]
pub(crate) enum Body {
    /// So many bytes are to come.
    Counted(u64),
    /// A place in the chunked coding, with the values of the head's Connection, which name trailers that are dropped.
    Coded {
        connection: Members<Octets>,
        reader: ChunkReader,
    },
    /// All that comes until the line ends.
    Unbounded,
}

/// What is due in a text.
#[derive(Drop)]
pub(crate) enum Due {
    /// A head.
    Head,
    /// What is left of a body.
    Body(Body),
    /// Nothing: a response is whole.
    Done,
}

impl Due {
    ghost use Rattle.h1_model.specs.Unread.{due_at, unread_at};
    ghost use Rattle.h1_stream.specs.Seen.{gone_on};

    /// Goes on in a chunked body at this place of the coding.
    pub(crate) fn go_on(&mut self, at: ChunkReader)
        ensures { seen_due self.new ≡ gone_on at (seen_due self.old) }
    {
        match self {
            Due::Body(Body::Coded { reader, .. }) => *reader = at,
            Due::Body(Body::Counted(_) | Body::Unbounded) | Due::Head | Due::Done => {}
        }
    }

    /// Reads over what stands in front of the next part of a text: empty lines in front of a head, and a last chunk's line in front of a
    /// trailer section. How many bytes that takes.
    pub(crate) fn read_over(&mut self, text: &[u8]) -> usize
        ensures due { seen_due self.new ≡ due_at (seen_due self.old) text.now }
        ensures unread { drop result text.now ≡ unread_at (seen_due self.old) text.now }
        ensures within { result ≤ length text.now }
    {
        match self {
            Due::Head => skip_empty_lines(text),
            Due::Body(Body::Coded { reader, .. }) => reader.enter_section(text),
            Due::Body(Body::Counted(_) | Body::Unbounded) | Due::Done => 0,
        }
    }
}

/// Why no further item comes.
#[derive(Clone, Copy)]
pub(crate) enum Stop {
    /// What is there spells no whole item.
    Rest,
    /// All is read.
    Over,
    /// It is refused, with the status of the answer.
    Refusal(u16),
}

/// What is unread next.
#[derive(Drop)]
pub(crate) enum Next {
    /// An item that uses up so many bytes, and what is due after it.
    Part {
        item: Item,
        used: usize,
        due: Due,
    },
    /// A piece of a chunked body that goes on: its bytes, how many bytes it uses up, and the place in the coding after it.
    Chunks {
        bytes: Octets,
        used: usize,
        reader: ChunkReader,
    },
    /// No item.
    Halt(Stop),
}

/// What is due after a whole message.
pub(crate) fn due_next(kind: Kind) -> Due
    ensures { seen_due result ≡ due_next (asked_of kind) }
{
    match kind {
        Kind::Request => Due::Head,
        Kind::Response { .. } => Due::Done,
    }
}

/// What is malformed, or ends too early.
pub(crate) fn malformed(kind: Kind) -> Stop
    ensures { seen_stop result ≡ malformed_status (asked_of kind) }
{
    match kind {
        Kind::Request => Stop::Refusal(400),
        Kind::Response { .. } => Stop::Refusal(502),
    }
}

/// Where no more of a body has come.
pub(crate) fn stop_short(kind: Kind, ended: bool) -> Stop
    ensures { seen_stop result ≡ stop_short ended (asked_of kind) }
{
    if ended { malformed(kind) } else { Stop::Rest }
}

/// A copy of values.
fn copied(alloc: Global, values: &Members<Octets>) -> Result<Members<Octets>, OutOfMemory>
    ensures { IfOk result (λ copy. copy ≡ values.now) }
{
    let mut copy = Members::new(alloc);
    for value in values.as_slice() {
        copy.push(value.copy(alloc)?)?;
    }
    Ok(copy)
}

/// What is due after a head, by the length of its body.
fn due_behind(alloc: Global, kind: Kind, head: &Head) -> Result<Due, OutOfMemory>
    ensures { IfOk result (λ due. seen_due due ≡
        model.due_behind (due_next (asked_of kind)) head.now.connection (seen_length head.now.length)) }
{
    match head.length {
        Length::Nothing => Ok(due_next(kind)),
        Length::Exactly(left) => Ok(Due::Body(Body::Counted(left))),
        Length::Chunked => Ok(Due::Body(Body::Coded {
            connection: copied(alloc, &head.connection)?,
            reader: ChunkReader::new(),
        })),
        Length::UntilEnd => Ok(Due::Body(Body::Unbounded)),
    }
}

/// The item that a head is, which uses up so many bytes.
fn head_item(alloc: Global, kind: Kind, head: Head, used: usize) -> Result<Next, OutOfMemory>
    ensures next { IfOk result (λ n. by_itself (item_of (asked_of kind) (seen_head head) used) ≡ Some (seen_next model.head n)) }
    ensures used { IfOk result (IsWithin used) }
    ensures flagged { IfOk result IsFlagged }
{
    let is_interim = matches!(head.fields.kind(), ListKind::Interim);
    if is_interim && !matches!(kind, Kind::Request) {
        return Ok(Next::Part {
            item: Item::Interim { head },
            used,
            due: Due::Head,
        });
    }
    let due = due_behind(alloc, kind, &head)?;
    let end = matches!(head.length, Length::Nothing);
    Ok(Next::Part {
        item: Item::Head { head, end },
        used,
        due,
    })
}

/// Why an unfinished head does not come.
fn stop_at(kind: Kind, ended: bool, text: &[u8]) -> Stop
    ensures { seen_stop result ≡ stop_at ended (asked_of kind) text.now }
{
    if !ended {
        return Stop::Rest;
    }
    match kind {
        Kind::Request if skip_empty_lines(text) == text.len() => Stop::Over,
        Kind::Request | Kind::Response { .. } => malformed(kind),
    }
}

/// What is unread next where a head is due.
pub(crate) fn head_next(
    alloc: Global,
    kind: Kind,
    ended: bool,
    text: &[u8],
) -> Result<Next, OutOfMemory>
    ensures next { IfOk result (λ n. IsNext ended (asked_of kind) head text.now (seen_next head n)) }
    ensures within { IfOk result (IsWithin (length text.now)) }
    ensures flagged { IfOk result IsFlagged }
{
    match read_head(alloc, text, kind)? {
        HeadStep::Head { head, used } => head_item(alloc, kind, head, used),
        HeadStep::NotYet => Ok(Next::Halt(stop_at(kind, ended, text))),
        HeadStep::Refused { number } => Ok(Next::Halt(Stop::Refusal(number))),
    }
}
