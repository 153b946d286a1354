// The reader of one side of a line.
ghost use Rattle.std.specs.List.{list_all};
ghost use Rattle.std.specs.Prelude.{◌≡◌, ◌↔◌, ◌++◌, ◌+◌, ◌<◌, ◌≤◌, Bool, true, false, List, ℕ, [], length, IfOk, OnOk, OnErr, IsTrue};
ghost use Rattle.h1_model.specs.Unread.{IsNext, new_reading, reading_with_bytes, reading_with_end, awaiting_bytes};
ghost use Rattle.h1_stream.specs.Quiet.{IsOpen, IsQuiet};
ghost use Rattle.h1_model.specs.Messages.{head, body, coded, Due as Dues};
ghost use Rattle.h1_model.specs.Lines.{whole_lines};
ghost use Rattle.h1_chunks.specs.Waits.{extends, IsWithinSize};
ghost use Rattle.h1_stream.specs.Seen.{seen_due};

use crate::body::body_next;
use crate::next::{Body, Due, Next, Stop, head_next};
use crate::unread::Unread;
use gate_base::OutOfMemory;
use h1_chunks::ChunkReader;
use h1_head::{Item, Kind, head_cut, skip_empty_lines};
use h1_text::{Cut, line_len};
use std::alloc::Global;
use std::marker::Model;

/// What a reader has next.
#[derive(Drop)]
pub enum Step {
    /// An item of a message.
    Item { item: Item },
    /// Nothing as yet: the text so far spells no further item, and has not ended.
    NotYet,
    /// Nothing any more: a response is whole, or a text of requests has ended and is all read.
    Over,
    /// A text that is refused, with the status of the answer: 400, 431 or 501 for a request, 502 for a response.
    Refused { number: u16 },
}

/// How many bytes of a head, or of a trailer section, may come.
const OPEN_LIMIT: usize = 65_536;

/// How many bytes of a size line may come, its CR LF not with them.
const SIZE_LIMIT: usize = 4_094;

/// Whether and why the text is looked at no more until what comes tells more.
#[derive(Clone, Copy, Debug)]
pub(crate) enum Quiet {
    /// It is looked at.
    No,
    /// A head or a trailer section is not finished: until a line, an end or too much comes.
    Lines,
    /// A size line has come as far as into its extensions: until CR, LF, an end or too much comes.
    Size,
}

impl Quiet {
    ghost use Rattle.h1_stream.specs.Quiet.{is_quiet};

    /// Whether it is looked at no more.
    fn holds(self) -> bool
        ensures { result ≡ is_quiet self }
    {
        match self {
            Quiet::No => false,
            Quiet::Lines | Quiet::Size => true,
        }
    }
}

/// Whether a piece leaves a head or a trailer section unfinished.
fn ends_no_line(text: &[u8], piece: &[u8]) -> bool
    ensures { result ≡ true → (whole_lines piece.now ≡ []) × (length text.now + length piece.now < 65536) }
{
    if text.len() >= OPEN_LIMIT || piece.len() >= OPEN_LIMIT - text.len() {
        return false;
    }
    line_len(piece).is_none()
}

/// Whether no byte is a CR or an LF.
fn has_no_line_end(bytes: &[u8]) -> bool
    ensures { result ≡ list_all extends bytes.now }
{
    bytes.iter().all(|b| *b != b'\r' && *b != b'\n')
}

/// Whether a piece leaves a size line within its extensions.
fn extends_size(text: &[u8], piece: &[u8]) -> bool
    ensures { result ≡ true → (list_all extends piece.now ≡ true) × (length text.now + length piece.now ≤ 4094) }
{
    if text.len() > SIZE_LIMIT || piece.len() > SIZE_LIMIT - text.len() {
        return false;
    }
    has_no_line_end(piece)
}

/// Whether what there is still needs no look when a piece comes.
#[tactic(auto, using(crate::proofs::Quiet::stays_size))]
fn stays_quiet(quiet: Quiet, text: &[u8], piece: &[u8]) -> Quiet
    ensures { (ended : Bool) (due : Dues) → IsQuiet quiet ended due text.now → IsQuiet result ended due (text.now ++ piece.now) }
{
    match quiet {
        Quiet::Lines if ends_no_line(text, piece) => Quiet::Lines,
        Quiet::Size if extends_size(text, piece) => Quiet::Size,
        _ => Quiet::No,
    }
}

/// Whether a text is an unfinished head, with no empty lines before it.
fn is_open_head(text: &[u8]) -> bool
    ensures { IsTrue result ↔ IsOpen head text.now }
{
    skip_empty_lines(text) == 0 && matches!(head_cut(text), Cut::Unfinished)
}

/// Whether the extensions of a size line stand at the end of a text, and there is room for more.
fn is_open_size(reader: &ChunkReader, text: &[u8]) -> bool
    ensures { result ≡ true → (IsWithinSize reader.now text.now × (length text.now ≤ 4094)) }
{
    text.len() <= SIZE_LIMIT && reader.is_within_size(text)
}

/// Whether a chunked body's text needs no look until more of it comes: a trailer section that is not finished, or a size line within its extensions.
fn coded_quiet(reader: &ChunkReader, text: &[u8]) -> Quiet
    ensures { (connection : List (List ℕ)) → IsQuiet result false (body (coded connection reader.now)) text.now }
{
    if reader.is_within_section(text) {
        Quiet::Lines
    } else if is_open_size(reader, text) {
        Quiet::Size
    } else {
        Quiet::No
    }
}

/// Whether the text needs no look until more of it comes.
fn quiet_of(ended: bool, due: &Due, text: &[u8]) -> Quiet
    ensures { IsQuiet result ended (seen_due due.now) text.now }
{
    if ended {
        return Quiet::No;
    }
    match due {
        Due::Head if is_open_head(text) => Quiet::Lines,
        Due::Body(Body::Coded { reader, .. }) => coded_quiet(reader, text),
        Due::Head | Due::Body(Body::Counted(_) | Body::Unbounded) | Due::Done => Quiet::No,
    }
}

/// Reads one side of a line: the requests of a client, or the response to one request with its interim heads (RFC 9112). It
/// keeps the bytes that no item has used, and no others. Clauses see what it answers, whether its text has ended, what is due
/// and what is unread.
#[derive(Drop)]
pub struct MessageReader {
    alloc: Global,
    kind: Kind,
    ended: bool,
    due: Due,
    text: Unread,
    /// Whether the text is looked at no more until what comes tells more.
    quiet: Quiet,
}

impl Model for MessageReader {
    ghost use Rattle.h1_model.specs.Unread.{Reading};

    ghost Value = { Reading };

    ghost use Rattle.h1_stream.specs.Seen.{asked_of, seen_due};
    ghost use Rattle.h1_stream.specs.Quiet.{IsQuiet};

    ghost view = { λ r. record { asked = asked_of r.kind; ended = r.ended; due = seen_due r.due; unread = r.text } };

    ghost invariant = { λ r. IsQuiet r.quiet r.ended (seen_due r.due) r.text };
}

impl MessageReader {
    ghost use Rattle.h1_stream.specs.Seen.{asked_of};
    ghost use Rattle.h1_stream.specs.Seen.{seen_next, IsWithin, IsFlagged};
    ghost use Rattle.h1_stream.specs.Steps.{Answers, Takes};

    /// The reader of a text of which nothing has come. It takes no memory.
    pub fn new(alloc: Global, kind: Kind) -> Result<Self, OutOfMemory>
        ensures { IfOk result (λ reader. reader ≡ new_reading (asked_of kind)) }
    {
        Ok(MessageReader {
            alloc,
            kind,
            ended: false,
            due: Due::Head,
            text: Unread::new(alloc),
            quiet: Quiet::No,
        })
    }

    /// Takes more of the text.
    pub fn feed(&mut self, piece: &[u8]) -> Result<(), OutOfMemory>
        requires { self.old.ended ≡ false }
        ensures ok { OnOk result (self.new ≡ reading_with_bytes piece.now self.old) }
        ensures err { OnErr result (self.new ≡ self.old) }
    {
        let quiet = stays_quiet(self.quiet, self.text.as_slice(), piece);
        self.text.push(piece)?;
        self.quiet = quiet;
        Ok(())
    }

    /// Says that the text has ended. It takes no memory.
    pub fn end(&mut self)
        ensures { self.new ≡ reading_with_end self.old }
    {
        self.quiet = Quiet::No;
        self.ended = true;
    }

    /// Whether the text has ended.
    pub fn has_ended(&self) -> bool
        ensures { result ≡ self.now.ended }
    {
        self.ended
    }

    /// How many bytes of the text no item has used.
    pub fn unread_len(&self) -> usize
        ensures { result ≡ length self.now.unread }
    {
        self.text.as_slice().len()
    }

    /// The next item of all text so far, in whatever pieces it came: a head, up to 16,384 bytes of a body, or trailers; or that
    /// there is none. A body's bytes come as soon as they are there.
    #[tactic(auto, using(crate::proofs::Answered::answered))]
    pub fn next_item(&mut self) -> Result<Step, OutOfMemory>
        ensures ok { IfOk result (λ step. Answers self.old step self.new) }
        ensures err { OnErr result (self.new ≡ self.old) }
    {
        if self.quiet.holds() {
            return Ok(Step::NotYet);
        }
        let next = self.next()?;
        let step = self.take(next);
        self.hush();
        Ok(step)
    }

    /// What is unread next.
    fn next(&self) -> Result<Next, OutOfMemory>
        ensures next { IfOk result (λ n. IsNext self.now.ended self.now.asked self.now.due self.now.unread (seen_next self.now.due n)) }
        ensures within { IfOk result (IsWithin (length self.now.unread)) }
        ensures flagged { IfOk result IsFlagged }
    {
        let text = self.text.as_slice();
        match &self.due {
            Due::Head => head_next(self.alloc, self.kind, self.ended, text),
            Due::Body(body) => body_next(self.alloc, self.kind, self.ended, body, text),
            Due::Done => Ok(Next::Halt(Stop::Over)),
        }
    }

    /// Goes on after what is next.
    fn take(&mut self, next: Next) -> Step
        requires { IsWithin (length self.old.unread) next }
        ensures { Takes self.old next result self.new }
    {
        self.quiet = Quiet::No;
        match next {
            Next::Part { item, used, due } => {
                self.text.use_up(used);
                self.due = due;
                Step::Item { item }
            }
            Next::Chunks {
                bytes,
                used,
                reader,
            } => {
                self.text.use_up(used);
                self.due.go_on(reader);
                Step::Item {
                    item: Item::Piece { bytes, end: false },
                }
            }
            Next::Halt(why) => {
                self.skip();
                match why {
                    Stop::Rest => Step::NotYet,
                    Stop::Over => Step::Over,
                    Stop::Refusal(number) => Step::Refused { number },
                }
            }
        }
    }

    /// Notes whether what there is needs no look until more of it comes.
    fn hush(&mut self)
        ensures { self.new ≡ self.old }
    {
        self.quiet = quiet_of(self.ended, &self.due, self.text.as_slice());
    }

    /// Reads over what counts as read where no part is next.
    fn skip(&mut self)
        ensures { self.new ≡ awaiting_bytes self.old }
    {
        self.quiet = Quiet::No;
        let used = self.due.read_over(self.text.as_slice());
        self.text.use_up(used);
    }
}
