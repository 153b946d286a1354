// From a text to the head that it spells.
ghost use Rattle.std.specs.Prelude.{◌≡◌, ◌≤◌, length, take, IfOk};
ghost use Rattle.h1_model.specs.Lines.{head_cut, head_limit, empty_line_bytes, whole};
ghost use Rattle.h1_head.specs.Seen.{seen_answer, seen_step, IsAnswerOf, Spells, UsesWithin};

use crate::head::{HeadStep, Kind};
use crate::lines::{head_cut, skip_empty_lines};
use crate::parts::HeadOrStatus;
use crate::request::request_answer;
use crate::response::response_answer;
use gate_base::OutOfMemory;
use h1_text::Cut;
use std::alloc::Global;

/// What the whole head of that kind gives that takes the first `len` bytes of a text, of so many lines after its first.
fn answer(
    alloc: Global,
    text: &[u8],
    len: usize,
    lines: usize,
    kind: Kind,
) -> Result<HeadOrStatus, OutOfMemory>
    requires fits { len ≤ length text.now }
    requires limit { len ≤ head_limit }
    requires cut { head_cut text.now ≡ whole len }
    requires filled { empty_line_bytes text.now ≡ 0 }
    ensures { IfOk result (λ answer. IsAnswerOf kind (take len text.now) (seen_answer answer)) }
{
    match kind {
        Kind::Request => request_answer(alloc, text, len, lines),
        Kind::Response { to_head } => response_answer(alloc, text, len, lines, to_head),
    }
}

/// What a text spells where a head of that kind is due (RFC 9112 sections 2 to 6): a head, nothing as yet, or a refusal,
/// which is 400, 431 or 501 for a request and 502 for a response. Empty lines before it are skipped. It reads 65,536 bytes
/// after them at most, and takes no memory but for the head that it hands out and, while it reads a target that does not
/// begin with `/`, a copy of that.
pub fn read_head(alloc: Global, text: &[u8], kind: Kind) -> Result<HeadStep, OutOfMemory>
    ensures spelled { IfOk result (λ step. Spells kind text.now (seen_step step)) }
    ensures within { IfOk result (UsesWithin (length text.now)) }
{
    let skipped = skip_empty_lines(text);
    let rest = &text[skipped..];
    match head_cut(rest) {
        Cut::Whole { len, lines } => match answer(alloc, rest, len, lines, kind)? {
            Ok(head) => Ok(HeadStep::Head {
                head,
                used: skipped + len,
            }),
            Err(number) => Ok(HeadStep::Refused { number }),
        },
        Cut::TooLarge => Ok(HeadStep::Refused {
            number: kind.large_number(),
        }),
        Cut::Unfinished => Ok(HeadStep::NotYet),
    }
}
