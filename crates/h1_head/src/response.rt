// From the text of a whole response head to what a gateway makes of it.
ghost use Rattle.std.specs.Prelude.{◌≡◌, ◌≤◌, ℕ, List, length, take, All, IfOk, IfSome, IfNone};
ghost use Rattle.h1_model.specs.Head.{response_judged, IsResponseAnswer};
ghost use Rattle.h1_model.specs.Length.{is_without_body};
ghost use Rattle.h1_model.specs.Lines.{head_cut, head_limit, empty_line_bytes, whole};
ghost use Rattle.h1_model.specs.Listed.{response_list};
ghost use Rattle.httparse.specs.Grammar.{ResponseHead, ReadsResponse};
ghost use Rattle.httparse.specs.Spans.{IsResponseWithin, IsResponseOf, header_bytes};
ghost use Rattle.h1_head.specs.Held.{fields_of};
ghost use Rattle.h1_head.specs.Lengths.{IsConnectionOf};
ghost use Rattle.h1_head.specs.Spans.{IsRead};
ghost use Rattle.h1_head.specs.Seen.{seen_answer, IsListed};

use crate::fields::{ConnectionFields, Fields};
use crate::length::{bodied, response_measure};
use crate::parts::{FEW_FIELDS, FIELD_LIMIT, HeadOrStatus, measured, refusal_of};
use gate_base::OutOfMemory;
use header_maps::{HeaderEnd, HeaderList};
use httparse::Status;
use httparse::spans::{EMPTY_HEADER_SPAN, HeaderSpan, ResponseSpans, parse_response};
use std::alloc::Global;

/// The header list of a response or of an interim head. 101 is none, since no upgrade is asked for.
fn response_list(
    alloc: Global,
    status: u16,
    fields: &Fields,
    connection: &ConnectionFields,
) -> Result<HeaderList, HeaderEnd>
    requires { IsConnectionOf (fields_of fields.now) connection.now }
    ensures { IsListed (response_list status (fields_of fields.now)) result }
{
    if status == 101 {
        return Err(HeaderEnd::BadValue);
    }
    let list = HeaderList::response(alloc, status)?;
    fields.passing(true, connection, list)
}

/// Whether a response has no body, whatever its fields tell (RFC 9112 section 6.3).
fn is_without_body(to_head: bool, status: u16) -> bool
    ensures { result ≡ is_without_body to_head status }
{
    to_head || status < 200 || status == 204 || status == 304
}

/// What a gateway makes of a response head with this status and these fields.
fn response_judged(
    alloc: Global,
    to_head: bool,
    minor: u8,
    status: u16,
    fields: &Fields,
) -> Result<HeadOrStatus, OutOfMemory>
    ensures { IfOk result (λ answer.
        seen_answer answer ≡ response_judged to_head minor status (fields_of fields.now)) }
{
    let noted = fields.noted();
    let connection = fields.connection(alloc, noted.connection);
    let list = match response_list(alloc, status, fields, &connection) {
        Ok(list) => list,
        Err(end) => return Ok(Err(refusal_of(end, 502)?)),
    };
    let measure = bodied(
        is_without_body(to_head, status),
        response_measure(fields, &noted, minor),
    );
    measured(alloc, list, None, minor, fields, &connection, measure)
}

/// The head that a text begins with, if it has one of at most so many fields as there are spans for.
fn spans_of(text: &[u8], headers: &mut [HeaderSpan]) -> Option<ResponseSpans>
    requires { length text.now ≤ head_limit }
    ensures within { IfSome result (IsResponseWithin text.now headers.new) }
    ensures read { IfSome result (λ r. All (λ s. IsRead (header_bytes text.now s)) (take r.headers headers.new)) }
    ensures some { IfSome result (IsResponseOf text.now headers.new) }
    ensures none { IfNone result ((head : ResponseHead) (rest : List ℕ) → ReadsResponse text.now head rest
        → length head.fields ≤ length headers.old → ⊥) }
{
    match parse_response(text, headers) {
        Ok(Status::Complete(head)) => Some(head),
        _ => None,
    }
}

/// What a response head gives that was found in the first `len` bytes of a text.
fn found_answer(
    alloc: Global,
    text: &[u8],
    len: usize,
    to_head: bool,
    head: &ResponseSpans,
    headers: &[HeaderSpan],
) -> Result<HeadOrStatus, OutOfMemory>
    requires fits { len ≤ length text.now }
    requires limit { len ≤ head_limit }
    requires cut { head_cut text.now ≡ whole len }
    requires filled { empty_line_bytes text.now ≡ 0 }
    requires within { IsResponseWithin (take len text.now) headers.now head.now }
    requires read { All (λ s. IsRead (header_bytes (take len text.now) s)) (take head.now.headers headers.now) }
    requires found { IsResponseOf (take len text.now) headers.now head.now }
    ensures { IfOk result (λ answer. IsResponseAnswer to_head (take len text.now) (seen_answer answer)) }
{
    response_judged(
        alloc,
        to_head,
        head.version,
        head.code,
        &Fields {
            text: &text[..len],
            spans: &headers[..head.headers],
        },
    )
}

/// What the whole response head gives that takes the first `len` bytes of a text.
fn answer_of_many(
    alloc: Global,
    text: &[u8],
    len: usize,
    to_head: bool,
) -> Result<HeadOrStatus, OutOfMemory>
    requires fits { len ≤ length text.now }
    requires limit { len ≤ head_limit }
    requires cut { head_cut text.now ≡ whole len }
    requires filled { empty_line_bytes text.now ≡ 0 }
    ensures { IfOk result (λ answer. IsResponseAnswer to_head (take len text.now) (seen_answer answer)) }
{
    let mut headers = [EMPTY_HEADER_SPAN; FIELD_LIMIT];
    match spans_of(&text[..len], &mut headers) {
        Some(head) => found_answer(alloc, text, len, to_head, &head, &headers),
        None => Ok(Err(502)),
    }
}

/// The same, looked for with room for few fields first: where it has more of them, or is none, with room for all.
fn answer_of_few(
    alloc: Global,
    text: &[u8],
    len: usize,
    to_head: bool,
) -> Result<HeadOrStatus, OutOfMemory>
    requires fits { len ≤ length text.now }
    requires limit { len ≤ head_limit }
    requires cut { head_cut text.now ≡ whole len }
    requires filled { empty_line_bytes text.now ≡ 0 }
    ensures { IfOk result (λ answer. IsResponseAnswer to_head (take len text.now) (seen_answer answer)) }
{
    let mut headers = [EMPTY_HEADER_SPAN; FEW_FIELDS];
    match spans_of(&text[..len], &mut headers) {
        Some(head) => found_answer(alloc, text, len, to_head, &head, &headers),
        None => answer_of_many(alloc, text, len, to_head),
    }
}

/// What the whole response head gives that takes the first `len` bytes of a text. How many lines it has after its first says what room is made
/// for its fields.
pub fn response_answer(
    alloc: Global,
    text: &[u8],
    len: usize,
    lines: usize,
    to_head: bool,
) -> Result<HeadOrStatus, OutOfMemory>
    requires fits { len ≤ length text.now }
    requires limit { len ≤ head_limit }
    requires cut { head_cut text.now ≡ whole len }
    requires filled { empty_line_bytes text.now ≡ 0 }
    ensures { IfOk result (λ answer. IsResponseAnswer to_head (take len text.now) (seen_answer answer)) }
{
    if lines <= FEW_FIELDS {
        answer_of_few(alloc, text, len, to_head)
    } else {
        answer_of_many(alloc, text, len, to_head)
    }
}
