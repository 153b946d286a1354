// What is kept of heads, how messages are framed, and the rule of persistence.
ghost use Rattle.std.specs.List.{list_all, position_or_len};
ghost use Rattle.std.specs.Prelude.{◌≡◌, ◌==◌, nat_lt, Some, None, codes};
ghost use Rattle.header_maps.specs.Judged.{status_of};
ghost use Rattle.h1_model.specs.Framing.{told_framing};
ghost use Rattle.h1_model.specs.Length.{is_without_body};
ghost use Rattle.h1_head.specs.Measures.{seen_length};
ghost use Rattle.h1_head.specs.Seen.{seen_head};
ghost use Rattle.h1_stream.specs.Seen.{asked_of};
ghost use Rattle.h1_write.specs.Seen.{seen_framing};
ghost use Rattle.exchange.specs.Heads.{length_of, is_bare, is_head, request_of, path_of, route_in, status_in, response_of, up_framing, asked_by, lacks_body, is_204, down_framing, body_framing, is_by_close, may_stay, is_final, closes_line, passes_filters, answer_of, sent_length};
ghost use Rattle.exchange.specs.Leaving.{out_framing, written_framing, stays_behind, is_due};

use crate::types::{Exchange, Request, Response};
use gate_config::Config;
use h1_head::{Head, Kind, Length, pseudo_of};
use h1_write::{Framing, framing_of};
use header_maps::HeaderList;

/// Whether a body of this length has no bytes.
pub fn is_bare(length: Length) -> bool
    ensures { result ≡ is_bare length }
{
    match length {
        Length::Nothing => true,
        Length::Exactly(_) | Length::Chunked | Length::UntilEnd => false,
    }
}

/// Whether a list of pseudo-headers says HEAD.
pub(crate) fn is_head(fields: &HeaderList) -> bool
    ensures { result ≡ is_head fields.now }
{
    pseudo_of(fields, b":method") == b"HEAD".as_slice()
}

/// What is kept of a request with this head.
#[tactic(auto, using(crate::proofs::Lengths::length_back))]
pub fn request_of(head: &Head) -> Request
    ensures { result ≡ request_of (seen_head head.now) }
{
    Request {
        old_client: head.minor == 0,
        close: head.close,
        is_head: is_head(&head.fields),
        minor: head.minor,
        length: head.length,
        told: head.told,
        whole: is_bare(head.length),
    }
}

/// The number of a status code's three digits.
fn number_of(text: &[u8]) -> Option<u16>
    ensures { result ≡ status_of text.now }
{
    match text {
        [a, b, c] if a.is_ascii_digit() && b.is_ascii_digit() && c.is_ascii_digit() => {
            Some(u16::from(*a - b'0') * 100 + u16::from(*b - b'0') * 10 + u16::from(*c - b'0'))
        }
        _ => None,
    }
}

/// The status that a list of pseudo-headers says.
pub(crate) fn status_in(fields: &HeaderList) -> Option<u16>
    ensures { result ≡ status_in fields.now }
{
    number_of(pseudo_of(fields, b":status"))
}

/// What is kept of a response with this head.
#[tactic(auto, using(crate::proofs::Lengths::length_back))]
pub fn response_of(to_head: bool, head: &Head) -> Response
    ensures { result ≡ response_of to_head (seen_head head.now) }
{
    Response {
        to_head,
        status: status_in(&head.fields),
        length: head.length,
        told: head.told,
    }
}

/// How many bytes stand in front of the query.
fn path_len(target: &[u8]) -> usize
    ensures { result ≡ position_or_len (λ b. b == 63) target.now }
{
    target.iter().take_while(|b| **b != b'?').count()
}

/// The path of a request's target, without its query.
fn path_of(fields: &HeaderList) -> &[u8]
    ensures { result.now ≡ path_of fields.now }
{
    let target = pseudo_of(fields, b":path");
    let len = path_len(target);
    &target[..len]
}

/// Whether all bytes are ASCII.
fn is_ascii(bytes: &[u8]) -> bool
    ensures { result ≡ list_all (λ b. nat_lt b 128) bytes.now }
{
    bytes.iter().all(|b| *b < 128)
}

/// The place of the route that takes the path of a request.
pub fn path_route(config: &Config, fields: &HeaderList) -> Option<u16>
    ensures { result ≡ route_in config.now.routes (path_of fields.now) }
{
    let path = path_of(fields);
    if is_ascii(path) {
        config.route(path)
    } else {
        None
    }
}

/// What the response to a request that is sent up with these fields is read as.
pub(crate) fn response_kind(fields: &HeaderList) -> Kind
    ensures { asked_of result ≡ Some (asked_by fields.now) }
{
    Kind::Response {
        to_head: is_head(fields),
    }
}

/// The framing of a request on its way up.
#[tactic(auto, using(crate::proofs::Lengths::length_seen))]
pub(crate) fn up_framing(filtered: bool, q: Request) -> Framing
    ensures { seen_framing result ≡ up_framing filtered q }
{
    framing_of(is_bare(q.length), filtered, false, None, q.told, q.length)
}

/// Whether a response of this status, to a HEAD request or to another, has no body (RFC 9112 section 6.3).
fn is_without_body(to_head: bool, status: u16) -> bool
    ensures { result ≡ is_without_body to_head status }
{
    to_head || status < 200 || status == 204 || status == 304
}

/// The same of a status that may be missing.
fn lacks_body(to_head: bool, status: Option<u16>) -> bool
    ensures { result ≡ lacks_body to_head status }
{
    match status {
        None => to_head,
        Some(status) => is_without_body(to_head, status),
    }
}

/// Whether a status is 204.
fn is_204(status: Option<u16>) -> bool
    ensures { result ≡ is_204 status }
{
    match status {
        None => false,
        Some(status) => status == 204,
    }
}

/// The framing by a length that was told.
fn told_framing(told: Option<u64>) -> Framing
    ensures { seen_framing result ≡ told_framing told }
{
    match told {
        None => Framing::Nothing,
        Some(n) => Framing::Length(n),
    }
}

/// The framing of a response on its way down.
#[tactic(auto, using(crate::proofs::Lengths::length_seen))]
pub(crate) fn down_framing(filtered: bool, q: Request, r: Response, out: Option<u16>) -> Framing
    ensures { seen_framing result ≡ down_framing filtered q r out }
{
    let bare = is_bare(r.length);
    if lacks_body(q.is_head, out) {
        if (bare || !filtered) && !(is_204(r.status) || is_204(out)) {
            return told_framing(r.told);
        }
        return Framing::Nothing;
    }
    if lacks_body(r.to_head, r.status) {
        return Framing::Length(0);
    }
    framing_of(bare, filtered, q.old_client, r.status, r.told, r.length)
}

/// The framing by which the body of a response is written whose head tells this one.
fn body_framing(q: Request, out: Option<u16>, framing: Framing) -> Framing
    ensures { seen_framing result ≡ body_framing q out (seen_framing framing) }
{
    if lacks_body(q.is_head, out) {
        Framing::Nothing
    } else {
        framing
    }
}

/// Whether the end of the line ends a response.
fn is_by_close(framing: Framing) -> bool
    ensures { result ≡ is_by_close (seen_framing framing) }
{
    match framing {
        Framing::UntilClose => true,
        Framing::Nothing | Framing::Length(_) | Framing::Chunked => false,
    }
}

/// Whether the line may stay open after a request (RFC 9112 section 9.3).
pub(crate) fn may_stay(q: Request) -> bool
    ensures { result ≡ may_stay q }
{
    !q.old_client && !q.close && q.whole
}

/// The framing that the head of the response tells, once it went out.
pub(crate) fn out_framing(x: &Exchange) -> Framing
    ensures { seen_framing result ≡ out_framing x.now }
{
    down_framing(x.filters_responses, x.asked, x.told, x.out)
}

/// The framing by which the body of the response is written.
pub(crate) fn written_framing(x: &Exchange) -> Framing
    ensures { seen_framing result ≡ written_framing x.now }
{
    body_framing(x.asked, x.out, out_framing(x))
}

/// Whether the line stays open after a response that is framed so.
pub(crate) fn stays_behind(x: &Exchange, framing: Framing) -> bool
    ensures { result ≡ stays_behind x.now (seen_framing framing) }
{
    may_stay(x.asked) && !x.closes && !is_by_close(framing)
}

/// Whether a status is one of a final response.
pub fn is_final(status: u16) -> bool
    ensures { result ≡ is_final status }
{
    200 <= status && status <= 599
}

/// Whether the line is closed after a refusal of this status.
pub(crate) fn shuts(status: u16) -> bool
    ensures { result ≡ closes_line status }
{
    (status == 400 || status == 413) || (status == 431 || status == 501)
}

/// Whether a fixed answer of this status passes the filters that were reached.
pub(crate) fn passes_filters(status: u16) -> bool
    ensures { result ≡ passes_filters status }
{
    status == 413 || (status == 502 || status == 504)
}

/// The length of a body that is sent, or not.
fn sent_length(lacks: bool, body: &[u8]) -> Length
    ensures { result ≡ sent_length lacks body.now }
{
    if lacks || body.is_empty() {
        return Length::Nothing;
    }
    Length::Exactly(body.len() as u64)
}

/// What is kept of an answer with this body.
pub(crate) fn answer_of(q: Request, status: u16, body: &[u8]) -> Response
    ensures { result ≡ answer_of q status body.now }
{
    Response {
        to_head: q.is_head,
        status: Some(status),
        length: sent_length(is_without_body(q.is_head, status), body),
        told: if is_without_body(false, status) {
            None
        } else {
            Some(body.len() as u64)
        },
    }
}

/// Whether the head of the response of an exchange is due at a moment, and is not there.
pub fn is_due(now: u64, x: &Exchange) -> bool
    ensures { result ≡ is_due now x.now }
{
    match x.due {
        None => false,
        Some(due) => due <= now && !x.is_headed && !x.is_answered && !x.has_ended,
    }
}
