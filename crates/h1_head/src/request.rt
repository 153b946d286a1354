// From the text of a whole request head to what a gateway makes of it.
ghost use Rattle.std.specs.List.{list_all};
ghost use Rattle.std.specs.Prelude.{◌≡◌, ◌≤◌, true, ℕ, List, Option, Some, codes, length, slice_index, take, All, IfOk, IfSome, IfNone, option_copied};
ghost use Rattle.header_maps.specs.Headers.{Headers};
ghost use Rattle.header_maps.specs.Kept.{byte_limit};
ghost use Rattle.h1_model.specs.Fields.{values_of};
ghost use Rattle.h1_model.specs.Head.{host_of, head_of_list, IsTargeted, IsJudged, IsAnswer};
ghost use Rattle.h1_model.specs.Length.{request_measure};
ghost use Rattle.h1_model.specs.Lines.{head_cut, head_limit, empty_line_bytes, whole};
ghost use Rattle.h1_model.specs.Listed.{request_list};
ghost use Rattle.h1_model.specs.Target.{is_path_value, is_visible};
ghost use Rattle.http_uri.specs.ByteClasses.{slash};
ghost use Rattle.httparse.specs.Grammar.{RequestHead, ReadsRequest};
ghost use Rattle.httparse.specs.Spans.{IsRequestWithin, IsRequestOf, header_bytes};
ghost use Rattle.h1_head.specs.Held.{fields_of};
ghost use Rattle.h1_head.specs.Lengths.{IsConnectionOf};
ghost use Rattle.h1_head.specs.Noted.{AreNoted};
ghost use Rattle.h1_head.specs.Spans.{AreLines, IsRead};
ghost use Rattle.h1_head.specs.Seen.{seen_answer, IsHost, IsListed};
ghost use Rattle.h1_head.specs.Targets.{path_parts, seen_form, seen_target};

use crate::fields::{ConnectionFields, FieldLines, Fields, Noted};
use crate::head::TargetForm;
use crate::length::request_measure;
use crate::parts::{FEW_FIELDS, FIELD_LIMIT, HeadOrStatus, measured, refusal_of};
use crate::target::{RequestTarget, begins_with, is_plain_origin, is_visible, target_of};
use gate_base::OutOfMemory;
use header_maps::{HeaderEnd, HeaderList};
use httparse::Status;
use httparse::spans::{EMPTY_HEADER_SPAN, HeaderSpan, RequestSpans, parse_request};
use std::alloc::Global;

/// Whether all bytes of a value are visible.
fn is_all_visible(value: &[u8]) -> bool
    ensures { result ≡ list_all is_visible value.now }
{
    value.iter().all(|b| is_visible(*b))
}

/// The value of Host, or nothing in a head of HTTP/1.0 without one; none where the Host lines are wrong
/// (RFC 9112 section 3.2).
fn host_value<'t>(lines: FieldLines<'t>, minor: u8) -> Option<&'t [u8]>
    ensures { (hosts : List (List ℕ)) → AreLines hosts lines.entry → IsHost minor hosts (option_copied result) }
{
    match lines {
        FieldLines::Absent if minor == 0 => Some(&[]),
        FieldLines::One(host) if is_all_visible(host) => Some(host),
        _ => None,
    }
}

/// The header list of a request.
fn request_list(
    alloc: Global,
    method: &[u8],
    target: &RequestTarget,
    host: &[u8],
    fields: &Fields,
    connection: &ConnectionFields,
) -> Result<HeaderList, HeaderEnd>
    requires connection { IsConnectionOf (fields_of fields.now) connection.now }
    requires method { length method.now ≤ byte_limit }
    requires host { length host.now ≤ byte_limit }
    requires authority { IfSome (seen_target target.now).authority (λ a. length a ≤ byte_limit) }
    requires path { length (seen_target target.now).path ≤ byte_limit }
    ensures { IsListed (request_list method.now (seen_target target.now) host.now (fields_of fields.now)) result }
{
    let authority = match &target.authority {
        Some(authority) => authority.as_slice(),
        None => host,
    };
    let scheme = target.scheme.as_bytes();
    let list = HeaderList::request(alloc, method, scheme, authority, target.path.as_slice())?;
    fields.passing(false, connection, list)
}

/// The header list of a request whose target is a path, which was judged before, as its Host was.
fn path_list(
    alloc: Global,
    method: &[u8],
    path: &[u8],
    host: &[u8],
    fields: &Fields,
    connection: &ConnectionFields,
) -> Result<HeaderList, HeaderEnd>
    requires connection { IsConnectionOf (fields_of fields.now) connection.now }
    requires method { length method.now ≤ byte_limit }
    requires host { length host.now ≤ byte_limit }
    requires path { length path.now ≤ byte_limit }
    requires visible { list_all is_visible host.now ≡ true }
    requires plain { is_path_value path.now ≡ true }
    ensures { IsListed (request_list method.now (path_parts path.now) host.now (fields_of fields.now)) result }
{
    let (bytes, pairs) = fields.room();
    let list = HeaderList::request_read(alloc, method, b"http", host, path, bytes, pairs)?;
    fields.passing(false, connection, list)
}

/// A head of this list, or the status of its refusal where none was made.
fn listed(
    alloc: Global,
    list: Result<HeaderList, HeaderEnd>,
    form: TargetForm,
    minor: u8,
    fields: &Fields,
    noted: &Noted,
    connection: &ConnectionFields,
) -> Result<HeadOrStatus, OutOfMemory>
    requires noted { AreNoted (fields_of fields.now) noted.now }
    requires connection { IsConnectionOf (fields_of fields.now) connection.now }
    ensures { (o : Option Headers) → IsListed o list → IfOk result (λ answer. seen_answer answer ≡
        head_of_list 400 o (Some (seen_form form)) minor (fields_of fields.now) (request_measure minor
        (values_of (codes "transfer-encoding") (fields_of fields.now)) (values_of (codes "content-length") (fields_of fields.now)))) }
{
    let list = match list {
        Ok(list) => list,
        Err(end) => return Ok(Err(refusal_of(end, 400)?)),
    };
    let measure = request_measure(fields, noted, minor);
    measured(alloc, list, Some(form), minor, fields, connection, measure)
}

/// A head whose target is a path, which stands in the head's list as it is.
fn path_targeted(
    alloc: Global,
    method: &[u8],
    target: &[u8],
    minor: u8,
    fields: &Fields,
    noted: &Noted,
    host: &[u8],
) -> Result<HeadOrStatus, OutOfMemory>
    requires noted { AreNoted (fields_of fields.now) noted.now }
    requires host { host.now ≡ host_of (values_of (codes "host") (fields_of fields.now)) }
    requires visible { list_all is_visible host.now ≡ true }
    requires method { length method.now ≤ head_limit }
    requires target { length target.now ≤ head_limit }
    requires slash { slice_index target.now 0 ≡ slash }
    ensures { IfOk result (λ answer.
        IsTargeted method.now target.now minor (fields_of fields.now) (seen_answer answer)) }
{
    if !is_plain_origin(target) {
        return Ok(Err(400));
    }
    let connection = fields.connection(alloc, noted.connection);
    let list = path_list(alloc, method, target, host, fields, &connection);
    listed(
        alloc,
        list,
        TargetForm::Origin,
        minor,
        fields,
        noted,
        &connection,
    )
}

/// A head by what its target gives, which is none that begins with `/`.
fn parts_targeted(
    alloc: Global,
    method: &[u8],
    target: &[u8],
    minor: u8,
    fields: &Fields,
    noted: &Noted,
    host: &[u8],
) -> Result<HeadOrStatus, OutOfMemory>
    requires noted { AreNoted (fields_of fields.now) noted.now }
    requires host { host.now ≡ host_of (values_of (codes "host") (fields_of fields.now)) }
    requires method { length method.now ≤ head_limit }
    requires target { length target.now ≤ head_limit }
    ensures { IfOk result (λ answer.
        IsTargeted method.now target.now minor (fields_of fields.now) (seen_answer answer)) }
{
    let Some(target) = target_of(alloc, method, target)? else {
        return Ok(Err(400));
    };
    let connection = fields.connection(alloc, noted.connection);
    let list = request_list(alloc, method, &target, host, fields, &connection);
    listed(alloc, list, target.form, minor, fields, noted, &connection)
}

/// A head by what its target gives.
fn targeted(
    alloc: Global,
    method: &[u8],
    target: &[u8],
    minor: u8,
    fields: &Fields,
    noted: &Noted,
    host: &[u8],
) -> Result<HeadOrStatus, OutOfMemory>
    requires noted { AreNoted (fields_of fields.now) noted.now }
    requires host { host.now ≡ host_of (values_of (codes "host") (fields_of fields.now)) }
    requires visible { list_all is_visible host.now ≡ true }
    requires method { length method.now ≤ head_limit }
    requires target { length target.now ≤ head_limit }
    ensures { IfOk result (λ answer.
        IsTargeted method.now target.now minor (fields_of fields.now) (seen_answer answer)) }
{
    if begins_with(target, b'/') {
        path_targeted(alloc, method, target, minor, fields, noted, host)
    } else {
        parts_targeted(alloc, method, target, minor, fields, noted, host)
    }
}

/// What a gateway makes of a head of these parts.
fn judged(
    alloc: Global,
    method: &[u8],
    target: &[u8],
    minor: u8,
    fields: &Fields,
) -> Result<HeadOrStatus, OutOfMemory>
    requires method { length method.now ≤ head_limit }
    requires target { length target.now ≤ head_limit }
    ensures { IfOk result (λ answer.
        IsJudged method.now target.now minor (fields_of fields.now) (seen_answer answer)) }
{
    if method == b"CONNECT".as_slice() {
        return Ok(Err(501));
    }
    let noted = fields.noted();
    match host_value(noted.host, minor) {
        Some(host) => targeted(alloc, method, target, minor, fields, &noted, host),
        None => Ok(Err(400)),
    }
}

/// The head that a text begins with, if it has one of at most so many fields as there are spans for.
fn spans_of(text: &[u8], headers: &mut [HeaderSpan]) -> Option<RequestSpans>
    requires { length text.now ≤ head_limit }
    ensures within { IfSome result (IsRequestWithin text.now headers.new) }
    ensures read { IfSome result (λ r. All (λ s. IsRead (header_bytes text.now s)) (take r.headers headers.new)) }
    ensures some { IfSome result (IsRequestOf text.now headers.new) }
    ensures none { IfNone result ((head : RequestHead) (rest : List ℕ) → ReadsRequest text.now head rest
        → length head.fields ≤ length headers.old → ⊥) }
{
    match parse_request(text, headers) {
        Ok(Status::Complete(head)) => Some(head),
        _ => None,
    }
}

/// What a request head gives that was found in the first `len` bytes of a text.
fn found_answer(
    alloc: Global,
    text: &[u8],
    len: usize,
    head: &RequestSpans,
    headers: &[HeaderSpan],
) -> Result<HeadOrStatus, OutOfMemory>
    requires fits { len ≤ length text.now }
    requires limit { len ≤ head_limit }
    requires cut { head_cut text.now ≡ whole len }
    requires filled { empty_line_bytes text.now ≡ 0 }
    requires within { IsRequestWithin (take len text.now) headers.now head.now }
    requires read { All (λ s. IsRead (header_bytes (take len text.now) s)) (take head.now.headers headers.now) }
    requires found { IsRequestOf (take len text.now) headers.now head.now }
    ensures { IfOk result (λ answer. IsAnswer (take len text.now) (seen_answer answer)) }
{
    let front = &text[..len];
    judged(
        alloc,
        head.method.of(front),
        head.path.of(front),
        head.version,
        &Fields {
            text: front,
            spans: &headers[..head.headers],
        },
    )
}

/// What the whole request head gives that takes the first `len` bytes of a text.
fn answer_of_many(alloc: Global, text: &[u8], len: usize) -> Result<HeadOrStatus, OutOfMemory>
    requires fits { len ≤ length text.now }
    requires limit { len ≤ head_limit }
    requires cut { head_cut text.now ≡ whole len }
    requires filled { empty_line_bytes text.now ≡ 0 }
    ensures { IfOk result (λ answer. IsAnswer (take len text.now) (seen_answer answer)) }
{
    let mut headers = [EMPTY_HEADER_SPAN; FIELD_LIMIT];
    match spans_of(&text[..len], &mut headers) {
        Some(head) => found_answer(alloc, text, len, &head, &headers),
        None => Ok(Err(400)),
    }
}

/// The same, looked for with room for few fields first: where it has more of them, or is none, with room for all.
fn answer_of_few(alloc: Global, text: &[u8], len: usize) -> Result<HeadOrStatus, OutOfMemory>
    requires fits { len ≤ length text.now }
    requires limit { len ≤ head_limit }
    requires cut { head_cut text.now ≡ whole len }
    requires filled { empty_line_bytes text.now ≡ 0 }
    ensures { IfOk result (λ answer. IsAnswer (take len text.now) (seen_answer answer)) }
{
    let mut headers = [EMPTY_HEADER_SPAN; FEW_FIELDS];
    match spans_of(&text[..len], &mut headers) {
        Some(head) => found_answer(alloc, text, len, &head, &headers),
        None => answer_of_many(alloc, text, len),
    }
}

/// What the whole request head gives that takes the first `len` bytes of a text. How many lines it has after its first says what room is made
/// for its fields.
pub fn request_answer(
    alloc: Global,
    text: &[u8],
    len: usize,
    lines: usize,
) -> Result<HeadOrStatus, OutOfMemory>
    requires fits { len ≤ length text.now }
    requires limit { len ≤ head_limit }
    requires cut { head_cut text.now ≡ whole len }
    requires filled { empty_line_bytes text.now ≡ 0 }
    ensures { IfOk result (λ answer. IsAnswer (take len text.now) (seen_answer answer)) }
{
    if lines <= FEW_FIELDS {
        answer_of_few(alloc, text, len)
    } else {
        answer_of_many(alloc, text, len)
    }
}
