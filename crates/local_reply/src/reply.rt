// The response.
ghost use Rattle.std.specs.Prelude.{◌≡◌, ◌≤◌, ◌<◌, ◌++◌, codes, IfOk, OnOk};
ghost use Rattle.httparse.specs.Ascii.{crlf_bytes};
ghost use Rattle.header_maps.specs.Judged.{status_text};
ghost use Rattle.h1_model.specs.Length.{is_without_body};
ghost use Rattle.h1_model.specs.LocalReply.{status_line, length_line, date_line, close_line, sent_body, local_reply_of};
ghost use Rattle.h1_model.specs.Wire.{sent_fields};

use crate::date::moment_text;
use crate::fields::has_date;
use gate_base::{Octets, OutOfMemory};
use h1_head::{push_field, push_fields};
use header_maps::HeaderList;
use itoa::Buffer;
use std::alloc::Global;

/// The three digits of a status.
fn status_text(status: u16) -> [u8; 3]
    requires { status < 1000 }
    ensures { result ≡ status_text status }
{
    [
        b'0' + (status / 100) as u8,
        b'0' + (status / 10 % 10) as u8,
        b'0' + (status % 10) as u8,
    ]
}

/// Whether a response of this status, to a HEAD request or to another, has no body (RFC 9112 section 6.3).
fn is_without_body(head_request: bool, status: u16) -> bool
    ensures { result ≡ is_without_body head_request status }
{
    head_request || status < 200 || status == 204 || status == 304
}

/// Puts a status line with this code at the end; its reason is empty (RFC 9112 section 4).
fn push_code(out: &mut Octets, code: &[u8]) -> Result<(), OutOfMemory>
    ensures { OnOk result (out.new ≡ out.old ++ (codes "HTTP/1.1 " ++ code.now ++ codes " " ++ crlf_bytes)) }
{
    out.extend_from_slice(b"HTTP/1.1 ")?;
    out.extend_from_slice(code)?;
    out.extend_from_slice(b" ")?;
    out.extend_from_slice(b"\r\n")
}

/// Puts the status line at the end.
fn push_status_line(out: &mut Octets, status: u16) -> Result<(), OutOfMemory>
    requires { status < 1000 }
    ensures { OnOk result (out.new ≡ out.old ++ status_line status) }
{
    push_code(out, &status_text(status))
}

/// Puts the length of the body at the end, where the status lets a response have one.
fn push_length(out: &mut Octets, status: u16, body: &[u8]) -> Result<(), OutOfMemory>
    ensures { OnOk result (out.new ≡ out.old ++ length_line status body.now) }
{
    if is_without_body(false, status) {
        return Ok(());
    }
    let mut digits = Buffer::new();
    push_field(out, b"content-length", digits.format(body.len()).as_bytes())
}

/// Puts the moment at the end, where no date goes out among the fields.
fn push_date(out: &mut Octets, fields: &HeaderList, now: u64) -> Result<(), OutOfMemory>
    ensures { OnOk result (out.new ≡ out.old ++ date_line (sent_fields fields.now.pairs) now) }
{
    if has_date(fields) {
        return Ok(());
    }
    push_field(out, b"date", &moment_text(now))
}

/// Puts `connection: close` at the end, where the line is closed after the response.
fn push_close(out: &mut Octets, closes: bool) -> Result<(), OutOfMemory>
    ensures { OnOk result (out.new ≡ out.old ++ close_line closes) }
{
    if closes {
        push_field(out, b"connection", b"close")?;
    }
    Ok(())
}

/// The part of the body that is sent: all of it, or nothing.
fn sent_body<'b>(status: u16, head_request: bool, body: &'b [u8]) -> &'b [u8]
    ensures { result.now ≡ sent_body status head_request body.now }
{
    if is_without_body(head_request, status) {
        &[]
    } else {
        body
    }
}

/// The bytes of a response that is answered without an upstream, at the moment `now` in nanoseconds since 1970: the status
/// line, the fields that go out in order, `content-length`, `date` where the fields have none, `connection: close` where the
/// line is closed after it, and the body. The status is from 200 to 599. A response to a HEAD request has no body; one of
/// status 204 or 304 has neither a body nor `content-length`.
pub fn local(
    alloc: Global,
    status: u16,
    fields: &HeaderList,
    body: &[u8],
    head_request: bool,
    closes: bool,
    now: u64,
) -> Result<Octets, OutOfMemory>
    requires least { 200 ≤ status }
    requires most { status ≤ 599 }
    ensures { IfOk result (λ bytes. bytes ≡ local_reply_of status fields.now.pairs body.now head_request closes now) }
{
    let mut out = Octets::new(alloc);
    push_status_line(&mut out, status)?;
    push_fields(alloc, &mut out, fields.texts())?;
    push_length(&mut out, status, body)?;
    push_date(&mut out, fields, now)?;
    push_close(&mut out, closes)?;
    out.extend_from_slice(b"\r\n")?;
    out.extend_from_slice(sent_body(status, head_request, body))?;
    Ok(out)
}
