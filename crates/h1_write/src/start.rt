// What stands round the fields of a head on its way out.
ghost use Rattle.std.specs.Prelude.{◌≡◌, ◌++◌, OnOk};
ghost use Rattle.h1_model.specs.Framing.{framing_line, response_line, start_lines};
ghost use Rattle.h1_head.specs.Seen.{bare_head};
ghost use Rattle.h1_write.specs.Seen.{seen_framing};

use crate::framing::Framing;
use gate_base::{Octets, OutOfMemory};
use h1_head::{pseudo_of, push_field, push_request_line};
use header_maps::{HeaderList, ListKind};
use itoa::Buffer;

/// Puts the status line at the end; its reason is empty (RFC 9112 section 4).
fn push_response_line(out: &mut Octets, fields: &HeaderList) -> Result<(), OutOfMemory>
    ensures { OnOk result (out.new ≡ out.old ++ response_line fields.now) }
{
    out.extend_from_slice(b"HTTP/1.1 ")?;
    out.extend_from_slice(pseudo_of(fields, b":status"))?;
    out.extend_from_slice(b" ")?;
    out.extend_from_slice(b"\r\n")
}

/// Puts the request line and `host` at the end (RFC 9112 section 3).
fn push_request_lines(out: &mut Octets, fields: &HeaderList) -> Result<(), OutOfMemory>
    ensures { OnOk result (out.new ≡ out.old ++ start_lines (bare_head fields.now) ListKind.Request) }
{
    push_request_line(out, fields)?;
    push_field(out, b"host", pseudo_of(fields, b":authority"))
}

/// Puts what stands in front of the fields at the end: the request line and `host`, or the status line, by the list's kind (RFC 9112
/// sections 3 and 4). Where memory is out, a front of it may stand there.
pub fn push_start(out: &mut Octets, fields: &HeaderList) -> Result<(), OutOfMemory>
    ensures { OnOk result (out.new ≡ out.old ++ start_lines (bare_head fields.now) fields.now.kind) }
{
    match fields.kind() {
        ListKind::Request => push_request_lines(out, fields),
        ListKind::Response | ListKind::Interim => push_response_line(out, fields),
        ListKind::Plain => Ok(()),
    }
}

/// Puts the field that tells the framing at the end, where one does (RFC 9112 section 6). Where memory is out, a front of it may stand
/// there.
pub fn push_framing(out: &mut Octets, framing: Framing) -> Result<(), OutOfMemory>
    ensures { OnOk result (out.new ≡ out.old ++ framing_line (seen_framing framing)) }
{
    match framing {
        Framing::Nothing | Framing::UntilClose => Ok(()),
        Framing::Length(length) => {
            let mut digits = Buffer::new();
            push_field(out, b"content-length", digits.format(length).as_bytes())
        }
        Framing::Chunked => push_field(out, b"transfer-encoding", b"chunked"),
    }
}
