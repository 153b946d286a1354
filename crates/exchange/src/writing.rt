// Heads and trailers on their way out, written from the maps.
ghost use Rattle.std.specs.Prelude.{◌≡◌, ◌++◌, ◌∷◌, [], codes, bytes_eq, IfOk, OnOk};
ghost use Rattle.http_header.specs.Token.{lowercase};
ghost use Rattle.h1_model.specs.Framing.{no_body, head_wire, trailer_wire};
ghost use Rattle.h1_model.specs.LocalReply.{date_line, close_line};
ghost use Rattle.h1_model.specs.Wire.{version_text, field_lines, sent_fields};
ghost use Rattle.h1_write.specs.Seen.{seen_framing};
ghost use Rattle.exchange.specs.Heads.{sent_head, up_tail, down_tail, date_fields, close_fields, connection_fields, with_connection};

use gate_base::{Octets, OutOfMemory};
use h1_head::{push_field, push_fields};
use h1_write::{Framing, push_framing, push_start, push_trailers};
use header_maps::{HeaderList, Texts};
use local_reply::{has_date, moment_text};
use std::alloc::Global;

/// The version that was received, and the gateway's name.
fn via_value(minor: u8) -> &'static [u8]
    ensures { result.now ≡ version_text minor ++ codes " wasmgate" }
{
    if minor == 0 {
        b"1.0 wasmgate"
    } else {
        b"1.1 wasmgate"
    }
}

/// So many bytes there is room for at first where a head is written: most heads have fewer.
const HEAD_ROOM: usize = 1024;

/// The bytes of the head of a request on its way up, which was received with this minor version.
pub(crate) fn request_bytes(
    alloc: Global,
    fields: &HeaderList,
    framing: Framing,
    minor: u8,
) -> Result<Octets, OutOfMemory>
    ensures { IfOk result (λ bytes. bytes ≡ head_wire (seen_framing framing) (sent_head fields.now (up_tail minor))) }
{
    let mut out = Octets::from_vec(Vec::with_capacity(alloc, HEAD_ROOM)?);
    push_start(&mut out, fields)?;
    push_fields(alloc, &mut out, fields.texts())?;
    push_framing(&mut out, framing)?;
    push_field(&mut out, b"via", via_value(minor))?;
    push_field(&mut out, b"connection", b"close")?;
    out.extend_from_slice(b"\r\n")?;
    Ok(out)
}

/// Puts the moment at the end, where no date goes out among the fields.
fn push_date(out: &mut Octets, fields: &HeaderList, now: u64) -> Result<(), OutOfMemory>
    ensures { OnOk result (out.new ≡ out.old ++ field_lines (date_fields (sent_fields fields.now.pairs) now)) }
{
    if has_date(fields) {
        return Ok(());
    }
    push_field(out, b"date", &moment_text(now))
}

/// Puts `connection: close` at the end, where the line does not stay open.
fn push_close(out: &mut Octets, stays: bool) -> Result<(), OutOfMemory>
    ensures { OnOk result (out.new ≡ out.old ++ field_lines (close_fields stays)) }
{
    if stays {
        return Ok(());
    }
    push_field(out, b"connection", b"close")
}

/// The bytes of the head of a response on its way down.
#[tactic(auto, using(crate::proofs::Lengths::lines_join))]
pub(crate) fn response_bytes(
    alloc: Global,
    fields: &HeaderList,
    framing: Framing,
    stays: bool,
    now: u64,
) -> Result<Octets, OutOfMemory>
    ensures { IfOk result (λ bytes. bytes ≡ head_wire (seen_framing framing) (sent_head fields.now (down_tail stays now fields.now))) }
{
    let mut out = Octets::from_vec(Vec::with_capacity(alloc, HEAD_ROOM)?);
    push_start(&mut out, fields)?;
    push_fields(alloc, &mut out, fields.texts())?;
    push_framing(&mut out, framing)?;
    push_date(&mut out, fields, now)?;
    push_close(&mut out, stays)?;
    out.extend_from_slice(b"\r\n")?;
    Ok(out)
}

/// The bytes of an interim head, which says nothing of a body.
pub fn interim_bytes(alloc: Global, fields: &HeaderList) -> Result<Octets, OutOfMemory>
    ensures { IfOk result (λ bytes. bytes ≡ head_wire no_body (sent_head fields.now [])) }
{
    let mut out = Octets::new(alloc);
    push_start(&mut out, fields)?;
    push_fields(alloc, &mut out, fields.texts())?;
    out.extend_from_slice(b"\r\n")?;
    Ok(out)
}

/// Whether a name, in any case of letters, is that of Connection.
fn is_connection(name: &[u8]) -> bool
    ensures { result ≡ bytes_eq (lowercase name.now) (codes "connection") }
{
    name.eq_ignore_ascii_case(b"connection")
}

/// The Connection fields of a head as it goes out.
pub(crate) fn connection_fields(alloc: Global, head: &HeaderList) -> Result<Texts, OutOfMemory>
    ensures { IfOk result (λ texts. texts ≡ connection_fields head.now) }
{
    let mut texts = Texts::new(alloc);
    for at in 0..head.len() {
        let (name, value) = head.pair(at);
        if is_connection(name) {
            texts.push(name, value)?;
        }
    }
    Ok(texts)
}

/// The fields of trailers, and after them the Connection fields of their head.
fn with_connection(
    alloc: Global,
    connection: &Texts,
    trailers: &HeaderList,
) -> Result<Texts, OutOfMemory>
    ensures { IfOk result (λ texts. texts ≡ with_connection connection.now trailers.now.pairs) }
{
    let mut texts = trailers.texts().copy(alloc)?;
    for at in 0..connection.len() {
        let (name, value) = connection.pair(at);
        texts.push(name, value)?;
    }
    Ok(texts)
}

/// The bytes of trailers of a message that is framed so, after a head with these Connection fields.
pub(crate) fn trailer_bytes(
    alloc: Global,
    connection: &Texts,
    trailers: &HeaderList,
    framing: Framing,
) -> Result<Octets, OutOfMemory>
    ensures { IfOk result (λ bytes. bytes ≡ trailer_wire (seen_framing framing) (with_connection connection.now trailers.now.pairs)) }
{
    let mut out = Octets::new(alloc);
    match framing {
        Framing::Nothing | Framing::Length(_) | Framing::UntilClose => Ok(out),
        Framing::Chunked => {
            let fields = with_connection(alloc, connection, trailers)?;
            push_trailers(alloc, &mut out, &fields)?;
            Ok(out)
        }
    }
}
