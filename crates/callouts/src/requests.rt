// What goes up for a callout.
ghost use Rattle.std.specs.Prelude.{◌≡◌, ◌++◌, false, filter, bytes_eq, codes, IfOk, OnOk, OnErr};
ghost use Rattle.http_header.specs.Token.{lowercase};
ghost use Rattle.h1_model.specs.Fields.{is_named};
ghost use Rattle.h1_model.specs.Framing.{head_wire, piece_wire, trailer_wire};
ghost use Rattle.h1_write.specs.Seen.{seen_framing};
ghost use Rattle.callouts.specs.Requests.{framing_of, head_of, trailers_of, request_wire};

use body_buffers::Body;
use contexts::Request;
use gate_base::{Octets, OutOfMemory};
use h1_head::{Item, push_field, push_fields};
use h1_write::{Framing, push_framing, push_start, push_trailers, write_item};
use header_maps::{HeaderList, Texts};
use std::alloc::Global;

/// How its body is framed: in chunks where trailers were given, else by its length where it has a body.
#[tactic(auto, using(crate::proofs::Framed::chunked, crate::proofs::Framed::lengthed, crate::proofs::Framed::bodiless))]
fn framing_of(call: &Request) -> Framing
    ensures { seen_framing result ≡ framing_of call.now }
{
    if call.trailers.len() > 0 {
        return Framing::Chunked;
    }
    let size = call.body.len();
    if size > 0 {
        return Framing::Length(size as u64);
    }
    Framing::Nothing
}

/// Puts the head at the end.
fn push_head(
    alloc: Global,
    out: &mut Octets,
    fields: &HeaderList,
    framing: Framing,
) -> Result<(), OutOfMemory>
    ensures { OnOk result (out.new ≡ out.old ++ head_wire (seen_framing framing) (head_of fields.now)) }
{
    push_start(out, fields)?;
    push_fields(alloc, out, fields.texts())?;
    push_framing(out, framing)?;
    push_field(out, b"connection", b"close")?;
    out.extend_from_slice(b"\r\n")?;
    Ok(())
}

/// Puts the body at the end, in one piece.
fn push_body(
    alloc: Global,
    out: &mut Octets,
    body: &Body,
    framing: Framing,
) -> Result<(), OutOfMemory>
    ensures { OnOk result (out.new ≡ out.old ++ piece_wire (seen_framing framing) body.now false) }
{
    let bytes = body.read(alloc, 0, body.len())?;
    write_item(alloc, out, &Item::Piece { bytes, end: false }, framing)
}

/// Whether a name, in any case of letters, is that of Connection.
fn is_connection(name: &[u8]) -> bool
    ensures { result ≡ bytes_eq (lowercase name.now) (codes "connection") }
{
    name.eq_ignore_ascii_case(b"connection")
}

/// Puts the Connection fields of a head behind others.
fn push_connection(texts: &mut Texts, fields: &HeaderList) -> Result<(), OutOfMemory>
    ensures { OnOk result (texts.new ≡ texts.old ++ filter (is_named (codes "connection")) fields.now.pairs) }
{
    for at in 0..fields.len() {
        let (name, value) = fields.pair(at);
        if is_connection(name) {
            texts.push(name, value)?;
        }
    }
    Ok(())
}

/// The trailers, and after them the Connection fields of the head: what these list goes out as no trailer.
fn trailer_texts(alloc: Global, call: &Request) -> Result<Texts, OutOfMemory>
    ensures { IfOk result (λ texts. texts ≡ trailers_of call.now) }
{
    let mut texts = call.trailers.texts().copy(alloc)?;
    push_connection(&mut texts, &call.fields)?;
    Ok(texts)
}

/// Puts the trailers at the end, which only chunks have room for.
fn push_last(
    alloc: Global,
    out: &mut Octets,
    call: &Request,
    framing: Framing,
) -> Result<(), OutOfMemory>
    ensures { OnOk result (out.new ≡ out.old ++ trailer_wire (seen_framing framing) (trailers_of call.now)) }
{
    match framing {
        Framing::Nothing | Framing::Length(_) | Framing::UntilClose => Ok(()),
        Framing::Chunked => {
            let texts = trailer_texts(alloc, call)?;
            push_trailers(alloc, out, &texts)
        }
    }
}

/// The bytes that go up for a callout: the head, the body in one piece, and the trailers.
pub fn request_bytes(alloc: Global, call: &Request) -> Result<Octets, OutOfMemory>
    ensures { IfOk result (λ bytes. bytes ≡ request_wire call.now) }
{
    let framing = framing_of(call);
    let mut out = Octets::new(alloc);
    push_head(alloc, &mut out, &call.fields, framing)?;
    push_body(alloc, &mut out, &call.body, framing)?;
    push_last(alloc, &mut out, call, framing)?;
    Ok(out)
}

/// Puts the bytes that go up for a callout at the end, all or none.
pub fn write_request(alloc: Global, out: &mut Octets, call: &Request) -> Result<(), OutOfMemory>
    ensures ok { OnOk result (out.new ≡ out.old ++ request_wire call.now) }
    ensures err { OnErr result (out.new ≡ out.old) }
{
    let bytes = request_bytes(alloc, call)?;
    out.extend_from_slice(bytes.as_slice())
}
