// The bytes of a body, and of its trailers.
ghost use Rattle.std.specs.Prelude.{◌≡◌, ◌++◌, ◌<◌, IfOk, OnOk};
ghost use Rattle.h1_model.specs.ChunkWire.{hex_text, chunk_of, body_end};
ghost use Rattle.h1_model.specs.Framing.{end_wire};
ghost use Rattle.h1_model.specs.Wire.{sent_fields};

use gate_base::{Octets, OutOfMemory};
use h1_head::push_fields;
use header_maps::{HeaderList, Texts};
use std::alloc::Global;

/// How many bytes stand round the bytes of a piece, at most: 16 digits and two line ends, and the last chunk.
const ROOM: usize = 25;

/// Puts a size above 0 at the end, in hexadecimal digits of lower case and without leading zeros.
#[tactic(auto, using(crate::proofs::Sizes::hex_is_digits))]
fn push_size(alloc: Global, out: &mut Octets, size: usize) -> Result<(), OutOfMemory>
    requires { 0 < size }
    ensures { OnOk result (out.new ≡ out.old ++ hex_text size) }
{
    let text = format!(in alloc; "{size:x}")?;
    out.extend_from_slice(text.as_bytes())
}

/// Puts one chunk of these bytes at the end, and none where there are no bytes, since a chunk of size 0 would end the body
/// (RFC 9112 section 7.1).
fn push_chunk(alloc: Global, out: &mut Octets, bytes: &[u8]) -> Result<(), OutOfMemory>
    ensures { OnOk result (out.new ≡ out.old ++ chunk_of bytes.now) }
{
    if bytes.is_empty() {
        return Ok(());
    }
    push_size(alloc, out, bytes.len())?;
    out.extend_from_slice(b"\r\n")?;
    out.extend_from_slice(bytes)?;
    out.extend_from_slice(b"\r\n")
}

/// Puts the end of a body without trailers at the end, where the body ends here.
fn push_end(out: &mut Octets, end: bool) -> Result<(), OutOfMemory>
    ensures { OnOk result (out.new ≡ out.old ++ end_wire end) }
{
    if end {
        out.extend_from_slice(b"0\r\n\r\n")?;
    }
    Ok(())
}

/// The bytes of a piece of a chunked body: one chunk or none, and the last chunk where the body ends with the piece.
pub fn chunk_bytes(alloc: Global, bytes: &[u8], end: bool) -> Result<Octets, OutOfMemory>
    ensures { IfOk result (λ wire. wire ≡ chunk_of bytes.now ++ end_wire end) }
{
    let mut out = Octets::from_vec(Vec::with_capacity(alloc, bytes.len() + ROOM)?);
    push_chunk(alloc, &mut out, bytes)?;
    push_end(&mut out, end)?;
    Ok(out)
}

/// Puts the end of a chunked body with trailers at the end: the last chunk, those of these fields that go out, and the empty line
/// (RFC 9112 section 7.1.2). Where memory is out, a front of it may stand there.
pub fn push_trailers(alloc: Global, out: &mut Octets, fields: &Texts) -> Result<(), OutOfMemory>
    ensures { OnOk result (out.new ≡ out.old ++ body_end (sent_fields fields.now)) }
{
    out.extend_from_slice(b"0\r\n")?;
    push_fields(alloc, out, fields)?;
    out.extend_from_slice(b"\r\n")
}

/// The bytes of the trailers of a chunked body.
pub fn trailer_bytes(alloc: Global, fields: &HeaderList) -> Result<Octets, OutOfMemory>
    ensures { IfOk result (λ wire. wire ≡ body_end (sent_fields fields.now.pairs)) }
{
    let mut out = Octets::new(alloc);
    push_trailers(alloc, &mut out, fields.texts())?;
    Ok(out)
}
