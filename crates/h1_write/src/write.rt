// From an item to its bytes.
ghost use Rattle.std.specs.Prelude.{◌≡◌, ◌++◌, OnOk, OnErr};
ghost use Rattle.h1_model.specs.Framing.{head_wire, piece_wire, trailer_wire, item_wire};
ghost use Rattle.h1_head.specs.Seen.{seen_head};
ghost use Rattle.h1_write.specs.Seen.{seen_framing, seen_item};

use crate::body::{chunk_bytes, trailer_bytes};
use crate::framing::Framing;
use crate::head::head_bytes;
use gate_base::{Octets, OutOfMemory};
use h1_head::{Head, Item};
use header_maps::HeaderList;
use std::alloc::Global;

/// Puts the bytes of a head at the end, all or none.
fn write_head(
    alloc: Global,
    out: &mut Octets,
    head: &Head,
    framing: Framing,
) -> Result<(), OutOfMemory>
    ensures ok { OnOk result (out.new ≡ out.old ++ head_wire (seen_framing framing) (seen_head head.now)) }
    ensures err { OnErr result (out.new ≡ out.old) }
{
    let bytes = head_bytes(alloc, head, framing)?;
    out.extend_from_slice(bytes.as_slice())
}

/// Puts the bytes of a chunked piece at the end, all or none.
fn write_chunk(alloc: Global, out: &mut Octets, bytes: &[u8], end: bool) -> Result<(), OutOfMemory>
    ensures ok { OnOk result (out.new ≡ out.old ++ piece_wire (seen_framing Framing.Chunked) bytes.now end) }
    ensures err { OnErr result (out.new ≡ out.old) }
{
    let bytes = chunk_bytes(alloc, bytes, end)?;
    out.extend_from_slice(bytes.as_slice())
}

/// Puts bytes of a body at the end, as the framing has them: as a chunk, as they are, or not at all, where there is no body.
fn write_piece(
    alloc: Global,
    out: &mut Octets,
    bytes: &[u8],
    end: bool,
    framing: Framing,
) -> Result<(), OutOfMemory>
    ensures ok { OnOk result (out.new ≡ out.old ++ piece_wire (seen_framing framing) bytes.now end) }
    ensures err { OnErr result (out.new ≡ out.old) }
{
    match framing {
        Framing::Nothing => Ok(()),
        Framing::Chunked => write_chunk(alloc, out, bytes, end),
        Framing::Length(_) | Framing::UntilClose => out.extend_from_slice(bytes),
    }
}

/// Puts trailers at the end, which only chunks have room for.
fn write_trailers(
    alloc: Global,
    out: &mut Octets,
    fields: &HeaderList,
    framing: Framing,
) -> Result<(), OutOfMemory>
    ensures ok { OnOk result (out.new ≡ out.old ++ trailer_wire (seen_framing framing) fields.now.pairs) }
    ensures err { OnErr result (out.new ≡ out.old) }
{
    match framing {
        Framing::Chunked => {
            let bytes = trailer_bytes(alloc, fields)?;
            out.extend_from_slice(bytes.as_slice())
        }
        Framing::Nothing | Framing::Length(_) | Framing::UntilClose => Ok(()),
    }
}

/// Puts the bytes of an item of a message that is framed so at the end, all or none. A head has the first line of its list's
/// kind: a request line and `host`, or a status line. An interim head never has a framing field. Where the framing is `Nothing`,
/// neither bytes of a body nor trailers are written, and trailers are written in chunks alone (RFC 9112 sections 2 to 7).
pub fn write_item(
    alloc: Global,
    out: &mut Octets,
    item: &Item,
    framing: Framing,
) -> Result<(), OutOfMemory>
    ensures ok { OnOk result (out.new ≡ out.old ++ item_wire (seen_framing framing) (seen_item item.now)) }
    ensures err { OnErr result (out.new ≡ out.old) }
{
    match item {
        Item::Head { head, .. } => write_head(alloc, out, head, framing),
        Item::Interim { head } => write_head(alloc, out, head, Framing::Nothing),
        Item::Piece { bytes, end } => write_piece(alloc, out, bytes.as_slice(), *end, framing),
        Item::Trailers { fields } => write_trailers(alloc, out, fields, framing),
    }
}
