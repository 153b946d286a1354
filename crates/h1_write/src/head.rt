// The bytes of a head.
ghost use Rattle.std.specs.Prelude.{◌≡◌, ◌++◌, IfOk, OnOk};
ghost use Rattle.h1_model.specs.Framing.{head_wire};
ghost use Rattle.h1_model.specs.Wire.{field_lines};
ghost use Rattle.h1_head.specs.Seen.{seen_head};
ghost use Rattle.h1_write.specs.Seen.{seen_framing};

use crate::framing::Framing;
use crate::start::{push_framing, push_start};
use gate_base::{Octets, OutOfMemory};
use h1_head::{Head, push_field, push_fields};
use header_maps::HeaderList;
use std::alloc::Global;

/// Puts the lines of all these fields at the end, in order.
fn push_tail(out: &mut Octets, fields: &HeaderList) -> Result<(), OutOfMemory>
    ensures { OnOk result (out.new ≡ out.old ++ field_lines fields.now.pairs) }
{
    for at in 0..fields.len() {
        let (name, value) = fields.pair(at);
        push_field(out, name, value)?;
    }
    Ok(())
}

/// The bytes of a head: what stands in front of its fields, the fields that go out in order, the framing field, the tail and the
/// empty line.
pub fn head_bytes(alloc: Global, head: &Head, framing: Framing) -> Result<Octets, OutOfMemory>
    ensures { IfOk result (λ bytes. bytes ≡ head_wire (seen_framing framing) (seen_head head.now)) }
{
    let mut out = Octets::new(alloc);
    push_start(&mut out, &head.fields)?;
    push_fields(alloc, &mut out, head.fields.texts())?;
    push_framing(&mut out, framing)?;
    push_tail(&mut out, &head.tail)?;
    out.extend_from_slice(b"\r\n")?;
    Ok(out)
}
