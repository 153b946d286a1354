//! Sections and bodies: a size, and content of that size.

ghost use Rattle.std.specs.Prelude.{◌≡◌, ◌≤◌, ◌-◌, length, drop, IfOk, IfErr, OnOk, true, false};
ghost use Rattle.wasm_syntax.specs.Items.{fence_at, crosses, sized as sized_format, sized_with_tail as sized_with_tail_format};
ghost use Rattle.wasm_syntax.specs.Grammar.{name as name_format};
ghost use Rattle.wasm_reader.specs.Steps.{fence_of, AreWithin, Reads, size_place, IsFull, IsNotFull};

use crate::ends::{Bounds, ReadEnd};
use crate::items::{SIZE_MISMATCH, cut_off, index};
use crate::rules::Rule;
use crate::types::name;
use gate_base::Text;
use std::alloc::Global;

/// Where a section or body that begins at a place ends.
pub(crate) fn bounds_from(b: &[u8], start: usize, n: u32, at: usize) -> Bounds
    requires start { start ≤ length b.now }
    requires place { at ≤ length b.now }
    ensures fence { fence_of b.now result ≡ fence_at n (length b.now - at) (drop start b.now) }
    ensures bounds { AreWithin b.now result }
{
    let n = n as usize;
    if b.len() - start < n {
        Bounds::Passes { size: at }
    } else {
        Bounds::Ends {
            end: start + n,
            size: at,
        }
    }
}

/// Whether a section or body passes the one that holds it, where that one's end is in the input.
pub(crate) fn passes(b: &[u8], start: usize, n: u32, k: Bounds) -> bool
    requires start { start ≤ length b.now }
    requires bounds { AreWithin b.now k }
    ensures { result ≡ crosses (fence_of b.now k) n (length b.now - start) }
{
    match k {
        Bounds::Ends { end, .. } => b.len() - start < b.len() - end + n as usize,
        Bounds::Passes { .. } => false,
    }
}

/// The place of the size.
pub(crate) fn size_of(k: Bounds) -> usize
    ensures { result ≡ size_place k }
{
    match k {
        Bounds::Ends { size, .. } => size,
        Bounds::Passes { size } => size,
    }
}

/// That the content fills its section or body.
pub(crate) fn leave(b: &[u8], place: usize, k: Bounds) -> Result<(), ReadEnd>
    ensures full { OnOk result (IsFull place k) }
    ensures not_full { IfErr result (IsNotFull b.now place k) }
{
    match k {
        Bounds::Ends { end, size } => {
            if place != end {
                return Err(ReadEnd::Refused {
                    number: SIZE_MISMATCH,
                    place: size,
                });
            }
            Ok(())
        }
        Bounds::Passes { .. } => Err(cut_off(b)),
    }
}

/// Reads a size, and content of that size.
pub(crate) fn sized<T: Drop, R: Rule<T>>(
    alloc: Global,
    b: &[u8],
    at: usize,
    k: Bounds,
) -> Result<(T, usize), ReadEnd>
    requires place { at ≤ length b.now }
    requires bounds { AreWithin b.now k }
    ensures { Reads (sized_format R.format) b.now at k result }
{
    let (n, start) = index(b, at, k)?;
    if passes(b, start, n, k) {
        return Err(ReadEnd::Refused {
            number: SIZE_MISMATCH,
            place: size_of(k),
        });
    }
    let inner = bounds_from(b, start, n, at);
    let (content, place) = R::read(alloc, b, start, inner)?;
    leave(b, place, inner)?;
    Ok((content, place))
}

/// Reads a custom section: a size, and of that size a name and then any bytes.
#[tactic(auto, using(crate::proofs::Drops::drop_to))]
pub(crate) fn custom(
    alloc: Global,
    b: &[u8],
    at: usize,
    k: Bounds,
) -> Result<(Text, usize), ReadEnd>
    requires place { at ≤ length b.now }
    requires bounds { AreWithin b.now k }
    ensures { Reads (sized_with_tail_format name_format) b.now at k result }
{
    let (n, start) = index(b, at, k)?;
    if passes(b, start, n, k) {
        return Err(ReadEnd::Refused {
            number: SIZE_MISMATCH,
            place: size_of(k),
        });
    }
    let inner = bounds_from(b, start, n, at);
    let (name, _place) = name(alloc, b, start, inner)?;
    match inner {
        Bounds::Ends { end, .. } => Ok((name, end)),
        Bounds::Passes { .. } => Err(cut_off(b)),
    }
}
