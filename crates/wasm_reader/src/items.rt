//! The items that a module is made of. Each is read on the whole input, and then judged against the
//! end of its section or body.

ghost use Rattle.std.specs.Prelude.{◌≡◌, ◌≤◌, ◌<◌, ◌-◌, ◌+◌, length, drop, Result, OnOk, IfErr, IfOk};
ghost use Rattle.wasm_syntax.specs.declared.leb.LebEnd.{LebEnd as LebEnds};
ghost use Rattle.wasm_syntax.specs.Format.{and_then, fenced, bounded};
ghost use Rattle.wasm_syntax.specs.Items.{judged_as, byte_as, u32 as u32_format, s32 as s32_format, s64 as s64_format, agreed_u32, agrees, at_most};
ghost use Rattle.wasm_syntax.specs.Grammar.{value_type_of, block_type_of, flag_of, only, external_kind_of, prefixed_number as prefixed_format};
ghost use Rattle.wasm_reader.specs.Steps.{fence_of, AreWithin, Gives, Reads, IsInside, IsPast, numbered};

use crate::ends::{Bounds, ReadEnd};
use wasm_syntax::{
    BlockType, EXTERNAL_KINDS, ExternalKind, LebEnd, Prefixed, PrefixedNumber, ValueType,
    prefixed_at, read_s32, read_s64, read_u32,
};

/// The input ends inside an item.
pub(crate) const TRUNCATED: u8 = 2;
/// A number that is too long or sets bits past its size.
pub(crate) const BAD_INTEGER: u8 = 3;
/// A section that may not stand there, or counts that differ.
pub(crate) const BAD_SECTION: u8 = 4;
/// A byte that may not stand there.
pub(crate) const BAD_OPCODE: u8 = 5;
/// A byte of floating point.
pub(crate) const FLOAT: u8 = 6;
/// A name that is no UTF-8.
pub(crate) const BAD_NAME: u8 = 7;
/// A size that does not fit.
pub(crate) const SIZE_MISMATCH: u8 = 8;
/// A bound of the profile.
pub(crate) const OVER_LIMIT: u8 = 9;

/// That what stands before a place is inside its section or body.
pub(crate) fn check(place: usize, k: Bounds) -> Result<(), ReadEnd>
    ensures inside { OnOk result (IsInside place k) }
    ensures past { IfErr result (IsPast place k) }
{
    match k {
        Bounds::Ends { end, size } => {
            if place > end {
                return Err(ReadEnd::Refused {
                    number: SIZE_MISMATCH,
                    place: size,
                });
            }
            Ok(())
        }
        Bounds::Passes { .. } => Ok(()),
    }
}

/// A byte as what it says, or the row of its fault.

pub(crate) fn judged<T: Drop>(
    b: &[u8],
    at: usize,
    k: Bounds,
    said: Result<T, u8>,
) -> Result<(T, usize), ReadEnd>
    requires place { at < length b.now }
    requires bounds { AreWithin b.now k }
    ensures given { Gives b.now result (and_then (judged_as said (length b.now - at) (drop (at + 1) b.now)) (fenced (fence_of b.now k))) }
    ensures behind { IfOk result (λ x. x.1 ≡ at + 1) }
{
    match said {
        Ok(value) => {
            check(at + 1, k)?;
            Ok((value, at + 1))
        }
        Err(number) => Err(ReadEnd::Refused { number, place: at }),
    }
}

/// Where no byte is left an item is cut off.
pub(crate) fn cut_off(b: &[u8]) -> ReadEnd
    ensures { result ≡ ReadEnd.Refused TRUNCATED (length b.now) }
{
    ReadEnd::Refused {
        number: TRUNCATED,
        place: b.len(),
    }
}

/// A byte that can only be this one.
fn only_byte(wanted: u8, byte: u8) -> Result<u8, u8>
    ensures { result ≡ only wanted byte }
{
    if byte == wanted {
        Ok(byte)
    } else {
        Err(BAD_OPCODE)
    }
}

/// Reads a byte that can only be this one.
pub(crate) fn exactly(b: &[u8], at: usize, k: Bounds, wanted: u8) -> Result<(u8, usize), ReadEnd>
    requires place { at ≤ length b.now }
    requires bounds { AreWithin b.now k }
    ensures { Reads (byte_as (only wanted)) b.now at k result }
{
    if at == b.len() {
        return Err(cut_off(b));
    }
    judged(b, at, k, only_byte(wanted, b[at]))
}

/// What a byte says as the type of a value.
fn value_type_at(byte: u8) -> Result<ValueType, u8>
    ensures { result ≡ value_type_of byte }
{
    match byte {
        0x7F => Ok(ValueType::I32),
        0x7E => Ok(ValueType::I64),
        0x7D | 0x7C => Err(FLOAT),
        _ => Err(BAD_OPCODE),
    }
}

/// Reads the type of a value.
pub(crate) fn value_type(b: &[u8], at: usize, k: Bounds) -> Result<(ValueType, usize), ReadEnd>
    requires place { at ≤ length b.now }
    requires bounds { AreWithin b.now k }
    ensures { Reads (byte_as value_type_of) b.now at k result }
{
    if at == b.len() {
        return Err(cut_off(b));
    }
    judged(b, at, k, value_type_at(b[at]))
}

/// What a byte says as the type of a block.
fn block_type_at(byte: u8) -> Result<BlockType, u8>
    ensures { result ≡ block_type_of byte }
{
    match byte {
        0x40 => Ok(BlockType::Empty),
        0x7F => Ok(BlockType::Value(ValueType::I32)),
        0x7E => Ok(BlockType::Value(ValueType::I64)),
        0x7D | 0x7C => Err(FLOAT),
        _ => Err(BAD_OPCODE),
    }
}

/// Reads the type of a block.
pub(crate) fn block_type(b: &[u8], at: usize, k: Bounds) -> Result<(BlockType, usize), ReadEnd>
    requires place { at ≤ length b.now }
    requires bounds { AreWithin b.now k }
    ensures { Reads (byte_as block_type_of) b.now at k result }
{
    if at == b.len() {
        return Err(cut_off(b));
    }
    judged(b, at, k, block_type_at(b[at]))
}

/// What a byte says as a flag.
fn flag_at(byte: u8) -> Result<bool, u8>
    ensures { result ≡ flag_of byte }
{
    match byte {
        0 => Ok(false),
        1 => Ok(true),
        _ => Err(BAD_OPCODE),
    }
}

/// Reads a flag.
pub(crate) fn flag(b: &[u8], at: usize, k: Bounds) -> Result<(bool, usize), ReadEnd>
    requires place { at ≤ length b.now }
    requires bounds { AreWithin b.now k }
    ensures { Reads (byte_as flag_of) b.now at k result }
{
    if at == b.len() {
        return Err(cut_off(b));
    }
    judged(b, at, k, flag_at(b[at]))
}

/// What a byte says as the kind of an import or export.
fn external_kind_at(byte: u8) -> Result<ExternalKind, u8>
    ensures { result ≡ external_kind_of byte }
{
    if (byte as usize) < EXTERNAL_KINDS.len() {
        Ok(EXTERNAL_KINDS[byte as usize])
    } else {
        Err(BAD_OPCODE)
    }
}

/// Reads the kind of an import or export.
pub(crate) fn external_kind(
    b: &[u8],
    at: usize,
    k: Bounds,
) -> Result<(ExternalKind, usize), ReadEnd>
    requires place { at ≤ length b.now }
    requires bounds { AreWithin b.now k }
    ensures { Reads (byte_as external_kind_of) b.now at k result }
{
    if at == b.len() {
        return Err(cut_off(b));
    }
    judged(b, at, k, external_kind_at(b[at]))
}

/// A number that was read, before it is judged against the end.
fn number<T: Drop>(
    b: &[u8],
    at: usize,
    read: Result<(T, usize), LebEnd>,
) -> Result<(T, usize), ReadEnd>
    requires place { at ≤ length b.now }
    requires behind { IfOk read (λ x. x.1 ≤ length b.now) }
    ensures { Gives b.now result (numbered b.now at read) }
{
    match read {
        Ok((value, place)) => Ok((value, place)),
        Err(LebEnd::Truncated) => Err(cut_off(b)),
        Err(LebEnd::TooLong | LebEnd::UnusedBits) => Err(ReadEnd::Refused {
            number: BAD_INTEGER,
            place: at,
        }),
    }
}

/// Reads an unsigned number.
pub(crate) fn index(b: &[u8], at: usize, k: Bounds) -> Result<(u32, usize), ReadEnd>
    requires place { at ≤ length b.now }
    requires bounds { AreWithin b.now k }
    ensures { Reads u32_format b.now at k result }
{
    let (value, place) = number(b, at, read_u32(b, at))?;
    check(place, k)?;
    Ok((value, place))
}

/// Reads a signed number of 32 bits.
pub(crate) fn word(b: &[u8], at: usize, k: Bounds) -> Result<(i32, usize), ReadEnd>
    requires place { at ≤ length b.now }
    requires bounds { AreWithin b.now k }
    ensures { Reads s32_format b.now at k result }
{
    let (value, place) = number(b, at, read_s32(b, at))?;
    check(place, k)?;
    Ok((value, place))
}

/// Reads a signed number of 64 bits.
pub(crate) fn long(b: &[u8], at: usize, k: Bounds) -> Result<(i64, usize), ReadEnd>
    requires place { at ≤ length b.now }
    requires bounds { AreWithin b.now k }
    ensures { Reads s64_format b.now at k result }
{
    let (value, place) = number(b, at, read_s64(b, at))?;
    check(place, k)?;
    Ok((value, place))
}

/// Reads a count, of which there is a greatest.
pub(crate) fn count(b: &[u8], at: usize, k: Bounds, most: u32) -> Result<(u32, usize), ReadEnd>
    requires place { at ≤ length b.now }
    requires bounds { AreWithin b.now k }
    ensures { Reads (bounded (at_most most) u32_format) b.now at k result }
{
    let (n, place) = index(b, at, k)?;
    if n > most {
        return Err(ReadEnd::Refused {
            number: OVER_LIMIT,
            place: at,
        });
    }
    Ok((n, place))
}

/// Whether a count is the one that was declared, if one was.
fn is_agreed(declared: Option<usize>, n: u32) -> bool
    ensures { result ≡ agrees declared n }
{
    match declared {
        Some(declared) => n as usize == declared,
        None => true,
    }
}

/// Reads the count of the codes, which is that of the functions.
pub(crate) fn code_count(
    b: &[u8],
    at: usize,
    k: Bounds,
    declared: Option<usize>,
) -> Result<(u32, usize), ReadEnd>
    requires place { at ≤ length b.now }
    requires bounds { AreWithin b.now k }
    ensures { Reads (bounded (at_most 65536) (agreed_u32 declared)) b.now at k result }
{
    let (n, place) = number(b, at, read_u32(b, at))?;
    if !is_agreed(declared, n) {
        return Err(ReadEnd::Refused {
            number: BAD_SECTION,
            place: at,
        });
    }
    check(place, k)?;
    if n > 65536 {
        return Err(ReadEnd::Refused {
            number: OVER_LIMIT,
            place: at,
        });
    }
    Ok((n, place))
}

/// Reads the number behind the byte 0xFC. One of floating point is at fault at that byte.
pub(crate) fn prefixed_number(b: &[u8], at: usize, k: Bounds) -> Result<(Prefixed, usize), ReadEnd>
    requires place { at ≤ length b.now }
    requires behind { 0 < at }
    requires bounds { AreWithin b.now k }
    ensures { Reads prefixed_format b.now at k result }
{
    let (n, place) = number(b, at, read_u32(b, at))?;
    match prefixed_at(n) {
        PrefixedNumber::Known(which) => {
            check(place, k)?;
            Ok((which, place))
        }
        PrefixedNumber::Float => Err(ReadEnd::Refused {
            number: FLOAT,
            place: at - 1,
        }),
        PrefixedNumber::Unknown => Err(ReadEnd::Refused {
            number: BAD_OPCODE,
            place: at,
        }),
    }
}
