//! The shortest spellings of numbers (WebAssembly Core 1.0 section 5.2.2).

ghost use Rattle.std.specs.Prelude.{◌≡◌, ◌≤◌, ◌++◌, take, OnOk, OnErr};
ghost use Rattle.wasm_syntax.specs.Numbers.{u32_bytes, s32_bytes, s64_bytes, is_small, low_bits, high_part, IsShortest, IsUnsigned, IsSigned, Appends};

use gate_base::{Octets, OutOfMemory};

/// The shortest spelling of a number, at the front of the bytes, and its length.
fn spell_unsigned(v: u32, bytes: &mut [u8; 5]) -> usize
    ensures length { result ≤ 5 }
    ensures spelled { take result bytes.new ≡ u32_bytes v }
{
    let mut rest = v;
    let mut len = 0;
    while rest >= 128 {
        bytes[len] = (128 + rest % 128) as u8;
        rest /= 128;
        len += 1;
    }
    bytes[len] = rest as u8;
    len + 1
}

/// From -64 on and below 64: one byte spells it.
fn fits_one_byte(v: i64) -> bool
    ensures { result ≡ is_small v }
{
    -64 <= v && v < 64
}

/// The low seven bits.
fn low_bits_of(v: i64) -> u8
    ensures { result ≡ low_bits v }
{
    v.rem_euclid(128) as u8
}

/// The number without its low seven bits.
fn high_part_of(v: i64) -> i64
    ensures { result ≡ high_part v }
{
    v.div_euclid(128)
}

/// The shortest spelling of a number, at the front of the bytes, and its length.
fn spell_signed(v: i64, bytes: &mut [u8; 10]) -> usize
    ensures length { result ≤ 10 }
    ensures spelled { take result bytes.new ≡ s64_bytes v }
{
    let mut rest = v;
    let mut len = 0;
    while !fits_one_byte(rest) {
        bytes[len] = 128 + low_bits_of(rest);
        rest = high_part_of(rest);
        len += 1;
    }
    bytes[len] = low_bits_of(rest);
    len + 1
}

/// Puts the shortest spelling of an unsigned number at the end.
pub fn write_u32(out: &mut Octets, v: u32) -> Result<(), OutOfMemory>
    ensures shortest { OnOk result (Appends (IsShortest (λ text. IsUnsigned 32 text v)) out.old out.new) }
    ensures exact { OnOk result (out.new ≡ out.old ++ u32_bytes v) }
    ensures err { OnErr result (out.new ≡ out.old) }
{
    let mut bytes = [0; 5];
    let len = spell_unsigned(v, &mut bytes);
    out.extend_from_slice(&bytes[..len])
}

/// Puts the shortest spelling of a signed number of 32 bits at the end.
pub fn write_s32(out: &mut Octets, v: i32) -> Result<(), OutOfMemory>
    ensures shortest { OnOk result (Appends (IsShortest (λ text. IsSigned 32 text v)) out.old out.new) }
    ensures exact { OnOk result (out.new ≡ out.old ++ s32_bytes v) }
    ensures err { OnErr result (out.new ≡ out.old) }
{
    let mut bytes = [0; 10];
    let len = spell_signed(i64::from(v), &mut bytes);
    out.extend_from_slice(&bytes[..len])
}

/// Puts the shortest spelling of a signed number of 64 bits at the end.
pub fn write_s64(out: &mut Octets, v: i64) -> Result<(), OutOfMemory>
    ensures shortest { OnOk result (Appends (IsShortest (λ text. IsSigned 64 text v)) out.old out.new) }
    ensures exact { OnOk result (out.new ≡ out.old ++ s64_bytes v) }
    ensures err { OnErr result (out.new ≡ out.old) }
{
    let mut bytes = [0; 10];
    let len = spell_signed(v, &mut bytes);
    out.extend_from_slice(&bytes[..len])
}
