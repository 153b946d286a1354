//! Numbers in the binary format (WebAssembly Core 1.0 section 5.2.2).

ghost use Rattle.std.specs.Prelude.{◌≡◌, pos, ◌≤◌, ◌<◌, ◌^◌, ◌+◌, ◌*◌, length, drop, slice_range, ℕ, ℤ, IfOk, IsErrOf, Ok, ◌↔◌};
ghost use Rattle.std.specs.Bool.{OnTrue, OnFalse};
ghost use Rattle.wasm_syntax.specs.Numbers.{unsigned_at, signed_at, signed_last, u32_at, s32_at, s64_at, placed, IsWithin, IsOfSize, IsUnsigned, IsSigned, EndsEarly, PassesMost, SetsUnusedBits, SetsBeyond, SetsBeyondSign};

/// Why no number stands at a place.
#[derive(Clone, Copy, Debug, PartialEq, Eq)]
pub enum LebEnd {
    /// The input ends before the number's last byte.
    Truncated,
    /// The last byte that the number may have says that another follows.
    TooLong,
    /// A bit past the number's size is set.
    UnusedBits,
}

/// An unsigned number that may have `more` bytes behind its first, and the place behind it.
fn unsigned(b: &[u8], at: usize, more: u32) -> Result<(u32, usize), LebEnd>
    requires within { at ≤ length b.now }
    requires size { more ≤ 4 }
    ensures exact { result ≡ placed (length b.now) (unsigned_at 16 more (drop at b.now)) }
    ensures fits { IfOk result (λ x. x.0 < 16 * 128 ^ more) }
{
    if at == b.len() {
        return Err(LebEnd::Truncated);
    }
    let byte = b[at];
    if byte < 128 {
        if more == 0 && byte >= 16 {
            return Err(LebEnd::UnusedBits);
        }
        return Ok((u32::from(byte), at + 1));
    }
    if more == 0 {
        return Err(LebEnd::TooLong);
    }
    let (high, place) = unsigned(b, at + 1, more - 1)?;
    Ok((u32::from(byte - 128) + 128 * high, place))
}

/// What the last byte of a signed number stands for: its bit 6 is the sign.
fn last_value(byte: u8) -> i64
    requires { byte < 128 }
    ensures { result ≡ signed_last byte }
{
    if byte < 64 {
        i64::from(byte)
    } else {
        i64::from(byte) - 128
    }
}

/// Whether a last byte below 128 stands for a number of the size: where more bytes may follow each
/// does, and else one from `-limit` on and below `limit`.
fn is_of_size(byte: u8, limit: u8, more: u32) -> bool
    requires { limit ≤ 64 }
    ensures yes { OnTrue result (more ≡ 0 → IsOfSize limit byte) }
    ensures no { OnFalse result ((more ≡ 0) × (limit ≤ byte) × (byte + limit < 128)) }
{
    more > 0 || byte < limit || byte >= 128 - limit
}

/// A signed number that may have `more` bytes behind its first, and the place behind it. The last
/// of these may stand for a number from `-limit` on and below `limit`.
fn signed(b: &[u8], at: usize, limit: u8, more: u32) -> Result<(i64, usize), LebEnd>
    requires within { at ≤ length b.now }
    requires some { 1 ≤ limit }
    requires low { limit ≤ 64 }
    requires size { limit * 128 ^ more ≤ 2 ^ 63 }
    ensures exact { result ≡ placed (length b.now) (signed_at limit more (drop at b.now)) }
    ensures fits { IfOk result (λ x. IsWithin (limit * 128 ^ more) x.0) }
{
    if at == b.len() {
        return Err(LebEnd::Truncated);
    }
    let byte = b[at];
    if byte < 128 {
        if !is_of_size(byte, limit, more) {
            return Err(LebEnd::UnusedBits);
        }
        return Ok((last_value(byte), at + 1));
    }
    if more == 0 {
        return Err(LebEnd::TooLong);
    }
    let (high, place) = signed(b, at + 1, limit, more - 1)?;
    Ok((i64::from(byte - 128) + 128 * high, place))
}

/// The signed number of 32 bits at a place, and the place behind it.
fn signed_word(b: &[u8], at: usize) -> Result<(i32, usize), LebEnd>
    requires { at ≤ length b.now }
    ensures { result ≡ placed (length b.now) (s32_at (drop at b.now)) }
{
    let (number, place) = signed(b, at, 8, 4)?;
    Ok((number as i32, place))
}

/// The unsigned number of 32 bits at a place, and the place behind it.
pub fn read_u32(b: &[u8], at: usize) -> Result<(u32, usize), LebEnd>
    requires { at ≤ length b.now }
    // It is the number that the bytes up to the place behind it spell.
    ensures number { IfOk result (λ x. (x.1 ≤ length b.now) × IsUnsigned 32 (slice_range b.now at x.1) x.0) }
    // Where a spelling begins there it is read.
    ensures only { (n place : ℕ) → place ≤ length b.now → IsUnsigned 32 (slice_range b.now at place) n → result ≡ Ok (n, place) }

    // Each fault is the one that is there.
    ensures truncated { IsErrOf result LebEnd.Truncated ↔ EndsEarly 5 (drop at b.now) }
    ensures too_long { IsErrOf result LebEnd.TooLong ↔ PassesMost 5 (drop at b.now) }
    ensures unused_bits { IsErrOf result LebEnd.UnusedBits ↔ SetsUnusedBits 5 (SetsBeyond 16) (drop at b.now) }

    ensures exact { result ≡ placed (length b.now) (u32_at (drop at b.now)) }
    ensures rest { IfOk result (λ x. u32_at (drop at b.now) ≡ Ok (x.0, drop x.1 b.now)) }
{
    unsigned(b, at, 4)
}

/// The signed number of 32 bits at a place, and the place behind it.
pub fn read_s32(b: &[u8], at: usize) -> Result<(i32, usize), LebEnd>
    requires { at ≤ length b.now }
    // It is the number that the bytes up to the place behind it spell.
    ensures number { IfOk result (λ x. (x.1 ≤ length b.now) × IsSigned 32 (slice_range b.now at x.1) x.0) }
    // Where a spelling begins there it is read.
    ensures only { (n : ℤ) (place : ℕ) → place ≤ length b.now → IsSigned 32 (slice_range b.now at place) n → result ≡ Ok (n, place) }

    // Each fault is the one that is there.
    ensures truncated { IsErrOf result LebEnd.Truncated ↔ EndsEarly 5 (drop at b.now) }
    ensures too_long { IsErrOf result LebEnd.TooLong ↔ PassesMost 5 (drop at b.now) }
    ensures unused_bits { IsErrOf result LebEnd.UnusedBits ↔ SetsUnusedBits 5 (SetsBeyondSign 8) (drop at b.now) }

    ensures exact { result ≡ placed (length b.now) (s32_at (drop at b.now)) }
    ensures rest { IfOk result (λ x. s32_at (drop at b.now) ≡ Ok (x.0, drop x.1 b.now)) }
{
    signed_word(b, at)
}

/// The signed number of 64 bits at a place, and the place behind it.
pub fn read_s64(b: &[u8], at: usize) -> Result<(i64, usize), LebEnd>
    requires { at ≤ length b.now }
    // It is the number that the bytes up to the place behind it spell.
    ensures number { IfOk result (λ x. (x.1 ≤ length b.now) × IsSigned 64 (slice_range b.now at x.1) x.0) }
    // Where a spelling begins there it is read.
    ensures only { (n : ℤ) (place : ℕ) → place ≤ length b.now → IsSigned 64 (slice_range b.now at place) n → result ≡ Ok (n, place) }

    // Each fault is the one that is there.
    ensures truncated { IsErrOf result LebEnd.Truncated ↔ EndsEarly 10 (drop at b.now) }
    ensures too_long { IsErrOf result LebEnd.TooLong ↔ PassesMost 10 (drop at b.now) }
    ensures unused_bits { IsErrOf result LebEnd.UnusedBits ↔ SetsUnusedBits 10 (SetsBeyondSign 1) (drop at b.now) }

    ensures exact { result ≡ placed (length b.now) (s64_at (drop at b.now)) }
    ensures rest { IfOk result (λ x. s64_at (drop at b.now) ≡ Ok (x.0, drop x.1 b.now)) }
{
    signed(b, at, 1, 9)
}
