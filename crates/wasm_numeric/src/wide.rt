//! The operators with two operands on 64 bits.

ghost use Rattle.std.specs.Prelude.{◌≡◌};
ghost use Rattle.wasm_syntax.specs.declared.types.ValueType.TheVariants.{I64};
ghost use Rattle.wasm_syntax.specs.Operators.{idiv_s, irem_s, is_least_by_minus_one as is_least};
ghost use Rattle.wasm_numeric.specs.Applied.{related, calculated, combined, moved, or_trap};

use crate::op::NumTrap;
use crate::operator::{Arithmetic, Bitwise, Relation, Shift};

/// Whether the relation holds.
pub(crate) fn compare(r: Relation, x: u64, y: u64) -> bool
    ensures { result ≡ related r I64 x y }
{
    match r {
        Relation::Eq => x == y,
        Relation::Ne => x != y,
        Relation::LtS => x.cast_signed() < y.cast_signed(),
        Relation::LtU => x < y,
        Relation::GtS => x.cast_signed() > y.cast_signed(),
        Relation::GtU => x > y,
        Relation::LeS => x.cast_signed() <= y.cast_signed(),
        Relation::LeU => x <= y,
        Relation::GeS => x.cast_signed() >= y.cast_signed(),
        Relation::GeU => x >= y,
    }
}

/// The sum, difference, product, quotient or remainder.
pub(crate) fn calculate(o: Arithmetic, x: u64, y: u64) -> Result<u64, NumTrap>
    ensures { result ≡ or_trap (calculated o I64 x y) }
{
    match o {
        Arithmetic::Add => Ok(x.wrapping_add(y)),
        Arithmetic::Sub => Ok(x.wrapping_sub(y)),
        Arithmetic::Mul => Ok(x.wrapping_mul(y)),
        Arithmetic::DivS => divide_signed(x, y),
        Arithmetic::DivU if y == 0 => Err(NumTrap::Divide),
        Arithmetic::DivU => Ok(x / y),
        Arithmetic::RemS => remain_signed(x, y),
        Arithmetic::RemU if y == 0 => Err(NumTrap::Divide),
        Arithmetic::RemU => Ok(x % y),
    }
}

/// The quotient of the signed readings, rounded toward zero.
fn divide_signed(x: u64, y: u64) -> Result<u64, NumTrap>
    ensures { result ≡ or_trap (idiv_s I64 x y) }
{
    if y == 0 {
        Err(NumTrap::Divide)
    } else if is_least_by_minus_one(x, y) {
        Err(NumTrap::Overflow)
    } else {
        Ok(
            x.cast_signed()
                .wrapping_div(y.cast_signed())
                .cast_unsigned(),
        )
    }
}

/// Whether it is the least signed number by -1.
fn is_least_by_minus_one(x: u64, y: u64) -> bool
    ensures { result ≡ is_least I64 x y }
{
    x == 1 << 63 && y == u64::MAX
}

/// The remainder of the signed readings, with the dividend's sign.
fn remain_signed(x: u64, y: u64) -> Result<u64, NumTrap>
    ensures { result ≡ or_trap (irem_s I64 x y) }
{
    if y == 0 {
        Err(NumTrap::Divide)
    } else {
        Ok(
            x.cast_signed()
                .wrapping_rem(y.cast_signed())
                .cast_unsigned(),
        )
    }
}

/// The bits, combined one by one.
pub(crate) fn combine(o: Bitwise, x: u64, y: u64) -> u64
    ensures { result ≡ combined o x y }
{
    match o {
        Bitwise::And => x & y,
        Bitwise::Or => x | y,
        Bitwise::Xor => x ^ y,
    }
}

/// The bits, moved by as many places as `y` says modulo 64.
pub(crate) fn shift(o: Shift, x: u64, y: u64) -> u64
    ensures { result ≡ moved o I64 x y }
{
    let count = (y % 64) as u32;
    match o {
        Shift::Shl => x << count,
        Shift::ShrS => (x.cast_signed() >> count).cast_unsigned(),
        Shift::ShrU => x >> count,
        Shift::Rotl => x.rotate_left(count),
        Shift::Rotr => x.rotate_right(count),
    }
}
