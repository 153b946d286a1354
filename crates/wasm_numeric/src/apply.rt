//! The operators on values.

ghost use Rattle.std.specs.Prelude.{◌≡◌};
ghost use Rattle.wasm_syntax.specs.declared.types.ValueType.TheVariants.{I32, I64};
ghost use Rattle.std.specs.Int.{w8, w16, w32};
ghost use Rattle.wasm_syntax.specs.Operators.{extend_s, extend_low};
ghost use Rattle.wasm_numeric.specs.Applied.{type_of, number_of, truth as truth_of, Takes1, value1, Takes2, value2, made};

use crate::op::{NumTrap, Op1, Op2};
use crate::operator::Operator;
use crate::{narrow, wide};
use wasm_syntax::{Value, ValueType};

/// The value of an operator with one operand, which has the operator's type. It takes no memory.
pub fn apply1(op: Op1, a: Value) -> Value
    requires { Takes1 op a }
    ensures { result ≡ value1 op a }
{
    match op {
        Op1::I32Eqz => truth(as_narrow(a) == 0),
        Op1::I64Eqz => truth(as_wide(a) == 0),
        Op1::I32Clz => Value::I32(as_narrow(a).leading_zeros()),
        Op1::I32Ctz => Value::I32(as_narrow(a).trailing_zeros()),
        Op1::I32Popcnt => Value::I32(as_narrow(a).count_ones()),
        Op1::I64Clz => Value::I64(as_wide(a).leading_zeros() as u64),
        Op1::I64Ctz => Value::I64(as_wide(a).trailing_zeros() as u64),
        Op1::I64Popcnt => Value::I64(as_wide(a).count_ones() as u64),
        Op1::I32WrapI64 => Value::I32((as_wide(a) % 0x1_0000_0000) as u32),
        Op1::I64ExtendI32S => Value::I64(extend_signed(as_narrow(a))),
        Op1::I64ExtendI32U => Value::I64(as_narrow(a) as u64),
        Op1::I32Extend8S => Value::I32(extend_low_8(as_narrow(a))),
        Op1::I32Extend16S => Value::I32(extend_low_16(as_narrow(a))),
        Op1::I64Extend8S => Value::I64(extend_long_8(as_wide(a))),
        Op1::I64Extend16S => Value::I64(extend_long_16(as_wide(a))),
        Op1::I64Extend32S => Value::I64(extend_long_32(as_wide(a))),
    }
}

/// The value of an operator with two operands, which have the operator's type: Divide exactly for a
/// zero divisor, Overflow exactly where a signed division has the least number by -1. It takes no
/// memory.
#[inline(always)]
pub fn apply2(op: Op2, a: Value, b: Value) -> Result<Value, NumTrap>
    requires { Takes2 op a b }
    ensures { result ≡ value2 op a b }
{
    let (of, operator) = op.parts();
    match of {
        ValueType::I32 => on_narrow(operator, as_narrow(a), as_narrow(b)),
        ValueType::I64 => on_wide(operator, as_wide(a), as_wide(b)),
    }
}

/// The same of 32 bits.
fn on_narrow(operator: Operator, x: u32, y: u32) -> Result<Value, NumTrap>
    ensures { result ≡ made I32 operator x y }
{
    match operator {
        Operator::Relation(r) => Ok(truth(narrow::compare(r, x, y))),
        Operator::Arithmetic(o) => Ok(Value::I32(narrow::calculate(o, x, y)?)),
        Operator::Bitwise(o) => Ok(Value::I32(narrow::combine(o, x, y))),
        Operator::Shift(o) => Ok(Value::I32(narrow::shift(o, x, y))),
    }
}

/// The same of 64 bits.
fn on_wide(operator: Operator, x: u64, y: u64) -> Result<Value, NumTrap>
    ensures { result ≡ made I64 operator x y }
{
    match operator {
        Operator::Relation(r) => Ok(truth(wide::compare(r, x, y))),
        Operator::Arithmetic(o) => Ok(Value::I64(wide::calculate(o, x, y)?)),
        Operator::Bitwise(o) => Ok(Value::I64(wide::combine(o, x, y))),
        Operator::Shift(o) => Ok(Value::I64(wide::shift(o, x, y))),
    }
}

/// 1 or 0.
fn truth(holds: bool) -> Value
    ensures { result ≡ truth_of holds }
{
    Value::I32(holds as u32)
}

/// The number of 64 bits with the same signed reading.
fn extend_signed(x: u32) -> u64
    ensures { result ≡ extend_s x }
{
    (x.cast_signed() as i64).cast_unsigned()
}

/// The number of 32 bits with the signed reading of the lowest 8.
fn extend_low_8(x: u32) -> u32
    ensures { result ≡ extend_low I32 w8 x }
{
    let low = (x % 0x100) as u8;
    (low.cast_signed() as i32).cast_unsigned()
}

/// The number of 32 bits with the signed reading of the lowest 16.
fn extend_low_16(x: u32) -> u32
    ensures { result ≡ extend_low I32 w16 x }
{
    let low = (x % 0x1_0000) as u16;
    (low.cast_signed() as i32).cast_unsigned()
}

/// The number of 64 bits with the signed reading of the lowest 8.
fn extend_long_8(x: u64) -> u64
    ensures { result ≡ extend_low I64 w8 x }
{
    let low = (x % 0x100) as u8;
    (low.cast_signed() as i64).cast_unsigned()
}

/// The number of 64 bits with the signed reading of the lowest 16.
fn extend_long_16(x: u64) -> u64
    ensures { result ≡ extend_low I64 w16 x }
{
    let low = (x % 0x1_0000) as u16;
    (low.cast_signed() as i64).cast_unsigned()
}

/// The number of 64 bits with the signed reading of the lowest 32.
fn extend_long_32(x: u64) -> u64
    ensures { result ≡ extend_low I64 w32 x }
{
    let low = (x % 0x1_0000_0000) as u32;
    (low.cast_signed() as i64).cast_unsigned()
}

/// The bits of a value of 32 bits.
fn as_narrow(a: Value) -> u32
    requires { type_of a ≡ I32 }
    ensures { result ≡ number_of a }
{
    match a {
        Value::I32(n) => n,
        Value::I64(_) => unreachable!(),
    }
}

/// The bits of a value of 64 bits.
fn as_wide(a: Value) -> u64
    requires { type_of a ≡ I64 }
    ensures { result ≡ number_of a }
{
    match a {
        Value::I32(_) => unreachable!(),
        Value::I64(n) => n,
    }
}
