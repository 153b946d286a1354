//! The operators, one for each opcode.

ghost use Rattle.std.specs.Prelude.{◌≡◌};
ghost use Rattle.wasm_numeric.specs.Applied.{taken1, parts_of};

use crate::operator::{Arithmetic, Bitwise, Operator, Relation, Shift};
use wasm_syntax::ValueType;

/// Why an operator has no value.
#[derive(Clone, Copy, Debug, PartialEq, Eq)]
pub enum NumTrap {
    /// The divisor is 0.
    Divide,
    /// The least signed number is divided by -1.
    Overflow,
}

/// An operator with one operand (Core 1.0 section 5.4.5, opcodes from 0x45 on, and Core 2.0 section 5.4.7, from 0xC0 on).
#[derive(Clone, Copy, PartialEq, Eq)]
pub enum Op1 {
    I32Eqz,
    I64Eqz,
    I32Clz,
    I32Ctz,
    I32Popcnt,
    I64Clz,
    I64Ctz,
    I64Popcnt,
    I32WrapI64,
    I64ExtendI32S,
    I64ExtendI32U,
    I32Extend8S,
    I32Extend16S,
    I64Extend8S,
    I64Extend16S,
    I64Extend32S,
}

/// An operator with two operands (Core 1.0 section 5.4.5, opcodes from 0x46 on).
#[derive(Clone, Copy, PartialEq, Eq)]
pub enum Op2 {
    I32Eq,
    I32Ne,
    I32LtS,
    I32LtU,
    I32GtS,
    I32GtU,
    I32LeS,
    I32LeU,
    I32GeS,
    I32GeU,
    I64Eq,
    I64Ne,
    I64LtS,
    I64LtU,
    I64GtS,
    I64GtU,
    I64LeS,
    I64LeU,
    I64GeS,
    I64GeU,
    I32Add,
    I32Sub,
    I32Mul,
    I32DivS,
    I32DivU,
    I32RemS,
    I32RemU,
    I32And,
    I32Or,
    I32Xor,
    I32Shl,
    I32ShrS,
    I32ShrU,
    I32Rotl,
    I32Rotr,
    I64Add,
    I64Sub,
    I64Mul,
    I64DivS,
    I64DivU,
    I64RemS,
    I64RemU,
    I64And,
    I64Or,
    I64Xor,
    I64Shl,
    I64ShrS,
    I64ShrU,
    I64Rotl,
    I64Rotr,
}

impl Op1 {
    /// The type of its operand.
    pub fn operand(self) -> ValueType
        ensures { result ≡ taken1 self }
    {
        match self {
            Op1::I32Eqz => ValueType::I32,
            Op1::I64Eqz => ValueType::I64,
            Op1::I32Clz => ValueType::I32,
            Op1::I32Ctz => ValueType::I32,
            Op1::I32Popcnt => ValueType::I32,
            Op1::I64Clz => ValueType::I64,
            Op1::I64Ctz => ValueType::I64,
            Op1::I64Popcnt => ValueType::I64,
            Op1::I32WrapI64 => ValueType::I64,
            Op1::I64ExtendI32S => ValueType::I32,
            Op1::I64ExtendI32U => ValueType::I32,
            Op1::I32Extend8S => ValueType::I32,
            Op1::I32Extend16S => ValueType::I32,
            Op1::I64Extend8S => ValueType::I64,
            Op1::I64Extend16S => ValueType::I64,
            Op1::I64Extend32S => ValueType::I64,
        }
    }
}

impl Op2 {
    /// The type of its operands, and the operator without a size.
    pub fn parts(self) -> (ValueType, Operator)
        ensures { result ≡ parts_of self }
    {
        match self {
            Op2::I32Eq => (ValueType::I32, Operator::Relation(Relation::Eq)),
            Op2::I32Ne => (ValueType::I32, Operator::Relation(Relation::Ne)),
            Op2::I32LtS => (ValueType::I32, Operator::Relation(Relation::LtS)),
            Op2::I32LtU => (ValueType::I32, Operator::Relation(Relation::LtU)),
            Op2::I32GtS => (ValueType::I32, Operator::Relation(Relation::GtS)),
            Op2::I32GtU => (ValueType::I32, Operator::Relation(Relation::GtU)),
            Op2::I32LeS => (ValueType::I32, Operator::Relation(Relation::LeS)),
            Op2::I32LeU => (ValueType::I32, Operator::Relation(Relation::LeU)),
            Op2::I32GeS => (ValueType::I32, Operator::Relation(Relation::GeS)),
            Op2::I32GeU => (ValueType::I32, Operator::Relation(Relation::GeU)),
            Op2::I64Eq => (ValueType::I64, Operator::Relation(Relation::Eq)),
            Op2::I64Ne => (ValueType::I64, Operator::Relation(Relation::Ne)),
            Op2::I64LtS => (ValueType::I64, Operator::Relation(Relation::LtS)),
            Op2::I64LtU => (ValueType::I64, Operator::Relation(Relation::LtU)),
            Op2::I64GtS => (ValueType::I64, Operator::Relation(Relation::GtS)),
            Op2::I64GtU => (ValueType::I64, Operator::Relation(Relation::GtU)),
            Op2::I64LeS => (ValueType::I64, Operator::Relation(Relation::LeS)),
            Op2::I64LeU => (ValueType::I64, Operator::Relation(Relation::LeU)),
            Op2::I64GeS => (ValueType::I64, Operator::Relation(Relation::GeS)),
            Op2::I64GeU => (ValueType::I64, Operator::Relation(Relation::GeU)),
            Op2::I32Add => (ValueType::I32, Operator::Arithmetic(Arithmetic::Add)),
            Op2::I32Sub => (ValueType::I32, Operator::Arithmetic(Arithmetic::Sub)),
            Op2::I32Mul => (ValueType::I32, Operator::Arithmetic(Arithmetic::Mul)),
            Op2::I32DivS => (ValueType::I32, Operator::Arithmetic(Arithmetic::DivS)),
            Op2::I32DivU => (ValueType::I32, Operator::Arithmetic(Arithmetic::DivU)),
            Op2::I32RemS => (ValueType::I32, Operator::Arithmetic(Arithmetic::RemS)),
            Op2::I32RemU => (ValueType::I32, Operator::Arithmetic(Arithmetic::RemU)),
            Op2::I32And => (ValueType::I32, Operator::Bitwise(Bitwise::And)),
            Op2::I32Or => (ValueType::I32, Operator::Bitwise(Bitwise::Or)),
            Op2::I32Xor => (ValueType::I32, Operator::Bitwise(Bitwise::Xor)),
            Op2::I32Shl => (ValueType::I32, Operator::Shift(Shift::Shl)),
            Op2::I32ShrS => (ValueType::I32, Operator::Shift(Shift::ShrS)),
            Op2::I32ShrU => (ValueType::I32, Operator::Shift(Shift::ShrU)),
            Op2::I32Rotl => (ValueType::I32, Operator::Shift(Shift::Rotl)),
            Op2::I32Rotr => (ValueType::I32, Operator::Shift(Shift::Rotr)),
            Op2::I64Add => (ValueType::I64, Operator::Arithmetic(Arithmetic::Add)),
            Op2::I64Sub => (ValueType::I64, Operator::Arithmetic(Arithmetic::Sub)),
            Op2::I64Mul => (ValueType::I64, Operator::Arithmetic(Arithmetic::Mul)),
            Op2::I64DivS => (ValueType::I64, Operator::Arithmetic(Arithmetic::DivS)),
            Op2::I64DivU => (ValueType::I64, Operator::Arithmetic(Arithmetic::DivU)),
            Op2::I64RemS => (ValueType::I64, Operator::Arithmetic(Arithmetic::RemS)),
            Op2::I64RemU => (ValueType::I64, Operator::Arithmetic(Arithmetic::RemU)),
            Op2::I64And => (ValueType::I64, Operator::Bitwise(Bitwise::And)),
            Op2::I64Or => (ValueType::I64, Operator::Bitwise(Bitwise::Or)),
            Op2::I64Xor => (ValueType::I64, Operator::Bitwise(Bitwise::Xor)),
            Op2::I64Shl => (ValueType::I64, Operator::Shift(Shift::Shl)),
            Op2::I64ShrS => (ValueType::I64, Operator::Shift(Shift::ShrS)),
            Op2::I64ShrU => (ValueType::I64, Operator::Shift(Shift::ShrU)),
            Op2::I64Rotl => (ValueType::I64, Operator::Shift(Shift::Rotl)),
            Op2::I64Rotr => (ValueType::I64, Operator::Shift(Shift::Rotr)),
        }
    }
}
