//! Which operator an instruction is.

ghost use Rattle.std.specs.Prelude.{ℕ};
ghost use Rattle.wasm_syntax.specs.Numeric.{numeric_of};
ghost use Rattle.wasm_syntax.specs.ReductionRows.{act_of};
ghost use Rattle.wasm_numeric.specs.Instructions.{Means, ActsAs};

use crate::op::{Op1, Op2};
use wasm_syntax::Instr;

/// The operator that an instruction is, if any.
#[derive(Clone, Copy, PartialEq, Eq)]
pub enum Numeric {
    /// One of one operand.
    One(Op1),
    /// One of two operands, the second of which stands topmost.
    Two(Op2),
    /// None.
    Other,
}

/// The operator that an instruction is (Core 1.0 section 5.4.5): what `apply1` and `apply2` give of it is what the
/// instruction makes of operands of its types.
#[inline(always)]
pub fn operator_of(i: &Instr) -> Numeric
    ensures means { Means result (numeric_of i.now) }
    ensures acts { (most : ℕ) → ActsAs result (act_of most i.now) }
{
    match i {
        Instr::I32Eqz => Numeric::One(Op1::I32Eqz),
        Instr::I32Eq => Numeric::Two(Op2::I32Eq),
        Instr::I32Ne => Numeric::Two(Op2::I32Ne),
        Instr::I32LtS => Numeric::Two(Op2::I32LtS),
        Instr::I32LtU => Numeric::Two(Op2::I32LtU),
        Instr::I32GtS => Numeric::Two(Op2::I32GtS),
        Instr::I32GtU => Numeric::Two(Op2::I32GtU),
        Instr::I32LeS => Numeric::Two(Op2::I32LeS),
        Instr::I32LeU => Numeric::Two(Op2::I32LeU),
        Instr::I32GeS => Numeric::Two(Op2::I32GeS),
        Instr::I32GeU => Numeric::Two(Op2::I32GeU),
        Instr::I64Eqz => Numeric::One(Op1::I64Eqz),
        Instr::I64Eq => Numeric::Two(Op2::I64Eq),
        Instr::I64Ne => Numeric::Two(Op2::I64Ne),
        Instr::I64LtS => Numeric::Two(Op2::I64LtS),
        Instr::I64LtU => Numeric::Two(Op2::I64LtU),
        Instr::I64GtS => Numeric::Two(Op2::I64GtS),
        Instr::I64GtU => Numeric::Two(Op2::I64GtU),
        Instr::I64LeS => Numeric::Two(Op2::I64LeS),
        Instr::I64LeU => Numeric::Two(Op2::I64LeU),
        Instr::I64GeS => Numeric::Two(Op2::I64GeS),
        Instr::I64GeU => Numeric::Two(Op2::I64GeU),
        Instr::I32Clz => Numeric::One(Op1::I32Clz),
        Instr::I32Ctz => Numeric::One(Op1::I32Ctz),
        Instr::I32Popcnt => Numeric::One(Op1::I32Popcnt),
        Instr::I32Add => Numeric::Two(Op2::I32Add),
        Instr::I32Sub => Numeric::Two(Op2::I32Sub),
        Instr::I32Mul => Numeric::Two(Op2::I32Mul),
        Instr::I32DivS => Numeric::Two(Op2::I32DivS),
        Instr::I32DivU => Numeric::Two(Op2::I32DivU),
        Instr::I32RemS => Numeric::Two(Op2::I32RemS),
        Instr::I32RemU => Numeric::Two(Op2::I32RemU),
        Instr::I32And => Numeric::Two(Op2::I32And),
        Instr::I32Or => Numeric::Two(Op2::I32Or),
        Instr::I32Xor => Numeric::Two(Op2::I32Xor),
        Instr::I32Shl => Numeric::Two(Op2::I32Shl),
        Instr::I32ShrS => Numeric::Two(Op2::I32ShrS),
        Instr::I32ShrU => Numeric::Two(Op2::I32ShrU),
        Instr::I32Rotl => Numeric::Two(Op2::I32Rotl),
        Instr::I32Rotr => Numeric::Two(Op2::I32Rotr),
        Instr::I64Clz => Numeric::One(Op1::I64Clz),
        Instr::I64Ctz => Numeric::One(Op1::I64Ctz),
        Instr::I64Popcnt => Numeric::One(Op1::I64Popcnt),
        Instr::I64Add => Numeric::Two(Op2::I64Add),
        Instr::I64Sub => Numeric::Two(Op2::I64Sub),
        Instr::I64Mul => Numeric::Two(Op2::I64Mul),
        Instr::I64DivS => Numeric::Two(Op2::I64DivS),
        Instr::I64DivU => Numeric::Two(Op2::I64DivU),
        Instr::I64RemS => Numeric::Two(Op2::I64RemS),
        Instr::I64RemU => Numeric::Two(Op2::I64RemU),
        Instr::I64And => Numeric::Two(Op2::I64And),
        Instr::I64Or => Numeric::Two(Op2::I64Or),
        Instr::I64Xor => Numeric::Two(Op2::I64Xor),
        Instr::I64Shl => Numeric::Two(Op2::I64Shl),
        Instr::I64ShrS => Numeric::Two(Op2::I64ShrS),
        Instr::I64ShrU => Numeric::Two(Op2::I64ShrU),
        Instr::I64Rotl => Numeric::Two(Op2::I64Rotl),
        Instr::I64Rotr => Numeric::Two(Op2::I64Rotr),
        Instr::I32WrapI64 => Numeric::One(Op1::I32WrapI64),
        Instr::I64ExtendI32S => Numeric::One(Op1::I64ExtendI32S),
        Instr::I64ExtendI32U => Numeric::One(Op1::I64ExtendI32U),
        Instr::I32Extend8S => Numeric::One(Op1::I32Extend8S),
        Instr::I32Extend16S => Numeric::One(Op1::I32Extend16S),
        Instr::I64Extend8S => Numeric::One(Op1::I64Extend8S),
        Instr::I64Extend16S => Numeric::One(Op1::I64Extend16S),
        Instr::I64Extend32S => Numeric::One(Op1::I64Extend32S),
        Instr::Unreachable
        | Instr::Nop
        | Instr::Block(_)
        | Instr::Loop(_)
        | Instr::If(_)
        | Instr::Else
        | Instr::End
        | Instr::Br(_)
        | Instr::BrIf(_)
        | Instr::BrTable { .. }
        | Instr::Return
        | Instr::Call(_)
        | Instr::CallIndirect(_)
        | Instr::Drop
        | Instr::Select
        | Instr::LocalGet(_)
        | Instr::LocalSet(_)
        | Instr::LocalTee(_)
        | Instr::GlobalGet(_)
        | Instr::GlobalSet(_)
        | Instr::I32Load(_)
        | Instr::I64Load(_)
        | Instr::I32Load8S(_)
        | Instr::I32Load8U(_)
        | Instr::I32Load16S(_)
        | Instr::I32Load16U(_)
        | Instr::I64Load8S(_)
        | Instr::I64Load8U(_)
        | Instr::I64Load16S(_)
        | Instr::I64Load16U(_)
        | Instr::I64Load32S(_)
        | Instr::I64Load32U(_)
        | Instr::I32Store(_)
        | Instr::I64Store(_)
        | Instr::I32Store8(_)
        | Instr::I32Store16(_)
        | Instr::I64Store8(_)
        | Instr::I64Store16(_)
        | Instr::I64Store32(_)
        | Instr::MemorySize
        | Instr::MemoryGrow
        | Instr::MemoryCopy
        | Instr::MemoryFill
        | Instr::I32Const(_)
        | Instr::I64Const(_) => Numeric::Other,
    }
}
