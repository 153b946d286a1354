// Copies of instructions.
ghost use Rattle.std.specs.Prelude.{◌≡◌, ◌≢◌, IfOk};
ghost use Rattle.wasm_syntax.specs.Opcodes.{opcode_of};
ghost use Rattle.wasm_syntax.specs.declared.opcode.Opcode.TheVariants as opcode;

use crate::lists::copied;
use gate_base::OutOfMemory;
use std::alloc::Global;
use wasm_syntax::{Expression, Instr, Labels};

/// A copy of an instruction.
fn copy_instr(alloc: Global, instr: &Instr) -> Result<Instr, OutOfMemory>
    ensures { IfOk result (λ copy. copy ≡ instr.now) }
{
    match instr {
        Instr::BrTable { labels, default } => Ok(Instr::BrTable {
            labels: Labels::new(alloc, copied(alloc, labels.indices())?)?,
            default: *default,
        }),
        _ => Ok(copy_small(instr)),
    }
}

/// A copy of an instruction that holds no list.
fn copy_small(instr: &Instr) -> Instr
    requires { opcode_of instr.now ≢ opcode.BrTable }
    ensures { result ≡ instr.now }
{
    match instr {
        Instr::Unreachable => Instr::Unreachable,
        Instr::Nop => Instr::Nop,
        Instr::Block(x) => Instr::Block(*x),
        Instr::Loop(x) => Instr::Loop(*x),
        Instr::If(x) => Instr::If(*x),
        Instr::Else => Instr::Else,
        Instr::End => Instr::End,
        Instr::Br(x) => Instr::Br(*x),
        Instr::BrIf(x) => Instr::BrIf(*x),
        Instr::Return => Instr::Return,
        Instr::Call(x) => Instr::Call(*x),
        Instr::CallIndirect(x) => Instr::CallIndirect(*x),
        Instr::Drop => Instr::Drop,
        Instr::Select => Instr::Select,
        Instr::LocalGet(x) => Instr::LocalGet(*x),
        Instr::LocalSet(x) => Instr::LocalSet(*x),
        Instr::LocalTee(x) => Instr::LocalTee(*x),
        Instr::GlobalGet(x) => Instr::GlobalGet(*x),
        Instr::GlobalSet(x) => Instr::GlobalSet(*x),
        Instr::I32Load(x) => Instr::I32Load(*x),
        Instr::I64Load(x) => Instr::I64Load(*x),
        Instr::I32Load8S(x) => Instr::I32Load8S(*x),
        Instr::I32Load8U(x) => Instr::I32Load8U(*x),
        Instr::I32Load16S(x) => Instr::I32Load16S(*x),
        Instr::I32Load16U(x) => Instr::I32Load16U(*x),
        Instr::I64Load8S(x) => Instr::I64Load8S(*x),
        Instr::I64Load8U(x) => Instr::I64Load8U(*x),
        Instr::I64Load16S(x) => Instr::I64Load16S(*x),
        Instr::I64Load16U(x) => Instr::I64Load16U(*x),
        Instr::I64Load32S(x) => Instr::I64Load32S(*x),
        Instr::I64Load32U(x) => Instr::I64Load32U(*x),
        Instr::I32Store(x) => Instr::I32Store(*x),
        Instr::I64Store(x) => Instr::I64Store(*x),
        Instr::I32Store8(x) => Instr::I32Store8(*x),
        Instr::I32Store16(x) => Instr::I32Store16(*x),
        Instr::I64Store8(x) => Instr::I64Store8(*x),
        Instr::I64Store16(x) => Instr::I64Store16(*x),
        Instr::I64Store32(x) => Instr::I64Store32(*x),
        Instr::MemorySize => Instr::MemorySize,
        Instr::MemoryGrow => Instr::MemoryGrow,
        Instr::I32Const(x) => Instr::I32Const(*x),
        Instr::I64Const(x) => Instr::I64Const(*x),
        Instr::I32Eqz => Instr::I32Eqz,
        Instr::I32Eq => Instr::I32Eq,
        Instr::I32Ne => Instr::I32Ne,
        Instr::I32LtS => Instr::I32LtS,
        Instr::I32LtU => Instr::I32LtU,
        Instr::I32GtS => Instr::I32GtS,
        Instr::I32GtU => Instr::I32GtU,
        Instr::I32LeS => Instr::I32LeS,
        Instr::I32LeU => Instr::I32LeU,
        Instr::I32GeS => Instr::I32GeS,
        Instr::I32GeU => Instr::I32GeU,
        Instr::I64Eqz => Instr::I64Eqz,
        Instr::I64Eq => Instr::I64Eq,
        Instr::I64Ne => Instr::I64Ne,
        Instr::I64LtS => Instr::I64LtS,
        Instr::I64LtU => Instr::I64LtU,
        Instr::I64GtS => Instr::I64GtS,
        Instr::I64GtU => Instr::I64GtU,
        Instr::I64LeS => Instr::I64LeS,
        Instr::I64LeU => Instr::I64LeU,
        Instr::I64GeS => Instr::I64GeS,
        Instr::I64GeU => Instr::I64GeU,
        Instr::I32Clz => Instr::I32Clz,
        Instr::I32Ctz => Instr::I32Ctz,
        Instr::I32Popcnt => Instr::I32Popcnt,
        Instr::I32Add => Instr::I32Add,
        Instr::I32Sub => Instr::I32Sub,
        Instr::I32Mul => Instr::I32Mul,
        Instr::I32DivS => Instr::I32DivS,
        Instr::I32DivU => Instr::I32DivU,
        Instr::I32RemS => Instr::I32RemS,
        Instr::I32RemU => Instr::I32RemU,
        Instr::I32And => Instr::I32And,
        Instr::I32Or => Instr::I32Or,
        Instr::I32Xor => Instr::I32Xor,
        Instr::I32Shl => Instr::I32Shl,
        Instr::I32ShrS => Instr::I32ShrS,
        Instr::I32ShrU => Instr::I32ShrU,
        Instr::I32Rotl => Instr::I32Rotl,
        Instr::I32Rotr => Instr::I32Rotr,
        Instr::I64Clz => Instr::I64Clz,
        Instr::I64Ctz => Instr::I64Ctz,
        Instr::I64Popcnt => Instr::I64Popcnt,
        Instr::I64Add => Instr::I64Add,
        Instr::I64Sub => Instr::I64Sub,
        Instr::I64Mul => Instr::I64Mul,
        Instr::I64DivS => Instr::I64DivS,
        Instr::I64DivU => Instr::I64DivU,
        Instr::I64RemS => Instr::I64RemS,
        Instr::I64RemU => Instr::I64RemU,
        Instr::I64And => Instr::I64And,
        Instr::I64Or => Instr::I64Or,
        Instr::I64Xor => Instr::I64Xor,
        Instr::I64Shl => Instr::I64Shl,
        Instr::I64ShrS => Instr::I64ShrS,
        Instr::I64ShrU => Instr::I64ShrU,
        Instr::I64Rotl => Instr::I64Rotl,
        Instr::I64Rotr => Instr::I64Rotr,
        Instr::I32WrapI64 => Instr::I32WrapI64,
        Instr::I64ExtendI32S => Instr::I64ExtendI32S,
        Instr::I64ExtendI32U => Instr::I64ExtendI32U,
        Instr::I32Extend8S => Instr::I32Extend8S,
        Instr::I32Extend16S => Instr::I32Extend16S,
        Instr::I64Extend8S => Instr::I64Extend8S,
        Instr::I64Extend16S => Instr::I64Extend16S,
        Instr::I64Extend32S => Instr::I64Extend32S,
        Instr::MemoryCopy => Instr::MemoryCopy,
        Instr::MemoryFill => Instr::MemoryFill,
        Instr::BrTable { .. } => unreachable!(),
    }
}

/// A copy of a list of instructions.
pub(crate) fn copy_expression(alloc: Global, instrs: &Expression) -> Result<Expression, OutOfMemory>
    ensures { IfOk result (λ copy. copy ≡ instrs.now) }
{
    let mut copy = Expression::new(alloc);
    for instr in instrs.as_slice() {
        copy.push(copy_instr(alloc, instr)?)?;
    }
    copy.settle();
    Ok(copy)
}
