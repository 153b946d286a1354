//! Instructions and expressions.

ghost use Rattle.std.specs.Prelude.{◌≡◌, ◌++◌, OnOk};
ghost use Rattle.wasm_writer.specs.Written.{memory_argument_bytes, prefixed_bytes, operand_bytes, instruction_bytes, expression_bytes};

use crate::rules::{Form, Numbers, vector};
use crate::types::write_block_type;
use gate_base::{Octets, OutOfMemory};
use std::alloc::Global;
use wasm_syntax::{Expression, Instr, MemoryArgument, Prefixed, write_s32, write_s64, write_u32};

/// Puts how an instruction reaches the memory at the end.
fn write_memory_argument(out: &mut Octets, a: MemoryArgument) -> Result<(), OutOfMemory>
    ensures { OnOk result (out.new ≡ out.old ++ memory_argument_bytes a) }
{
    write_u32(out, a.align)?;
    write_u32(out, a.offset)
}

/// Puts the number of an instruction behind the byte 0xFC, and the bytes 0 behind that, at the end.
fn write_prefixed(out: &mut Octets, which: Prefixed) -> Result<(), OutOfMemory>
    ensures { OnOk result (out.new ≡ out.old ++ prefixed_bytes which) }
{
    write_u32(out, which.number())?;
    match which {
        Prefixed::MemoryCopy => {
            out.push(0)?;
            out.push(0)
        }
        Prefixed::MemoryFill => out.push(0),
    }
}

/// Puts what stands behind an opcode at the end.
fn write_operands(alloc: Global, out: &mut Octets, i: &Instr) -> Result<(), OutOfMemory>
    ensures { OnOk result (out.new ≡ out.old ++ operand_bytes i.now) }
{
    match i {
        Instr::Block(of) | Instr::Loop(of) | Instr::If(of) => write_block_type(out, *of),
        Instr::Br(n)
        | Instr::BrIf(n)
        | Instr::Call(n)
        | Instr::LocalGet(n)
        | Instr::LocalSet(n)
        | Instr::LocalTee(n)
        | Instr::GlobalGet(n)
        | Instr::GlobalSet(n) => write_u32(out, *n),
        Instr::BrTable { labels, default } => {
            vector::<u32, Numbers>(alloc, out, labels.indices())?;
            write_u32(out, *default)
        }
        Instr::CallIndirect(n) => {
            write_u32(out, *n)?;
            out.push(0)
        }
        Instr::I32Load(a)
        | Instr::I64Load(a)
        | Instr::I32Load8S(a)
        | Instr::I32Load8U(a)
        | Instr::I32Load16S(a)
        | Instr::I32Load16U(a)
        | Instr::I64Load8S(a)
        | Instr::I64Load8U(a)
        | Instr::I64Load16S(a)
        | Instr::I64Load16U(a)
        | Instr::I64Load32S(a)
        | Instr::I64Load32U(a)
        | Instr::I32Store(a)
        | Instr::I64Store(a)
        | Instr::I32Store8(a)
        | Instr::I32Store16(a)
        | Instr::I64Store8(a)
        | Instr::I64Store16(a)
        | Instr::I64Store32(a) => write_memory_argument(out, *a),
        Instr::MemorySize | Instr::MemoryGrow => out.push(0),
        Instr::MemoryCopy => write_prefixed(out, Prefixed::MemoryCopy),
        Instr::MemoryFill => write_prefixed(out, Prefixed::MemoryFill),
        Instr::I32Const(v) => write_s32(out, *v),
        Instr::I64Const(v) => write_s64(out, *v),
        Instr::Unreachable
        | Instr::Nop
        | Instr::Else
        | Instr::End
        | Instr::Return
        | Instr::Drop
        | Instr::Select
        | Instr::I32Eqz
        | Instr::I32Eq
        | Instr::I32Ne
        | Instr::I32LtS
        | Instr::I32LtU
        | Instr::I32GtS
        | Instr::I32GtU
        | Instr::I32LeS
        | Instr::I32LeU
        | Instr::I32GeS
        | Instr::I32GeU
        | Instr::I64Eqz
        | Instr::I64Eq
        | Instr::I64Ne
        | Instr::I64LtS
        | Instr::I64LtU
        | Instr::I64GtS
        | Instr::I64GtU
        | Instr::I64LeS
        | Instr::I64LeU
        | Instr::I64GeS
        | Instr::I64GeU
        | Instr::I32Clz
        | Instr::I32Ctz
        | Instr::I32Popcnt
        | Instr::I32Add
        | Instr::I32Sub
        | Instr::I32Mul
        | Instr::I32DivS
        | Instr::I32DivU
        | Instr::I32RemS
        | Instr::I32RemU
        | Instr::I32And
        | Instr::I32Or
        | Instr::I32Xor
        | Instr::I32Shl
        | Instr::I32ShrS
        | Instr::I32ShrU
        | Instr::I32Rotl
        | Instr::I32Rotr
        | Instr::I64Clz
        | Instr::I64Ctz
        | Instr::I64Popcnt
        | Instr::I64Add
        | Instr::I64Sub
        | Instr::I64Mul
        | Instr::I64DivS
        | Instr::I64DivU
        | Instr::I64RemS
        | Instr::I64RemU
        | Instr::I64And
        | Instr::I64Or
        | Instr::I64Xor
        | Instr::I64Shl
        | Instr::I64ShrS
        | Instr::I64ShrU
        | Instr::I64Rotl
        | Instr::I64Rotr
        | Instr::I32WrapI64
        | Instr::I64ExtendI32S
        | Instr::I64ExtendI32U
        | Instr::I32Extend8S
        | Instr::I32Extend16S
        | Instr::I64Extend8S
        | Instr::I64Extend16S
        | Instr::I64Extend32S => Ok(()),
    }
}

/// An instruction.
struct Instructions;

impl Form<Instr> for Instructions {
    ghost bytes = { instruction_bytes };

    #[tactic(auto, unfolding(crate::specs::Written::instruction_bytes))]
    fn write(alloc: Global, out: &mut Octets, x: &Instr) -> Result<(), OutOfMemory> {
        out.push(x.opcode().byte())?;
        write_operands(alloc, out, x)
    }
}

/// Puts an expression at the end, its last `End` included.
#[tactic(auto, unfolding(crate::specs::Written::expression_bytes))]
pub(crate) fn write_expression(
    alloc: Global,
    out: &mut Octets,
    body: &Expression,
) -> Result<(), OutOfMemory>
    ensures { OnOk result (out.new ≡ out.old ++ expression_bytes body.now) }
{
    for i in body.as_slice() {
        Instructions::write(alloc, out, i)?;
    }
    Ok(())
}
