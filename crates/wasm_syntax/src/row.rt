//! The table of opcodes as typing reads it (WebAssembly Core 1.0 section 3.3, and the same of Core 2.0 for sign extension,
//! `memory.copy` and `memory.fill`).

ghost use Rattle.std.specs.Prelude.{◌≡◌};

use crate::instr::{BlockType, Instr};
use crate::types::ValueType;

/// The row of the table in which an instruction stands. An index is a function, type, local, global
/// or label.
#[derive(Clone, Copy, PartialEq, Eq)]
pub enum Row {
    Unreachable,
    Nop,
    Block(BlockType),
    Loop(BlockType),
    If(BlockType),
    Else,
    End,
    Br(u32),
    BrIf(u32),
    /// With the label for every other operand.
    BrTable(u32),
    Return,
    Call(u32),
    CallIndirect(u32),
    Drop,
    Select,
    LocalGet(u32),
    LocalSet(u32),
    LocalTee(u32),
    GlobalGet(u32),
    GlobalSet(u32),
    /// A load of a value: its type, the exponent of the width in bytes, and that of the alignment.
    Load(ValueType, u32, u32),
    /// The same of a store.
    Store(ValueType, u32, u32),
    MemorySize,
    MemoryGrow,
    /// A copy or a fill of a range of the memory: three operands of 32 bits.
    BulkMemory,
    /// A constant of this type.
    Const(ValueType),
    /// An operator: the type of its one operand, and that of its result.
    Unary(ValueType, ValueType),
    /// An operator: the type of its two operands, and that of its result.
    Binary(ValueType, ValueType),
}

impl Instr {
    ghost use Rattle.wasm_syntax.specs.Rows.{row_of, labels_of};

    /// Its row.
    #[inline(always)]
    pub fn row(&self) -> Row
        ensures { result ≡ row_of self.now }
    {
        match self {
            Instr::Unreachable => Row::Unreachable,
            Instr::Nop => Row::Nop,
            Instr::Block(t) => Row::Block(*t),
            Instr::Loop(t) => Row::Loop(*t),
            Instr::If(t) => Row::If(*t),
            Instr::Else => Row::Else,
            Instr::End => Row::End,
            Instr::Br(x) => Row::Br(*x),
            Instr::BrIf(x) => Row::BrIf(*x),
            Instr::BrTable { default, .. } => Row::BrTable(*default),
            Instr::Return => Row::Return,
            Instr::Call(x) => Row::Call(*x),
            Instr::CallIndirect(x) => Row::CallIndirect(*x),
            Instr::Drop => Row::Drop,
            Instr::Select => Row::Select,
            Instr::LocalGet(x) => Row::LocalGet(*x),
            Instr::LocalSet(x) => Row::LocalSet(*x),
            Instr::LocalTee(x) => Row::LocalTee(*x),
            Instr::GlobalGet(x) => Row::GlobalGet(*x),
            Instr::GlobalSet(x) => Row::GlobalSet(*x),
            Instr::I32Load(a) => Row::Load(ValueType::I32, 2, a.align),
            Instr::I64Load(a) => Row::Load(ValueType::I64, 3, a.align),
            Instr::I32Load8S(a) => Row::Load(ValueType::I32, 0, a.align),
            Instr::I32Load8U(a) => Row::Load(ValueType::I32, 0, a.align),
            Instr::I32Load16S(a) => Row::Load(ValueType::I32, 1, a.align),
            Instr::I32Load16U(a) => Row::Load(ValueType::I32, 1, a.align),
            Instr::I64Load8S(a) => Row::Load(ValueType::I64, 0, a.align),
            Instr::I64Load8U(a) => Row::Load(ValueType::I64, 0, a.align),
            Instr::I64Load16S(a) => Row::Load(ValueType::I64, 1, a.align),
            Instr::I64Load16U(a) => Row::Load(ValueType::I64, 1, a.align),
            Instr::I64Load32S(a) => Row::Load(ValueType::I64, 2, a.align),
            Instr::I64Load32U(a) => Row::Load(ValueType::I64, 2, a.align),
            Instr::I32Store(a) => Row::Store(ValueType::I32, 2, a.align),
            Instr::I64Store(a) => Row::Store(ValueType::I64, 3, a.align),
            Instr::I32Store8(a) => Row::Store(ValueType::I32, 0, a.align),
            Instr::I32Store16(a) => Row::Store(ValueType::I32, 1, a.align),
            Instr::I64Store8(a) => Row::Store(ValueType::I64, 0, a.align),
            Instr::I64Store16(a) => Row::Store(ValueType::I64, 1, a.align),
            Instr::I64Store32(a) => Row::Store(ValueType::I64, 2, a.align),
            Instr::MemorySize => Row::MemorySize,
            Instr::MemoryGrow => Row::MemoryGrow,
            Instr::I32Const(_) => Row::Const(ValueType::I32),
            Instr::I64Const(_) => Row::Const(ValueType::I64),
            Instr::I32Eqz => Row::Unary(ValueType::I32, ValueType::I32),
            Instr::I32Eq => Row::Binary(ValueType::I32, ValueType::I32),
            Instr::I32Ne => Row::Binary(ValueType::I32, ValueType::I32),
            Instr::I32LtS => Row::Binary(ValueType::I32, ValueType::I32),
            Instr::I32LtU => Row::Binary(ValueType::I32, ValueType::I32),
            Instr::I32GtS => Row::Binary(ValueType::I32, ValueType::I32),
            Instr::I32GtU => Row::Binary(ValueType::I32, ValueType::I32),
            Instr::I32LeS => Row::Binary(ValueType::I32, ValueType::I32),
            Instr::I32LeU => Row::Binary(ValueType::I32, ValueType::I32),
            Instr::I32GeS => Row::Binary(ValueType::I32, ValueType::I32),
            Instr::I32GeU => Row::Binary(ValueType::I32, ValueType::I32),
            Instr::I64Eqz => Row::Unary(ValueType::I64, ValueType::I32),
            Instr::I64Eq => Row::Binary(ValueType::I64, ValueType::I32),
            Instr::I64Ne => Row::Binary(ValueType::I64, ValueType::I32),
            Instr::I64LtS => Row::Binary(ValueType::I64, ValueType::I32),
            Instr::I64LtU => Row::Binary(ValueType::I64, ValueType::I32),
            Instr::I64GtS => Row::Binary(ValueType::I64, ValueType::I32),
            Instr::I64GtU => Row::Binary(ValueType::I64, ValueType::I32),
            Instr::I64LeS => Row::Binary(ValueType::I64, ValueType::I32),
            Instr::I64LeU => Row::Binary(ValueType::I64, ValueType::I32),
            Instr::I64GeS => Row::Binary(ValueType::I64, ValueType::I32),
            Instr::I64GeU => Row::Binary(ValueType::I64, ValueType::I32),
            Instr::I32Clz => Row::Unary(ValueType::I32, ValueType::I32),
            Instr::I32Ctz => Row::Unary(ValueType::I32, ValueType::I32),
            Instr::I32Popcnt => Row::Unary(ValueType::I32, ValueType::I32),
            Instr::I32Add => Row::Binary(ValueType::I32, ValueType::I32),
            Instr::I32Sub => Row::Binary(ValueType::I32, ValueType::I32),
            Instr::I32Mul => Row::Binary(ValueType::I32, ValueType::I32),
            Instr::I32DivS => Row::Binary(ValueType::I32, ValueType::I32),
            Instr::I32DivU => Row::Binary(ValueType::I32, ValueType::I32),
            Instr::I32RemS => Row::Binary(ValueType::I32, ValueType::I32),
            Instr::I32RemU => Row::Binary(ValueType::I32, ValueType::I32),
            Instr::I32And => Row::Binary(ValueType::I32, ValueType::I32),
            Instr::I32Or => Row::Binary(ValueType::I32, ValueType::I32),
            Instr::I32Xor => Row::Binary(ValueType::I32, ValueType::I32),
            Instr::I32Shl => Row::Binary(ValueType::I32, ValueType::I32),
            Instr::I32ShrS => Row::Binary(ValueType::I32, ValueType::I32),
            Instr::I32ShrU => Row::Binary(ValueType::I32, ValueType::I32),
            Instr::I32Rotl => Row::Binary(ValueType::I32, ValueType::I32),
            Instr::I32Rotr => Row::Binary(ValueType::I32, ValueType::I32),
            Instr::I64Clz => Row::Unary(ValueType::I64, ValueType::I64),
            Instr::I64Ctz => Row::Unary(ValueType::I64, ValueType::I64),
            Instr::I64Popcnt => Row::Unary(ValueType::I64, ValueType::I64),
            Instr::I64Add => Row::Binary(ValueType::I64, ValueType::I64),
            Instr::I64Sub => Row::Binary(ValueType::I64, ValueType::I64),
            Instr::I64Mul => Row::Binary(ValueType::I64, ValueType::I64),
            Instr::I64DivS => Row::Binary(ValueType::I64, ValueType::I64),
            Instr::I64DivU => Row::Binary(ValueType::I64, ValueType::I64),
            Instr::I64RemS => Row::Binary(ValueType::I64, ValueType::I64),
            Instr::I64RemU => Row::Binary(ValueType::I64, ValueType::I64),
            Instr::I64And => Row::Binary(ValueType::I64, ValueType::I64),
            Instr::I64Or => Row::Binary(ValueType::I64, ValueType::I64),
            Instr::I64Xor => Row::Binary(ValueType::I64, ValueType::I64),
            Instr::I64Shl => Row::Binary(ValueType::I64, ValueType::I64),
            Instr::I64ShrS => Row::Binary(ValueType::I64, ValueType::I64),
            Instr::I64ShrU => Row::Binary(ValueType::I64, ValueType::I64),
            Instr::I64Rotl => Row::Binary(ValueType::I64, ValueType::I64),
            Instr::I64Rotr => Row::Binary(ValueType::I64, ValueType::I64),
            Instr::I32WrapI64 => Row::Unary(ValueType::I64, ValueType::I32),
            Instr::I64ExtendI32S => Row::Unary(ValueType::I32, ValueType::I64),
            Instr::I64ExtendI32U => Row::Unary(ValueType::I32, ValueType::I64),
            Instr::I32Extend8S => Row::Unary(ValueType::I32, ValueType::I32),
            Instr::I32Extend16S => Row::Unary(ValueType::I32, ValueType::I32),
            Instr::I64Extend8S => Row::Unary(ValueType::I64, ValueType::I64),
            Instr::I64Extend16S => Row::Unary(ValueType::I64, ValueType::I64),
            Instr::I64Extend32S => Row::Unary(ValueType::I64, ValueType::I64),
            Instr::MemoryCopy => Row::BulkMemory,
            Instr::MemoryFill => Row::BulkMemory,
        }
    }

    /// The labels of a `br_table`, without the one for every other operand. Every other instruction
    /// has none.
    pub fn labels(&self) -> &[u32]
        ensures { result.now ≡ labels_of self.now }
    {
        match self {
            Instr::BrTable { labels, .. } => labels.indices().as_slice(),
            _ => &[],
        }
    }
}
