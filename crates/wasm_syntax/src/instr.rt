//! Instructions (WebAssembly Core 1.0 section 5.4, and of Core 2.0 sign extension, `memory.copy` and `memory.fill`).

ghost use Rattle.std.specs.Prelude.{◌≡◌, ◌++◌, ◌∷◌, [], length, IfOk, OnOk, OnErr};

use crate::opcode::Opcode;
use crate::types::ValueType;
use gate_base::{Members, OutOfMemory};
use std::alloc::Global;
use std::marker::Model;

/// What a block leaves.
#[derive(Clone, Copy, PartialEq, Eq)]
pub enum BlockType {
    /// Nothing.
    Empty,
    /// One value.
    Value(ValueType),
}

/// How an instruction reaches the memory.
#[derive(Clone, Copy, PartialEq, Eq)]
pub struct MemoryArgument {
    /// The exponent of the alignment, a power of two.
    pub align: u32,
    /// What is added to the operand, without wrapping.
    pub offset: u32,
}

/// A block that is open at a place of a flat list.
#[derive(Clone, Copy, PartialEq, Eq)]
pub enum Open {
    /// An `if` that has had no `else`.
    InThen,
    /// Any other.
    InOther,
}

/// A list of indices.
pub type Indices = Members<u32>;

/// The labels of a `br_table`. They are kept apart, so that other instructions take no room for them. Clauses see the list.
#[derive(Drop)]
pub struct Labels {
    kept: Box<Indices>,
}

impl Model for Labels {
    ghost use Rattle.std.specs.Prelude.{List, ℕ};

    ghost Value = { List ℕ };

    ghost view = { λ a. a.kept.value };
}

impl Labels {
    /// These.
    pub fn new(alloc: Global, labels: Indices) -> Result<Labels, OutOfMemory>
        ensures { IfOk result (λ kept. kept ≡ labels) }
    {
        Ok(Labels {
            kept: Box::new(alloc, labels)?,
        })
    }

    /// The labels in order.
    pub fn indices(&self) -> &Indices
        ensures { result.now ≡ self.now }
    {
        &self.kept
    }
}

/// The instructions of a body, an initial value or an offset, the last `End` included. Clauses see the list.
#[derive(Drop)]
pub struct Expression {
    instrs: Vec<Instr>,
}

impl Model for Expression {
    ghost use Rattle.std.specs.Prelude.{List};
    ghost use Rattle.wasm_syntax.specs.declared.instr.Instr.{Instr as Instrs};

    ghost Value = { List Instrs };

    ghost view = { λ a. a.instrs.items };
}

impl Expression {
    /// No instruction.
    pub fn new(alloc: Global) -> Self
        ensures { result ≡ [] }
    {
        Expression {
            instrs: Vec::new(alloc),
        }
    }

    /// Puts an instruction at the end.
    pub fn push(&mut self, instr: Instr) -> Result<(), OutOfMemory>
        ensures ok { OnOk result (self.new ≡ self.old ++ instr ∷ []) }
        ensures err { OnErr result (self.new ≡ self.old) }
    {
        self.instrs.push(instr)?;
        Ok(())
    }

    /// How many instructions there are.
    pub fn len(&self) -> usize
        ensures { result ≡ length self.now }
    {
        self.instrs.len()
    }

    /// Gives back the memory that was taken for more instructions.
    pub fn settle(&mut self)
        ensures { self.new ≡ self.old }
    {
        self.instrs.shrink_to_fit();
    }

    /// The instructions in order.
    pub fn as_slice(&self) -> &[Instr]
        ensures { result.now ≡ self.now }
    {
        self.instrs.as_slice()
    }
}

/// An instruction, one variant an opcode, or a number behind the byte 0xFC. Nested instructions stand in one flat list, in which
/// `Else` and `End` are members, the last `End` of the whole included.
#[derive(Drop)]
pub enum Instr {
    /// `unreachable` (0x00).
    Unreachable,
    /// `nop` (0x01).
    Nop,
    /// `block` (0x02).
    Block(BlockType),
    /// `loop` (0x03).
    Loop(BlockType),
    /// `if` (0x04).
    If(BlockType),
    /// `else` (0x05).
    Else,
    /// `end` (0x0B).
    End,
    /// `br` (0x0C): the label.
    Br(u32),
    /// `br_if` (0x0D): the label.
    BrIf(u32),
    /// `br_table` (0x0E): the label for an operand that has none of its own, and the labels. In this order an instruction takes 16 bytes.
    BrTable { default: u32, labels: Labels },
    /// `return` (0x0F).
    Return,
    /// `call` (0x10): the index of the function.
    Call(u32),
    /// `call_indirect` (0x11): the index of the type.
    CallIndirect(u32),
    /// `drop` (0x1A).
    Drop,
    /// `select` (0x1B).
    Select,
    /// `local.get` (0x20).
    LocalGet(u32),
    /// `local.set` (0x21).
    LocalSet(u32),
    /// `local.tee` (0x22).
    LocalTee(u32),
    /// `global.get` (0x23).
    GlobalGet(u32),
    /// `global.set` (0x24).
    GlobalSet(u32),
    /// `i32.load` (0x28).
    I32Load(MemoryArgument),
    /// `i64.load` (0x29).
    I64Load(MemoryArgument),
    /// `i32.load8_s` (0x2C).
    I32Load8S(MemoryArgument),
    /// `i32.load8_u` (0x2D).
    I32Load8U(MemoryArgument),
    /// `i32.load16_s` (0x2E).
    I32Load16S(MemoryArgument),
    /// `i32.load16_u` (0x2F).
    I32Load16U(MemoryArgument),
    /// `i64.load8_s` (0x30).
    I64Load8S(MemoryArgument),
    /// `i64.load8_u` (0x31).
    I64Load8U(MemoryArgument),
    /// `i64.load16_s` (0x32).
    I64Load16S(MemoryArgument),
    /// `i64.load16_u` (0x33).
    I64Load16U(MemoryArgument),
    /// `i64.load32_s` (0x34).
    I64Load32S(MemoryArgument),
    /// `i64.load32_u` (0x35).
    I64Load32U(MemoryArgument),
    /// `i32.store` (0x36).
    I32Store(MemoryArgument),
    /// `i64.store` (0x37).
    I64Store(MemoryArgument),
    /// `i32.store8` (0x3A).
    I32Store8(MemoryArgument),
    /// `i32.store16` (0x3B).
    I32Store16(MemoryArgument),
    /// `i64.store8` (0x3C).
    I64Store8(MemoryArgument),
    /// `i64.store16` (0x3D).
    I64Store16(MemoryArgument),
    /// `i64.store32` (0x3E).
    I64Store32(MemoryArgument),
    /// `memory.size` (0x3F).
    MemorySize,
    /// `memory.grow` (0x40).
    MemoryGrow,
    /// `i32.const` (0x41).
    I32Const(i32),
    /// `i64.const` (0x42).
    I64Const(i64),
    /// `i32.eqz` (0x45).
    I32Eqz,
    /// `i32.eq` (0x46).
    I32Eq,
    /// `i32.ne` (0x47).
    I32Ne,
    /// `i32.lt_s` (0x48).
    I32LtS,
    /// `i32.lt_u` (0x49).
    I32LtU,
    /// `i32.gt_s` (0x4A).
    I32GtS,
    /// `i32.gt_u` (0x4B).
    I32GtU,
    /// `i32.le_s` (0x4C).
    I32LeS,
    /// `i32.le_u` (0x4D).
    I32LeU,
    /// `i32.ge_s` (0x4E).
    I32GeS,
    /// `i32.ge_u` (0x4F).
    I32GeU,
    /// `i64.eqz` (0x50).
    I64Eqz,
    /// `i64.eq` (0x51).
    I64Eq,
    /// `i64.ne` (0x52).
    I64Ne,
    /// `i64.lt_s` (0x53).
    I64LtS,
    /// `i64.lt_u` (0x54).
    I64LtU,
    /// `i64.gt_s` (0x55).
    I64GtS,
    /// `i64.gt_u` (0x56).
    I64GtU,
    /// `i64.le_s` (0x57).
    I64LeS,
    /// `i64.le_u` (0x58).
    I64LeU,
    /// `i64.ge_s` (0x59).
    I64GeS,
    /// `i64.ge_u` (0x5A).
    I64GeU,
    /// `i32.clz` (0x67).
    I32Clz,
    /// `i32.ctz` (0x68).
    I32Ctz,
    /// `i32.popcnt` (0x69).
    I32Popcnt,
    /// `i32.add` (0x6A).
    I32Add,
    /// `i32.sub` (0x6B).
    I32Sub,
    /// `i32.mul` (0x6C).
    I32Mul,
    /// `i32.div_s` (0x6D).
    I32DivS,
    /// `i32.div_u` (0x6E).
    I32DivU,
    /// `i32.rem_s` (0x6F).
    I32RemS,
    /// `i32.rem_u` (0x70).
    I32RemU,
    /// `i32.and` (0x71).
    I32And,
    /// `i32.or` (0x72).
    I32Or,
    /// `i32.xor` (0x73).
    I32Xor,
    /// `i32.shl` (0x74).
    I32Shl,
    /// `i32.shr_s` (0x75).
    I32ShrS,
    /// `i32.shr_u` (0x76).
    I32ShrU,
    /// `i32.rotl` (0x77).
    I32Rotl,
    /// `i32.rotr` (0x78).
    I32Rotr,
    /// `i64.clz` (0x79).
    I64Clz,
    /// `i64.ctz` (0x7A).
    I64Ctz,
    /// `i64.popcnt` (0x7B).
    I64Popcnt,
    /// `i64.add` (0x7C).
    I64Add,
    /// `i64.sub` (0x7D).
    I64Sub,
    /// `i64.mul` (0x7E).
    I64Mul,
    /// `i64.div_s` (0x7F).
    I64DivS,
    /// `i64.div_u` (0x80).
    I64DivU,
    /// `i64.rem_s` (0x81).
    I64RemS,
    /// `i64.rem_u` (0x82).
    I64RemU,
    /// `i64.and` (0x83).
    I64And,
    /// `i64.or` (0x84).
    I64Or,
    /// `i64.xor` (0x85).
    I64Xor,
    /// `i64.shl` (0x86).
    I64Shl,
    /// `i64.shr_s` (0x87).
    I64ShrS,
    /// `i64.shr_u` (0x88).
    I64ShrU,
    /// `i64.rotl` (0x89).
    I64Rotl,
    /// `i64.rotr` (0x8A).
    I64Rotr,
    /// `i32.wrap_i64` (0xA7).
    I32WrapI64,
    /// `i64.extend_i32_s` (0xAC).
    I64ExtendI32S,
    /// `i64.extend_i32_u` (0xAD).
    I64ExtendI32U,
    /// `i32.extend8_s` (0xC0).
    I32Extend8S,
    /// `i32.extend16_s` (0xC1).
    I32Extend16S,
    /// `i64.extend8_s` (0xC2).
    I64Extend8S,
    /// `i64.extend16_s` (0xC3).
    I64Extend16S,
    /// `i64.extend32_s` (0xC4).
    I64Extend32S,
    /// `memory.copy` (0xFC and the number 10).
    MemoryCopy,
    /// `memory.fill` (0xFC and the number 11).
    MemoryFill,
}

impl Instr {
    ghost use Rattle.wasm_syntax.specs.Opcodes.{opcode_of};

    /// Its opcode.
    pub fn opcode(&self) -> Opcode
        ensures { result ≡ opcode_of self.now }
    {
        match self {
            Instr::Unreachable => Opcode::Unreachable,
            Instr::Nop => Opcode::Nop,
            Instr::Block(_) => Opcode::Block,
            Instr::Loop(_) => Opcode::Loop,
            Instr::If(_) => Opcode::If,
            Instr::Else => Opcode::Else,
            Instr::End => Opcode::End,
            Instr::Br(_) => Opcode::Br,
            Instr::BrIf(_) => Opcode::BrIf,
            Instr::BrTable { .. } => Opcode::BrTable,
            Instr::Return => Opcode::Return,
            Instr::Call(_) => Opcode::Call,
            Instr::CallIndirect(_) => Opcode::CallIndirect,
            Instr::Drop => Opcode::Drop,
            Instr::Select => Opcode::Select,
            Instr::LocalGet(_) => Opcode::LocalGet,
            Instr::LocalSet(_) => Opcode::LocalSet,
            Instr::LocalTee(_) => Opcode::LocalTee,
            Instr::GlobalGet(_) => Opcode::GlobalGet,
            Instr::GlobalSet(_) => Opcode::GlobalSet,
            Instr::I32Load(_) => Opcode::I32Load,
            Instr::I64Load(_) => Opcode::I64Load,
            Instr::I32Load8S(_) => Opcode::I32Load8S,
            Instr::I32Load8U(_) => Opcode::I32Load8U,
            Instr::I32Load16S(_) => Opcode::I32Load16S,
            Instr::I32Load16U(_) => Opcode::I32Load16U,
            Instr::I64Load8S(_) => Opcode::I64Load8S,
            Instr::I64Load8U(_) => Opcode::I64Load8U,
            Instr::I64Load16S(_) => Opcode::I64Load16S,
            Instr::I64Load16U(_) => Opcode::I64Load16U,
            Instr::I64Load32S(_) => Opcode::I64Load32S,
            Instr::I64Load32U(_) => Opcode::I64Load32U,
            Instr::I32Store(_) => Opcode::I32Store,
            Instr::I64Store(_) => Opcode::I64Store,
            Instr::I32Store8(_) => Opcode::I32Store8,
            Instr::I32Store16(_) => Opcode::I32Store16,
            Instr::I64Store8(_) => Opcode::I64Store8,
            Instr::I64Store16(_) => Opcode::I64Store16,
            Instr::I64Store32(_) => Opcode::I64Store32,
            Instr::MemorySize => Opcode::MemorySize,
            Instr::MemoryGrow => Opcode::MemoryGrow,
            Instr::I32Const(_) => Opcode::I32Const,
            Instr::I64Const(_) => Opcode::I64Const,
            Instr::I32Eqz => Opcode::I32Eqz,
            Instr::I32Eq => Opcode::I32Eq,
            Instr::I32Ne => Opcode::I32Ne,
            Instr::I32LtS => Opcode::I32LtS,
            Instr::I32LtU => Opcode::I32LtU,
            Instr::I32GtS => Opcode::I32GtS,
            Instr::I32GtU => Opcode::I32GtU,
            Instr::I32LeS => Opcode::I32LeS,
            Instr::I32LeU => Opcode::I32LeU,
            Instr::I32GeS => Opcode::I32GeS,
            Instr::I32GeU => Opcode::I32GeU,
            Instr::I64Eqz => Opcode::I64Eqz,
            Instr::I64Eq => Opcode::I64Eq,
            Instr::I64Ne => Opcode::I64Ne,
            Instr::I64LtS => Opcode::I64LtS,
            Instr::I64LtU => Opcode::I64LtU,
            Instr::I64GtS => Opcode::I64GtS,
            Instr::I64GtU => Opcode::I64GtU,
            Instr::I64LeS => Opcode::I64LeS,
            Instr::I64LeU => Opcode::I64LeU,
            Instr::I64GeS => Opcode::I64GeS,
            Instr::I64GeU => Opcode::I64GeU,
            Instr::I32Clz => Opcode::I32Clz,
            Instr::I32Ctz => Opcode::I32Ctz,
            Instr::I32Popcnt => Opcode::I32Popcnt,
            Instr::I32Add => Opcode::I32Add,
            Instr::I32Sub => Opcode::I32Sub,
            Instr::I32Mul => Opcode::I32Mul,
            Instr::I32DivS => Opcode::I32DivS,
            Instr::I32DivU => Opcode::I32DivU,
            Instr::I32RemS => Opcode::I32RemS,
            Instr::I32RemU => Opcode::I32RemU,
            Instr::I32And => Opcode::I32And,
            Instr::I32Or => Opcode::I32Or,
            Instr::I32Xor => Opcode::I32Xor,
            Instr::I32Shl => Opcode::I32Shl,
            Instr::I32ShrS => Opcode::I32ShrS,
            Instr::I32ShrU => Opcode::I32ShrU,
            Instr::I32Rotl => Opcode::I32Rotl,
            Instr::I32Rotr => Opcode::I32Rotr,
            Instr::I64Clz => Opcode::I64Clz,
            Instr::I64Ctz => Opcode::I64Ctz,
            Instr::I64Popcnt => Opcode::I64Popcnt,
            Instr::I64Add => Opcode::I64Add,
            Instr::I64Sub => Opcode::I64Sub,
            Instr::I64Mul => Opcode::I64Mul,
            Instr::I64DivS => Opcode::I64DivS,
            Instr::I64DivU => Opcode::I64DivU,
            Instr::I64RemS => Opcode::I64RemS,
            Instr::I64RemU => Opcode::I64RemU,
            Instr::I64And => Opcode::I64And,
            Instr::I64Or => Opcode::I64Or,
            Instr::I64Xor => Opcode::I64Xor,
            Instr::I64Shl => Opcode::I64Shl,
            Instr::I64ShrS => Opcode::I64ShrS,
            Instr::I64ShrU => Opcode::I64ShrU,
            Instr::I64Rotl => Opcode::I64Rotl,
            Instr::I64Rotr => Opcode::I64Rotr,
            Instr::I32WrapI64 => Opcode::I32WrapI64,
            Instr::I64ExtendI32S => Opcode::I64ExtendI32S,
            Instr::I64ExtendI32U => Opcode::I64ExtendI32U,
            Instr::I32Extend8S => Opcode::I32Extend8S,
            Instr::I32Extend16S => Opcode::I32Extend16S,
            Instr::I64Extend8S => Opcode::I64Extend8S,
            Instr::I64Extend16S => Opcode::I64Extend16S,
            Instr::I64Extend32S => Opcode::I64Extend32S,
            Instr::MemoryCopy => Opcode::Prefix,
            Instr::MemoryFill => Opcode::Prefix,
        }
    }
}
