//! Instructions and expressions.

ghost use Rattle.std.specs.Prelude.{◌≡◌, ◌≤◌, ◌<◌, ◌-◌, ◌++◌, ◌∷◌, [], true, length, reverse, drop, IfOk, Some, None, if◌then◌else◌};
ghost use Rattle.wasm_syntax.specs.Opcodes.{shape_of, prefixed_instr as instr_of};
ghost use Rattle.wasm_syntax.specs.Items.{byte_as, u32 as u32_format, vector as vector_format};
ghost use Rattle.wasm_syntax.specs.Format.{bounded};
ghost use Rattle.wasm_syntax.specs.Grammar.{is_placed, has_room, open_after, opcode_said, opcode_judged, memory_argument as memory_argument_format, reserved as reserved_format, operands as operands_format, instruction as instruction_format, expression as expression_format};
ghost use Rattle.wasm_reader.specs.Steps.{AreWithin, Reads};

use crate::ends::{Bounds, ReadEnd};
use crate::items::{
    BAD_OPCODE, FLOAT, OVER_LIMIT, block_type, cut_off, exactly, index, judged, long,
    prefixed_number, word,
};
use crate::rules::vector;
use crate::types::Numbers;
use gate_base::{Members, OutOfMemory};
use std::alloc::Global;
use wasm_syntax::{
    Expression, Instr, Labels, MemoryArgument, Opcode, OpcodeByte, Open, Prefixed, opcode_at,
};

/// The blocks that are open, the innermost last.
type Blocks = Members<Open>;

/// Whether an `else` stands in an `if` that has had none.
fn takes_else(blocks: &Blocks) -> bool
    ensures { result ≡ is_placed (reverse blocks.now) Opcode.Else }
{
    let n = blocks.len();
    n > 0 && matches!(blocks.get(n - 1), Open::InThen)
}

/// Whether an opcode may stand there.
fn may_stand(blocks: &Blocks, opcode: Opcode) -> bool
    ensures { result ≡ is_placed (reverse blocks.now) opcode }
{
    match opcode {
        Opcode::Else => takes_else(blocks),
        _ => true,
    }
}

/// Whether one more block may be open.
fn room_for(blocks: &Blocks, opcode: Opcode) -> bool
    ensures { result ≡ has_room (reverse blocks.now) opcode }
{
    match opcode {
        Opcode::Block | Opcode::Loop | Opcode::If => blocks.len() < 256,
        _ => true,
    }
}

/// Opens a block, so that the expression goes on.
fn opened(blocks: &mut Blocks, block: Open) -> Result<bool, OutOfMemory>
    ensures { IfOk result (λ on. (on ≡ true) × (blocks.new ≡ blocks.old ++ block ∷ [])) }
{
    blocks.push(block)?;
    Ok(true)
}

/// Opens and closes blocks as an opcode says, and whether the expression goes on.
fn goes_on(blocks: &mut Blocks, opcode: Opcode) -> Result<bool, OutOfMemory>
    ensures { IfOk result (λ on. open_after (reverse blocks.old) opcode ≡ (if on then Some (reverse blocks.new) else None)) }
{
    match opcode {
        Opcode::Block | Opcode::Loop => opened(blocks, Open::InOther),
        Opcode::If => opened(blocks, Open::InThen),
        Opcode::Else => {
            let _closed = blocks.pop();
            opened(blocks, Open::InOther)
        }
        Opcode::End => Ok(blocks.pop().is_some()),
        _ => Ok(true),
    }
}

/// What a byte says as an opcode.
fn opcode_of(blocks: &Blocks, said: OpcodeByte) -> Result<Opcode, u8>
    ensures { result ≡ opcode_said (reverse blocks.now) said }
{
    match said {
        OpcodeByte::Known(opcode) => {
            if !may_stand(blocks, opcode) {
                return Err(BAD_OPCODE);
            }
            Ok(opcode)
        }
        OpcodeByte::Float => Err(FLOAT),
        OpcodeByte::Unknown => Err(BAD_OPCODE),
    }
}

/// Reads an opcode that may stand there.
fn opcode_byte(b: &[u8], at: usize, k: Bounds, blocks: &Blocks) -> Result<(Opcode, usize), ReadEnd>
    requires place { at ≤ length b.now }
    requires bounds { AreWithin b.now k }
    ensures read { Reads (byte_as (opcode_judged (reverse blocks.now))) b.now at k result }
    ensures behind { IfOk result (λ x. 0 < x.1) }
{
    if at == b.len() {
        return Err(cut_off(b));
    }
    judged(b, at, k, opcode_of(blocks, opcode_at(b[at])))
}

/// Reads an opcode.
fn opcode(b: &[u8], at: usize, k: Bounds, blocks: &Blocks) -> Result<(Opcode, usize), ReadEnd>
    requires place { at ≤ length b.now }
    requires bounds { AreWithin b.now k }
    ensures read { Reads (bounded (has_room (reverse blocks.now)) (byte_as (opcode_judged (reverse blocks.now)))) b.now at k result }
    ensures behind { IfOk result (λ x. 0 < x.1) }
{
    let (opcode, behind) = opcode_byte(b, at, k, blocks)?;
    if !room_for(blocks, opcode) {
        return Err(ReadEnd::Refused {
            number: OVER_LIMIT,
            place: at,
        });
    }
    Ok((opcode, behind))
}

/// Reads how an instruction reaches the memory.
#[tactic(auto, unfolding(wasm_syntax::specs::Grammar::memory_argument))]
fn memory_argument(b: &[u8], at: usize, k: Bounds) -> Result<(MemoryArgument, usize), ReadEnd>
    requires place { at ≤ length b.now }
    requires bounds { AreWithin b.now k }
    ensures { Reads memory_argument_format b.now at k result }
{
    let (align, at) = index(b, at, k)?;
    let (offset, at) = index(b, at, k)?;
    Ok((MemoryArgument { align, offset }, at))
}

/// Reads the bytes 0 that name the memories of a copy or a fill.
fn reserved(b: &[u8], at: usize, k: Bounds, which: Prefixed) -> Result<(u8, usize), ReadEnd>
    requires place { at ≤ length b.now }
    requires bounds { AreWithin b.now k }
    ensures { Reads (reserved_format which) b.now at k result }
{
    match which {
        Prefixed::MemoryCopy => {
            let (_to, at) = exactly(b, at, k, 0)?;
            exactly(b, at, k, 0)
        }
        Prefixed::MemoryFill => exactly(b, at, k, 0),
    }
}

/// The instruction of such a number.
fn prefixed_instr(which: Prefixed) -> Instr
    ensures { result ≡ instr_of which }
{
    match which {
        Prefixed::MemoryCopy => Instr::MemoryCopy,
        Prefixed::MemoryFill => Instr::MemoryFill,
    }
}

/// Reads the labels of a `br_table`, without the one for every other operand.
fn labels(alloc: Global, b: &[u8], at: usize, k: Bounds) -> Result<(Labels, usize), ReadEnd>
    requires place { at ≤ length b.now }
    requires bounds { AreWithin b.now k }
    ensures { Reads (vector_format u32_format) b.now at k result }
{
    let (labels, at) = vector::<u32, Numbers>(alloc, b, at, k)?;
    Ok((Labels::new(alloc, labels)?, at))
}

/// The instruction that holds what was read.
macro_rules! holding {
    ($read:expr, $instr:ident) => {
        match $read {
            Ok((held, at)) => Ok((Instr::$instr(held), at)),
            Err(end) => Err(end),
        }
    };
}

/// Reads what stands behind an opcode.
#[tactic(auto, unfolding(wasm_syntax::specs::Grammar::operands))]
fn operands(
    alloc: Global,
    b: &[u8],
    at: usize,
    k: Bounds,
    opcode: Opcode,
) -> Result<(Instr, usize), ReadEnd>
    requires place { at ≤ length b.now }
    requires behind { 0 < at }
    requires bounds { AreWithin b.now k }
    ensures { Reads (operands_format (shape_of opcode)) b.now at k result }
{
    match opcode {
        Opcode::Unreachable => Ok((Instr::Unreachable, at)),
        Opcode::Nop => Ok((Instr::Nop, at)),
        Opcode::Block => holding!(block_type(b, at, k), Block),
        Opcode::Loop => holding!(block_type(b, at, k), Loop),
        Opcode::If => holding!(block_type(b, at, k), If),
        Opcode::Else => Ok((Instr::Else, at)),
        Opcode::End => Ok((Instr::End, at)),
        Opcode::Br => holding!(index(b, at, k), Br),
        Opcode::BrIf => holding!(index(b, at, k), BrIf),
        Opcode::BrTable => {
            let (labels, at) = labels(alloc, b, at, k)?;
            let (default, at) = index(b, at, k)?;
            Ok((Instr::BrTable { labels, default }, at))
        }
        Opcode::Return => Ok((Instr::Return, at)),
        Opcode::Call => holding!(index(b, at, k), Call),
        Opcode::CallIndirect => {
            let (n, at) = index(b, at, k)?;
            let (_zero, at) = exactly(b, at, k, 0)?;
            Ok((Instr::CallIndirect(n), at))
        }
        Opcode::Drop => Ok((Instr::Drop, at)),
        Opcode::Select => Ok((Instr::Select, at)),
        Opcode::LocalGet => holding!(index(b, at, k), LocalGet),
        Opcode::LocalSet => holding!(index(b, at, k), LocalSet),
        Opcode::LocalTee => holding!(index(b, at, k), LocalTee),
        Opcode::GlobalGet => holding!(index(b, at, k), GlobalGet),
        Opcode::GlobalSet => holding!(index(b, at, k), GlobalSet),
        Opcode::I32Load => holding!(memory_argument(b, at, k), I32Load),
        Opcode::I64Load => holding!(memory_argument(b, at, k), I64Load),
        Opcode::I32Load8S => holding!(memory_argument(b, at, k), I32Load8S),
        Opcode::I32Load8U => holding!(memory_argument(b, at, k), I32Load8U),
        Opcode::I32Load16S => holding!(memory_argument(b, at, k), I32Load16S),
        Opcode::I32Load16U => holding!(memory_argument(b, at, k), I32Load16U),
        Opcode::I64Load8S => holding!(memory_argument(b, at, k), I64Load8S),
        Opcode::I64Load8U => holding!(memory_argument(b, at, k), I64Load8U),
        Opcode::I64Load16S => holding!(memory_argument(b, at, k), I64Load16S),
        Opcode::I64Load16U => holding!(memory_argument(b, at, k), I64Load16U),
        Opcode::I64Load32S => holding!(memory_argument(b, at, k), I64Load32S),
        Opcode::I64Load32U => holding!(memory_argument(b, at, k), I64Load32U),
        Opcode::I32Store => holding!(memory_argument(b, at, k), I32Store),
        Opcode::I64Store => holding!(memory_argument(b, at, k), I64Store),
        Opcode::I32Store8 => holding!(memory_argument(b, at, k), I32Store8),
        Opcode::I32Store16 => holding!(memory_argument(b, at, k), I32Store16),
        Opcode::I64Store8 => holding!(memory_argument(b, at, k), I64Store8),
        Opcode::I64Store16 => holding!(memory_argument(b, at, k), I64Store16),
        Opcode::I64Store32 => holding!(memory_argument(b, at, k), I64Store32),
        Opcode::MemorySize => {
            let (_zero, at) = exactly(b, at, k, 0)?;
            Ok((Instr::MemorySize, at))
        }
        Opcode::MemoryGrow => {
            let (_zero, at) = exactly(b, at, k, 0)?;
            Ok((Instr::MemoryGrow, at))
        }
        Opcode::I32Const => holding!(word(b, at, k), I32Const),
        Opcode::I64Const => holding!(long(b, at, k), I64Const),
        Opcode::I32Eqz => Ok((Instr::I32Eqz, at)),
        Opcode::I32Eq => Ok((Instr::I32Eq, at)),
        Opcode::I32Ne => Ok((Instr::I32Ne, at)),
        Opcode::I32LtS => Ok((Instr::I32LtS, at)),
        Opcode::I32LtU => Ok((Instr::I32LtU, at)),
        Opcode::I32GtS => Ok((Instr::I32GtS, at)),
        Opcode::I32GtU => Ok((Instr::I32GtU, at)),
        Opcode::I32LeS => Ok((Instr::I32LeS, at)),
        Opcode::I32LeU => Ok((Instr::I32LeU, at)),
        Opcode::I32GeS => Ok((Instr::I32GeS, at)),
        Opcode::I32GeU => Ok((Instr::I32GeU, at)),
        Opcode::I64Eqz => Ok((Instr::I64Eqz, at)),
        Opcode::I64Eq => Ok((Instr::I64Eq, at)),
        Opcode::I64Ne => Ok((Instr::I64Ne, at)),
        Opcode::I64LtS => Ok((Instr::I64LtS, at)),
        Opcode::I64LtU => Ok((Instr::I64LtU, at)),
        Opcode::I64GtS => Ok((Instr::I64GtS, at)),
        Opcode::I64GtU => Ok((Instr::I64GtU, at)),
        Opcode::I64LeS => Ok((Instr::I64LeS, at)),
        Opcode::I64LeU => Ok((Instr::I64LeU, at)),
        Opcode::I64GeS => Ok((Instr::I64GeS, at)),
        Opcode::I64GeU => Ok((Instr::I64GeU, at)),
        Opcode::I32Clz => Ok((Instr::I32Clz, at)),
        Opcode::I32Ctz => Ok((Instr::I32Ctz, at)),
        Opcode::I32Popcnt => Ok((Instr::I32Popcnt, at)),
        Opcode::I32Add => Ok((Instr::I32Add, at)),
        Opcode::I32Sub => Ok((Instr::I32Sub, at)),
        Opcode::I32Mul => Ok((Instr::I32Mul, at)),
        Opcode::I32DivS => Ok((Instr::I32DivS, at)),
        Opcode::I32DivU => Ok((Instr::I32DivU, at)),
        Opcode::I32RemS => Ok((Instr::I32RemS, at)),
        Opcode::I32RemU => Ok((Instr::I32RemU, at)),
        Opcode::I32And => Ok((Instr::I32And, at)),
        Opcode::I32Or => Ok((Instr::I32Or, at)),
        Opcode::I32Xor => Ok((Instr::I32Xor, at)),
        Opcode::I32Shl => Ok((Instr::I32Shl, at)),
        Opcode::I32ShrS => Ok((Instr::I32ShrS, at)),
        Opcode::I32ShrU => Ok((Instr::I32ShrU, at)),
        Opcode::I32Rotl => Ok((Instr::I32Rotl, at)),
        Opcode::I32Rotr => Ok((Instr::I32Rotr, at)),
        Opcode::I64Clz => Ok((Instr::I64Clz, at)),
        Opcode::I64Ctz => Ok((Instr::I64Ctz, at)),
        Opcode::I64Popcnt => Ok((Instr::I64Popcnt, at)),
        Opcode::I64Add => Ok((Instr::I64Add, at)),
        Opcode::I64Sub => Ok((Instr::I64Sub, at)),
        Opcode::I64Mul => Ok((Instr::I64Mul, at)),
        Opcode::I64DivS => Ok((Instr::I64DivS, at)),
        Opcode::I64DivU => Ok((Instr::I64DivU, at)),
        Opcode::I64RemS => Ok((Instr::I64RemS, at)),
        Opcode::I64RemU => Ok((Instr::I64RemU, at)),
        Opcode::I64And => Ok((Instr::I64And, at)),
        Opcode::I64Or => Ok((Instr::I64Or, at)),
        Opcode::I64Xor => Ok((Instr::I64Xor, at)),
        Opcode::I64Shl => Ok((Instr::I64Shl, at)),
        Opcode::I64ShrS => Ok((Instr::I64ShrS, at)),
        Opcode::I64ShrU => Ok((Instr::I64ShrU, at)),
        Opcode::I64Rotl => Ok((Instr::I64Rotl, at)),
        Opcode::I64Rotr => Ok((Instr::I64Rotr, at)),
        Opcode::I32WrapI64 => Ok((Instr::I32WrapI64, at)),
        Opcode::I64ExtendI32S => Ok((Instr::I64ExtendI32S, at)),
        Opcode::I64ExtendI32U => Ok((Instr::I64ExtendI32U, at)),
        Opcode::I32Extend8S => Ok((Instr::I32Extend8S, at)),
        Opcode::I32Extend16S => Ok((Instr::I32Extend16S, at)),
        Opcode::I64Extend8S => Ok((Instr::I64Extend8S, at)),
        Opcode::I64Extend16S => Ok((Instr::I64Extend16S, at)),
        Opcode::I64Extend32S => Ok((Instr::I64Extend32S, at)),
        Opcode::Prefix => {
            let (which, at) = prefixed_number(b, at, k)?;
            let (_zero, at) = reserved(b, at, k, which)?;
            Ok((prefixed_instr(which), at))
        }
    }
}

/// Reads an instruction.
#[tactic(auto, unfolding(wasm_syntax::specs::Grammar::instruction))]
fn instruction(
    alloc: Global,
    b: &[u8],
    at: usize,
    k: Bounds,
    blocks: &Blocks,
) -> Result<(Instr, usize), ReadEnd>
    requires place { at ≤ length b.now }
    requires bounds { AreWithin b.now k }
    ensures { Reads (instruction_format (reverse blocks.now)) b.now at k result }
{
    let (opcode, at) = opcode(b, at, k, blocks)?;
    operands(alloc, b, at, k, opcode)
}

/// Reads an expression, up to the `end` of the whole.
pub(crate) fn expression(
    alloc: Global,
    b: &[u8],
    at: usize,
    k: Bounds,
) -> Result<(Expression, usize), ReadEnd>
    requires place { at ≤ length b.now }
    requires bounds { AreWithin b.now k }
    ensures { Reads expression_format b.now at k result }
{
    let mut body = Expression::new(alloc);
    let mut blocks = Members::new(alloc);
    let mut place = at;
    // Each instruction takes a byte at least, so there are no more of them than bytes.
    for _ in at..b.len() {
        let (instr, behind) = instruction(alloc, b, place, k, &blocks)?;
        let opcode = instr.opcode();
        body.push(instr)?;
        place = behind;
        if !goes_on(&mut blocks, opcode)? {
            body.settle();
            return Ok((body, place));
        }
    }
    Err(cut_off(b))
}
