//! Copies and fills of ranges of the memory.

ghost use Rattle.std.specs.Prelude.{◌≡◌, ℕ, List, Option};
ghost use Rattle.wasm_syntax.specs.declared.types.Value.{Value as Values};
ghost use Rattle.wasm_syntax.specs.Memory.{is_inside as inside};
ghost use Rattle.wasm_syntax.specs.Reduction.{doing, topmost};
ghost use Rattle.wasm_syntax.specs.ReductionRows.{copy_memory, fill_memory};
ghost use Rattle.wasm_machine.specs.Acted.{acted_as, stores, ranged_by, gives_values, further_by};

use crate::simple::{Acts, index_of};
use crate::stack::Stack;
use gate_base::Cause;
use wasm_store::Memory;
use wasm_syntax::{Instr, Value};

/// The units beyond the first of a copy or a fill: one for each whole 64 of the bytes that the topmost operand counts.
pub(crate) fn further_units(values: &Stack<Value>) -> u32
    ensures { result ≡ further_by (topmost values.now.members) }
{
    match values.get(0) {
        Some(Value::I32(count)) => count / 64,
        Some(Value::I64(_)) | None => 0,
    }
}

/// Whether so many bytes from a place on are inside.
fn is_inside(memory: &Memory, at: u32, count: u32) -> bool
    ensures { result ≡ inside memory.now.bytes at count }
{
    at as usize + count as usize <= memory.as_slice().len()
}

/// Whether a copy or a fill has its operands, and its ranges are inside.
pub(crate) fn is_fine(i: &Instr, memory: &Memory, values: &Stack<Value>) -> bool
    ensures { (t : List (Option ℕ)) (g own : List Values) → result ≡ gives_values (ranged_by i.now (stores memory.now.bytes t g) own values.now.members) }
{
    let (Some(c), Some(b), Some(a)) = (values.get(0), values.get(1), values.get(2)) else {
        return false;
    };
    let (Some(a), Some(b), Some(c)) = (index_of(a), index_of(b), index_of(c)) else {
        return false;
    };
    match i {
        Instr::MemoryCopy => is_inside(memory, b, c) && is_inside(memory, a, c),
        Instr::MemoryFill => is_inside(memory, a, c),
        _ => false,
    }
}

/// `memory.copy`
fn copy(memory: &mut Memory, values: &mut Stack<Value>) -> Acts
    ensures acts { (t : List (Option ℕ)) (g own : List Values) → doing copy_memory (stores memory.old.bytes t g) own values.old.members ≡ acted_as result values.new.members (stores memory.new.bytes t g) own }
    ensures room { values.new.room ≡ values.old.room }
    ensures most { memory.new.most ≡ memory.old.most }
{
    let (Some(c), Some(b), Some(a)) = (values.pop(), values.pop(), values.pop()) else {
        return Acts::Lacks;
    };
    let (Some(to), Some(from), Some(count)) = (index_of(a), index_of(b), index_of(c)) else {
        return Acts::Lacks;
    };
    match memory.copy(to, from, count) {
        Some(()) => Acts::Fine,
        None => Acts::Faults(Cause::Memory),
    }
}

/// `memory.fill`
fn fill(memory: &mut Memory, values: &mut Stack<Value>) -> Acts
    ensures acts { (t : List (Option ℕ)) (g own : List Values) → doing fill_memory (stores memory.old.bytes t g) own values.old.members ≡ acted_as result values.new.members (stores memory.new.bytes t g) own }
    ensures room { values.new.room ≡ values.old.room }
    ensures most { memory.new.most ≡ memory.old.most }
{
    let (Some(c), Some(b), Some(a)) = (values.pop(), values.pop(), values.pop()) else {
        return Acts::Lacks;
    };
    let (Some(at), Some(v), Some(count)) = (index_of(a), index_of(b), index_of(c)) else {
        return Acts::Lacks;
    };
    match memory.fill(at, v, count) {
        Some(()) => Acts::Fine,
        None => Acts::Faults(Cause::Memory),
    }
}

/// A copy or a fill.
pub(crate) fn move_bytes(i: &Instr, memory: &mut Memory, values: &mut Stack<Value>) -> Acts
    ensures acts { (t : List (Option ℕ)) (g own : List Values) → ranged_by i.now (stores memory.old.bytes t g) own values.old.members ≡ acted_as result values.new.members (stores memory.new.bytes t g) own }
    ensures room { values.new.room ≡ values.old.room }
    ensures most { memory.new.most ≡ memory.old.most }
{
    match i {
        Instr::MemoryCopy => copy(memory, values),
        Instr::MemoryFill => fill(memory, values),
        _ => Acts::Lacks,
    }
}
