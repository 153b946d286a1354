//! Types, names and data.

ghost use Rattle.std.specs.Prelude.{◌≡◌, ◌++◌, ◌∷◌, [], OnOk};
ghost use Rattle.wasm_writer.specs.Written.{value_type_bytes, block_type_bytes, flag_bytes, maximum_bytes, limits_bytes, table_type_bytes, memory_type_bytes, function_type_bytes, global_type_bytes, sized_bytes};

use crate::rules::{Form, sized, vector};
use gate_base::{Octets, OutOfMemory, Text};
use std::alloc::Global;
use wasm_syntax::{BlockType, FunctionType, GlobalType, Limits, ValueType, write_u32};

/// The byte of the type of a value.
fn value_type_byte(of: ValueType) -> u8
    ensures { value_type_bytes of ≡ result ∷ [] }
{
    match of {
        ValueType::I32 => 0x7F,
        ValueType::I64 => 0x7E,
    }
}

/// Puts the type of a value at the end.
pub(crate) fn write_value_type(out: &mut Octets, of: ValueType) -> Result<(), OutOfMemory>
    ensures { OnOk result (out.new ≡ out.old ++ value_type_bytes of) }
{
    out.push(value_type_byte(of))
}

/// Puts the type of a block at the end.
pub(crate) fn write_block_type(out: &mut Octets, of: BlockType) -> Result<(), OutOfMemory>
    ensures { OnOk result (out.new ≡ out.old ++ block_type_bytes of) }
{
    match of {
        BlockType::Empty => out.push(0x40),
        BlockType::Value(of) => write_value_type(out, of),
    }
}

/// Puts a flag at the end.
fn write_flag(out: &mut Octets, flag: bool) -> Result<(), OutOfMemory>
    ensures { OnOk result (out.new ≡ out.old ++ flag_bytes flag) }
{
    if flag { out.push(1) } else { out.push(0) }
}

/// The type of a value.
pub(crate) struct ValueTypes;

impl Form<ValueType> for ValueTypes {
    ghost bytes = { value_type_bytes };

    fn write(_alloc: Global, out: &mut Octets, x: &ValueType) -> Result<(), OutOfMemory> {
        write_value_type(out, *x)
    }
}

/// The type of a function.
pub(crate) struct FunctionTypes;

impl Form<FunctionType> for FunctionTypes {
    ghost bytes = { function_type_bytes };

    #[tactic(auto, unfolding(crate::specs::Written::function_type_bytes))]
    fn write(alloc: Global, out: &mut Octets, x: &FunctionType) -> Result<(), OutOfMemory> {
        out.push(0x60)?;
        vector::<ValueType, ValueTypes>(alloc, out, &x.parameters)?;
        vector::<ValueType, ValueTypes>(alloc, out, &x.results)
    }
}

/// Puts the maximum of limits at the end, where there is one.
fn write_maximum(out: &mut Octets, maximum: Option<u32>) -> Result<(), OutOfMemory>
    ensures { OnOk result (out.new ≡ out.old ++ maximum_bytes maximum) }
{
    match maximum {
        Some(n) => write_u32(out, n),
        None => Ok(()),
    }
}

/// Puts limits at the end.
fn write_limits(out: &mut Octets, of: Limits) -> Result<(), OutOfMemory>
    ensures { OnOk result (out.new ≡ out.old ++ limits_bytes of) }
{
    write_flag(out, of.maximum.is_some())?;
    write_u32(out, of.minimum)?;
    write_maximum(out, of.maximum)
}

/// Puts the limits of a table at the end.
#[tactic(auto, unfolding(crate::specs::Written::table_type_bytes))]
pub(crate) fn write_table_type(out: &mut Octets, of: Limits) -> Result<(), OutOfMemory>
    ensures { OnOk result (out.new ≡ out.old ++ table_type_bytes of) }
{
    out.push(0x70)?;
    write_limits(out, of)
}

/// Puts the limits of a memory at the end.
#[tactic(auto, unfolding(crate::specs::Written::memory_type_bytes))]
pub(crate) fn write_memory_type(out: &mut Octets, of: Limits) -> Result<(), OutOfMemory>
    ensures { OnOk result (out.new ≡ out.old ++ memory_type_bytes of) }
{
    write_limits(out, of)
}

/// Puts the type of a global at the end.
#[tactic(auto, unfolding(crate::specs::Written::global_type_bytes))]
pub(crate) fn write_global_type(out: &mut Octets, of: GlobalType) -> Result<(), OutOfMemory>
    ensures { OnOk result (out.new ≡ out.old ++ global_type_bytes of) }
{
    write_value_type(out, of.value)?;
    write_flag(out, of.is_mutable)
}

/// The limits of a table.
pub(crate) struct TableTypes;

impl Form<Limits> for TableTypes {
    ghost bytes = { table_type_bytes };

    fn write(_alloc: Global, out: &mut Octets, x: &Limits) -> Result<(), OutOfMemory> {
        write_table_type(out, *x)
    }
}

/// The limits of a memory.
pub(crate) struct MemoryTypes;

impl Form<Limits> for MemoryTypes {
    ghost bytes = { memory_type_bytes };

    fn write(_alloc: Global, out: &mut Octets, x: &Limits) -> Result<(), OutOfMemory> {
        write_memory_type(out, *x)
    }
}

/// Puts a name at the end.
pub(crate) fn write_name(out: &mut Octets, name: &Text) -> Result<(), OutOfMemory>
    ensures { OnOk result (out.new ≡ out.old ++ sized_bytes name.now) }
{
    sized(out, name.as_str().as_bytes())
}
