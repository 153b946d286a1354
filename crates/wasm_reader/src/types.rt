//! Types and names.

ghost use Rattle.std.specs.Prelude.{◌≡◌, ◌≤◌, length, MatchOption, IfOk, true, false};
ghost use Rattle.std.specs.Str.{is_utf8};
ghost use Rattle.wasm_syntax.specs.Items.{byte_as, u32 as u32_format, at_most};
ghost use Rattle.wasm_syntax.specs.Format.{bounded};
ghost use Rattle.wasm_syntax.specs.Grammar.{value_type_of, function_type as function_type_format, maximum as maximum_format, limits as limits_format, table_type as table_type_format, memory_type as memory_type_format, global_type as global_type_format, name as name_format, octets as octets_format};
ghost use Rattle.wasm_reader.specs.Steps.{AreWithin, IsInside, Reads};

use crate::ends::{Bounds, ReadEnd};
use crate::items::{BAD_NAME, check, count, cut_off, exactly, flag, index, value_type};
use crate::rules::{Rule, vector};
use gate_base::{Octets, Text};
use std::alloc::Global;
use wasm_syntax::{FunctionType, GlobalType, Limits, ValueType};

/// The type of a value.
pub(crate) struct ValueTypes;

impl Rule<ValueType> for ValueTypes {
    ghost format = { byte_as value_type_of };

    fn read(_alloc: Global, b: &[u8], at: usize, k: Bounds) -> Result<(ValueType, usize), ReadEnd> {
        value_type(b, at, k)
    }
}

/// An index.
pub(crate) struct Numbers;

impl Rule<u32> for Numbers {
    ghost format = { u32_format };

    fn read(_alloc: Global, b: &[u8], at: usize, k: Bounds) -> Result<(u32, usize), ReadEnd> {
        index(b, at, k)
    }
}

/// The type of a function.
pub(crate) struct FunctionTypes;

impl Rule<FunctionType> for FunctionTypes {
    ghost format = { function_type_format };

    #[tactic(auto, unfolding(wasm_syntax::specs::Grammar::function_type))]
    fn read(
        alloc: Global,
        b: &[u8],
        at: usize,
        k: Bounds,
    ) -> Result<(FunctionType, usize), ReadEnd> {
        let (_form, at) = exactly(b, at, k, 0x60)?;
        let (parameters, at) = vector::<ValueType, ValueTypes>(alloc, b, at, k)?;
        let (results, at) = vector::<ValueType, ValueTypes>(alloc, b, at, k)?;
        Ok((
            FunctionType {
                parameters,
                results,
            },
            at,
        ))
    }
}

/// The maximum of limits, where the flag says that there is one.
fn maximum(
    b: &[u8],
    at: usize,
    k: Bounds,
    has_maximum: bool,
) -> Result<(Option<u32>, usize), ReadEnd>
    requires place { at ≤ length b.now }
    requires bounds { AreWithin b.now k }
    ensures { Reads (maximum_format has_maximum) b.now at k result }
{
    if !has_maximum {
        return Ok((None, at));
    }
    let (n, at) = index(b, at, k)?;
    Ok((Some(n), at))
}

/// The limits of a table.
#[tactic(auto, unfolding(wasm_syntax::specs::Grammar::limits, wasm_syntax::specs::Grammar::table_type))]
pub(crate) fn table_type(b: &[u8], at: usize, k: Bounds) -> Result<(Limits, usize), ReadEnd>
    requires place { at ≤ length b.now }
    requires bounds { AreWithin b.now k }
    ensures { Reads table_type_format b.now at k result }
{
    let (_element, at) = exactly(b, at, k, 0x70)?;
    let (has_maximum, at) = flag(b, at, k)?;
    let (minimum, at) = count(b, at, k, 65536)?;
    let (maximum, at) = maximum(b, at, k, has_maximum)?;
    Ok((Limits { minimum, maximum }, at))
}

/// The limits of a memory.
#[tactic(auto, unfolding(wasm_syntax::specs::Grammar::limits, wasm_syntax::specs::Grammar::memory_type))]
pub(crate) fn memory_type(b: &[u8], at: usize, k: Bounds) -> Result<(Limits, usize), ReadEnd>
    requires place { at ≤ length b.now }
    requires bounds { AreWithin b.now k }
    ensures { Reads memory_type_format b.now at k result }
{
    let (has_maximum, at) = flag(b, at, k)?;
    let (minimum, at) = index(b, at, k)?;
    let (maximum, at) = maximum(b, at, k, has_maximum)?;
    Ok((Limits { minimum, maximum }, at))
}

/// The type of a global.
#[tactic(auto, unfolding(wasm_syntax::specs::Grammar::global_type))]
pub(crate) fn global_type(b: &[u8], at: usize, k: Bounds) -> Result<(GlobalType, usize), ReadEnd>
    requires place { at ≤ length b.now }
    requires bounds { AreWithin b.now k }
    ensures { Reads global_type_format b.now at k result }
{
    let (value, at) = value_type(b, at, k)?;
    let (is_mutable, at) = flag(b, at, k)?;
    Ok((GlobalType { value, is_mutable }, at))
}

/// The limits of a table.
pub(crate) struct TableTypes;

impl Rule<Limits> for TableTypes {
    ghost format = { table_type_format };

    fn read(_alloc: Global, b: &[u8], at: usize, k: Bounds) -> Result<(Limits, usize), ReadEnd> {
        table_type(b, at, k)
    }
}

/// The limits of a memory.
pub(crate) struct MemoryTypes;

impl Rule<Limits> for MemoryTypes {
    ghost format = { memory_type_format };

    fn read(_alloc: Global, b: &[u8], at: usize, k: Bounds) -> Result<(Limits, usize), ReadEnd> {
        memory_type(b, at, k)
    }
}

/// Bytes as a text, where they are UTF-8.
fn text_of(bytes: &[u8]) -> Option<&str>
    ensures { MatchOption result (is_utf8 bytes.now ≡ false) (λ s. (s.now ≡ bytes.now) × (is_utf8 bytes.now ≡ true)) }
{
    match str::from_utf8(bytes) {
        Ok(text) => Some(text),
        Err(_) => None,
    }
}

/// A name.
#[tactic(auto, unfolding(wasm_syntax::specs::Grammar::name))]
pub(crate) fn name(alloc: Global, b: &[u8], at: usize, k: Bounds) -> Result<(Text, usize), ReadEnd>
    requires place { at ≤ length b.now }
    requires bounds { AreWithin b.now k }
    ensures reads { Reads name_format b.now at k result }
    ensures inside { IfOk result (λ x. IsInside x.1 k) }
{
    let (n, start) = index(b, at, k)?;
    let n = n as usize;
    if b.len() - start < n {
        return Err(cut_off(b));
    }
    let Some(text) = text_of(&b[start..start + n]) else {
        return Err(ReadEnd::Refused {
            number: BAD_NAME,
            place: start,
        });
    };
    check(start + n, k)?;
    Ok((Text::of(alloc, text)?, start + n))
}

/// Bytes of data.
#[tactic(auto, unfolding(wasm_syntax::specs::Grammar::octets))]
pub(crate) fn octets(
    alloc: Global,
    b: &[u8],
    at: usize,
    k: Bounds,
) -> Result<(Octets, usize), ReadEnd>
    requires place { at ≤ length b.now }
    requires bounds { AreWithin b.now k }
    ensures { Reads octets_format b.now at k result }
{
    let (n, start) = index(b, at, k)?;
    let n = n as usize;
    if b.len() - start < n {
        return Err(cut_off(b));
    }
    check(start + n, k)?;
    Ok((Octets::from_slice(alloc, &b[start..start + n])?, start + n))
}
