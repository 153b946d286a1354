//! Arguments as they are written.

ghost use Rattle.std.specs.Prelude.{map, string_bytes, IfOk, ◌≡◌};
ghost use Rattle.std.specs.Option.{SomeIff, option_map};
ghost use Rattle.wasm_invoke.specs.Arguments.{Fits, value_of, AllFit, values_of};

use gate_base::OutOfMemory;
use std::alloc::Global;
use wasm_syntax::{Value, ValueType};

/// The value of a type that a word of decimal digits writes, where it is one of the type: below 2^32 or 2^64.
fn argument(of: ValueType, word: &str) -> Option<Value>
    ensures { SomeIff result (Fits of word.now) (value_of of word.now) }
{
    if word.starts_with('+') {
        return None;
    }
    match of {
        ValueType::I32 => match word.parse::<u32>() {
            Ok(n) => Some(Value::I32(n)),
            Err(_) => None,
        },
        ValueType::I64 => match word.parse::<u64>() {
            Ok(n) => Some(Value::I64(n)),
            Err(_) => None,
        },
    }
}

/// The values that words write, where there is one for each of these types, in order, and each is one of its type.
pub(crate) fn arguments(
    alloc: Global,
    types: &[ValueType],
    words: &[String],
) -> Result<Option<Vec<Value>>, OutOfMemory>
    ensures { IfOk result (λ values. SomeIff (option_map (λ v. v.items) values) (AllFit types.now (map string_bytes words.now)) (values_of types.now (map string_bytes words.now))) }
{
    if types.len() != words.len() {
        return Ok(None);
    }
    let mut values = Vec::with_capacity(alloc, words.len())?;
    for i in 0..types.len() {
        match argument(types[i], words[i].as_str()) {
            Some(value) => values.push(value)?,
            None => return Ok(None),
        }
    }
    Ok(Some(values))
}
