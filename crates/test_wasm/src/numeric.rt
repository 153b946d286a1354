//! Operators on numbers.

ghost use Rattle.std.specs.Prelude.{◌≡◌};
ghost use Rattle.wasm_numeric.specs.Applied.{type_of};

use crate::bytes::{Around, read_end};
use gate_base::OutOfMemory;
use std::alloc::Global;
use test_rows::{number, word};
use wasm_numeric::{NumTrap, Numeric, apply1, apply2, operator_of};
use wasm_reader::read_module;
use wasm_syntax::{Instr, Module, Value, ValueType};

/// A value of a type.
fn of_type(t: ValueType, n: u64) -> Value
    ensures { type_of result ≡ t }
{
    match t {
        ValueType::I32 => Value::I32((n % 0x1_0000_0000) as u32),
        ValueType::I64 => Value::I64(n),
    }
}

/// What an instruction makes of two numbers; of one it takes the second.
fn applied(i: &Instr, a: u64, b: u64) -> Option<Result<Value, NumTrap>> {
    match operator_of(i) {
        Numeric::One(op) => Some(Ok(apply1(op, of_type(op.operand(), b)))),
        Numeric::Two(op) => {
            let t = op.parts().0;
            Some(apply2(op, of_type(t, a), of_type(t, b)))
        }
        Numeric::Other => None,
    }
}

/// The first instruction of a module's first function.
fn first_instruction(m: &Module) -> Option<&Instr> {
    match m.codes.as_slice().first() {
        Some(code) => code.body.as_slice().first(),
        None => None,
    }
}

/// A value, with its type.
pub fn shown(alloc: Global, v: Value) -> Result<String, OutOfMemory> {
    match v {
        Value::I32(n) => format!(in alloc; "i32 {n}"),
        Value::I64(n) => format!(in alloc; "i64 {n}"),
    }
}

/// What is written of the answer of an operator.
fn told(alloc: Global, answer: Option<Result<Value, NumTrap>>) -> Result<String, OutOfMemory> {
    match answer {
        Some(Ok(v)) => shown(alloc, v),
        Some(Err(trap)) => format!(in alloc; "{trap:?}"),
        None => format!(in alloc; "other"),
    }
}

/// `made A B HEX`: what the first instruction of the module makes of two numbers.
pub fn made(alloc: Global, around: &Around, words: &str) -> Result<String, OutOfMemory> {
    let (a, rest) = word(words);
    let (b, digits) = word(rest);
    let bytes = around.whole(alloc, digits)?;
    match read_module(alloc, bytes.as_slice()) {
        Ok(m) => match first_instruction(&m) {
            Some(i) => told(alloc, applied(i, number(a), number(b))),
            None => format!(in alloc; "nothing"),
        },
        Err(end) => read_end(alloc, end),
    }
}
