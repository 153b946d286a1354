//! Initial values and offsets (WebAssembly Core 1.0 section 3.3.7).

ghost use Rattle.std.specs.Prelude.{◌≡◌};
ghost use Rattle.wasm_syntax.specs.Stores.{initial, offset_of};

use wasm_syntax::{Instr, Value};

/// The value of an expression that is one constant. A valid module that imports no global has no others.
pub(crate) fn initial_value(expression: &[Instr]) -> Value
    ensures { result ≡ initial expression.now }
{
    match expression.first() {
        Some(Instr::I32Const(n)) => Value::I32(n.cast_unsigned()),
        Some(Instr::I64Const(n)) => Value::I64(n.cast_unsigned()),
        _ => Value::I32(0),
    }
}

/// The offset that such an expression is, without a sign.
pub(crate) fn offset(expression: &[Instr]) -> u64
    ensures { result ≡ offset_of expression.now }
{
    match initial_value(expression) {
        Value::I32(n) => u64::from(n),
        Value::I64(n) => n,
    }
}
