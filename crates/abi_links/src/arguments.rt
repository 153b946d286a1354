//! Arguments as numbers.

ghost use Rattle.std.specs.Prelude.{◌≡◌, ◌<◌, ℕ, length, slice_index_or, map, take, IfOk};
ghost use Rattle.wasm_syntax.specs.declared.types.Value.TheVariants.{I32};
ghost use Rattle.abi_links.specs.Numbers.{number_of, IsWithin, AreWithin};

use gate_base::{Members, OutOfMemory};
use std::alloc::Global;
use wasm_syntax::Value;

/// The number that a value stands for.
fn number(v: &Value) -> u64
    ensures number { result ≡ number_of v.now }
    ensures within { IsWithin v.now }
{
    match v {
        Value::I32(n) => *n as u64,
        Value::I64(n) => *n,
    }
}

/// The numbers that values stand for.
pub fn numbers(alloc: Global, args: &[Value]) -> Result<Members<u64>, OutOfMemory>
    ensures numbers { IfOk result (λ ns. ns ≡ map number_of args.now) }
    ensures within { IfOk result (λ ns. (k : ℕ) → k < length args.now → IsWithin (slice_index_or args.now k (I32 0))) }
{
    let mut out = Members::new(alloc);
    for v in args {
        out.push(number(v))?;
    }
    Ok(out)
}
