//! The body of a function.

ghost use Rattle.std.specs.Prelude.{◌≡◌, IfOk, IfSome, IfNone};
ghost use Rattle.wasm_syntax.specs.Nested.{Nested, NestsAs};
ghost use Rattle.wasm_syntax.specs.Typing.{IsTypedBody};
ghost use Rattle.wasm_validator.specs.Bodies.{StopsAt};
ghost use Rattle.wasm_validator.specs.Scopes.{context_in, AreSignatures};

use crate::checker::{Checker, Step};
use crate::names::{Names, result_of};
use gate_base::OutOfMemory;
use std::alloc::Global;
use wasm_syntax::Instr;

/// The place of the first instruction up to which a body cannot be typed, counted from 0. None where the
/// body is typed.
pub(crate) fn first_untyped(
    alloc: Global,
    names: Names<'_>,
    body: &[Instr],
) -> Result<Option<usize>, OutOfMemory>
    requires signatures { AreSignatures names }
    requires nested { (code : Nested) × NestsAs body.now code }
    ensures typed { IfOk result (λ place. IfNone place (IsTypedBody (context_in names.exit) body.now)) }
    ensures place { IfOk result (λ place. IfSome place (StopsAt (context_in names.exit) body.now)) }
{
    let mut checker = Checker::new(alloc, result_of(names.function));
    let mut place = 0;
    while place < body.len() {
        match checker.step(names, &body[place])? {
            Step::Goes => place += 1,
            Step::Fails => return Ok(Some(place)),
            Step::Ends if place + 1 < body.len() => return Ok(Some(place + 1)),
            Step::Ends => return Ok(None),
        }
    }
    unreachable!()
}
