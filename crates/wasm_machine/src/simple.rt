//! Instructions after which the next one follows.

ghost use Rattle.std.specs.Prelude.{◌≡◌, ◌<◌, ◌≤◌, ◌+◌, ℕ, List, length, take, drop, unwrap_or, slice_get, Option, Result};
ghost use Rattle.std.specs.Option.{option_map};
ghost use Rattle.wasm_syntax.specs.declared.types.Value.{Value as Values};
ghost use Rattle.wasm_syntax.specs.declared.types.ValueType.TheVariants.{I32};
ghost use Rattle.wasm_syntax.specs.Numeric.{number_as, numeric_of, constant as constant_of};
ghost use Rattle.wasm_syntax.specs.Stores.{Stores};
ghost use Rattle.wasm_syntax.specs.Reduction.{doing, topmost};
ghost use Rattle.wasm_syntax.specs.ReductionRows.{drop_one as dropping, select_one as selecting, get_local as getting_local, set_local as setting_local, tee_local as teeing_local, get_global as getting_global, set_global as setting_global, size_memory as sizing, grow_memory as growing};
ghost use Rattle.wasm_syntax.specs.ReductionRows.{unary, binary};
ghost use Rattle.wasm_syntax.specs.Operators.{Undefined};
ghost use Rattle.wasm_syntax.specs.declared.types.ValueType.{ValueType as ValueTypes};
ghost use Rattle.wasm_numeric.specs.Applied.{type_of as type_of_value, Takes2, value2};
ghost use Rattle.wasm_numeric.specs.Instructions.{IsOne, IsTwo};
ghost use Rattle.wasm_machine.specs.Held.{held};
ghost use Rattle.wasm_machine.specs.Acted.{acted_as, stores, calculated_by, constant_by, applied};

use crate::locals::Locals;
use crate::stack::Stack;
use gate_base::Cause;
use wasm_numeric::{NumTrap, Numeric, Op1, Op2, apply1, apply2, operator_of};
use wasm_store::{Globals, Memory};
use wasm_syntax::{Instr, Value, ValueType};

/// How such an instruction ended.
#[derive(Clone, Copy, PartialEq, Eq)]
pub(crate) enum Acts {
    /// It did what it does.
    Fine,
    /// It trapped.
    Faults(Cause),
    /// There is no rule.
    Lacks,
}

/// The number of an operand of 32 bits.
pub(crate) fn index_of(v: Value) -> Option<u32>
    ensures { result ≡ number_as I32 v }
{
    match v {
        Value::I32(n) => Some(n),
        Value::I64(_) => None,
    }
}

/// Takes the topmost operand off, whose number is asked for.
#[inline(always)]
pub(crate) fn pop_index(values: &mut Stack<Value>) -> Option<u32>
    ensures is { result ≡ topmost values.old.members }
    ensures rest { values.new ≡ held (drop 1 values.old.members) values.old.room }
{
    let v = values.pop()?;
    index_of(v)
}

/// The label that the topmost operand picks, which is taken off.
pub(crate) fn pick(labels: &[u32], default: u32, values: &mut Stack<Value>) -> Option<u32>
    ensures is { result ≡ option_map (λ (n : ℕ). unwrap_or (slice_get labels.now n) default) (topmost values.old.members) }
    ensures rest { values.new ≡ held (drop 1 values.old.members) values.old.room }
{
    let n = pop_index(values)?;
    match labels.get(n as usize) {
        Some(l) => Some(*l),
        None => Some(default),
    }
}

/// A constant.
#[inline(always)]
pub(crate) fn constant(i: &Instr, values: &mut Stack<Value>) -> Acts
    requires { length values.old.members < values.old.room }
    ensures acts { (s : Stores) (own : List Values) → constant_by (constant_of i.now) s own values.old.members ≡ acted_as result values.new.members s own }
    ensures room { values.new.room ≡ values.old.room }
{
    match i {
        Instr::I32Const(z) => {
            values.push(Value::I32(z.cast_unsigned()));
            Acts::Fine
        }
        Instr::I64Const(z) => {
            values.push(Value::I64(z.cast_unsigned()));
            Acts::Fine
        }
        _ => Acts::Lacks,
    }
}

/// `drop`
#[inline(always)]
pub(crate) fn drop_one(values: &mut Stack<Value>) -> Acts
    ensures acts { (s : Stores) (own : List Values) → doing dropping s own values.old.members ≡ acted_as result values.new.members s own }
    ensures room { values.new.room ≡ values.old.room }
{
    match values.pop() {
        Some(_) => Acts::Fine,
        None => Acts::Lacks,
    }
}

/// `select`
#[inline(always)]
pub(crate) fn select(values: &mut Stack<Value>) -> Acts
    requires { length values.old.members ≤ values.old.room }
    ensures acts { (s : Stores) (own : List Values) → doing selecting s own values.old.members ≡ acted_as result values.new.members s own }
    ensures room { values.new.room ≡ values.old.room }
{
    let (Some(c), Some(b), Some(a)) = (values.pop(), values.pop(), values.pop()) else {
        return Acts::Lacks;
    };
    let Some(n) = index_of(c) else {
        return Acts::Lacks;
    };
    if n == 0 {
        values.push(b);
    } else {
        values.push(a);
    }
    Acts::Fine
}

/// `local.get`
#[inline(always)]
pub(crate) fn get_local(locals: &Locals, base: usize, x: u32, values: &mut Stack<Value>) -> Acts
    requires base { base ≤ length locals.now.members }
    requires room { length values.old.members < values.old.room }
    ensures acts { (s : Stores) → doing (getting_local x) s (drop base locals.now.members) values.old.members ≡ acted_as result values.new.members s (drop base locals.now.members) }
    ensures room { values.new.room ≡ values.old.room }
{
    let Some(v) = locals.get(base, x) else {
        return Acts::Lacks;
    };
    values.push(v);
    Acts::Fine
}

/// `local.set`
#[inline(always)]
pub(crate) fn set_local(locals: &mut Locals, base: usize, x: u32, values: &mut Stack<Value>) -> Acts
    requires base { base ≤ length locals.old.members }
    ensures acts { (s : Stores) → doing (setting_local x) s (drop base locals.old.members) values.old.members ≡ acted_as result values.new.members s (drop base locals.new.members) }
    ensures below { take base locals.new.members ≡ take base locals.old.members }
    ensures room { values.new.room ≡ values.old.room }
    ensures locals_room { locals.new.room ≡ locals.old.room }
{
    let Some(v) = values.pop() else {
        return Acts::Lacks;
    };
    if x as usize >= locals.len() - base {
        return Acts::Lacks;
    }
    locals.set(base, x, v);
    Acts::Fine
}

/// `local.tee`
#[inline(always)]
pub(crate) fn tee_local(locals: &mut Locals, base: usize, x: u32, values: &Stack<Value>) -> Acts
    requires base { base ≤ length locals.old.members }
    ensures acts { (s : Stores) → doing (teeing_local x) s (drop base locals.old.members) values.now.members ≡ acted_as result values.now.members s (drop base locals.new.members) }
    ensures below { take base locals.new.members ≡ take base locals.old.members }
    ensures locals_room { locals.new.room ≡ locals.old.room }
{
    let Some(v) = values.get(0) else {
        return Acts::Lacks;
    };
    if x as usize >= locals.len() - base {
        return Acts::Lacks;
    }
    locals.set(base, x, v);
    Acts::Fine
}

/// `global.get`
#[inline(always)]
pub(crate) fn get_global(globals: &Globals, x: u32, values: &mut Stack<Value>) -> Acts
    requires { length values.old.members < values.old.room }
    ensures acts { (m : List ℕ) (t : List (Option ℕ)) (own : List Values) → doing (getting_global x) (stores m t globals.now) own values.old.members ≡ acted_as result values.new.members (stores m t globals.now) own }
    ensures room { values.new.room ≡ values.old.room }
{
    if x as usize >= globals.len() {
        return Acts::Lacks;
    }
    values.push(globals.get(x as usize));
    Acts::Fine
}

/// `global.set`
#[inline(always)]
pub(crate) fn set_global(globals: &mut Globals, x: u32, values: &mut Stack<Value>) -> Acts
    ensures acts { (m : List ℕ) (t : List (Option ℕ)) (own : List Values) → doing (setting_global x) (stores m t globals.old) own values.old.members ≡ acted_as result values.new.members (stores m t globals.new) own }
    ensures room { values.new.room ≡ values.old.room }
{
    let Some(v) = values.pop() else {
        return Acts::Lacks;
    };
    if x as usize >= globals.len() {
        return Acts::Lacks;
    }
    globals.set(x as usize, v);
    Acts::Fine
}

/// `memory.size`
pub(crate) fn size(memory: &Memory, values: &mut Stack<Value>) -> Acts
    requires { length values.old.members < values.old.room }
    ensures acts { (t : List (Option ℕ)) (g own : List Values) → doing sizing (stores memory.now.bytes t g) own values.old.members ≡ acted_as result values.new.members (stores memory.now.bytes t g) own }
    ensures room { values.new.room ≡ values.old.room }
{
    values.push(Value::I32(memory.pages()));
    Acts::Fine
}

/// `memory.grow`
pub(crate) fn grow(memory: &mut Memory, values: &mut Stack<Value>) -> Acts
    requires { length values.old.members ≤ values.old.room }
    ensures acts { (t : List (Option ℕ)) (g own : List Values) → doing (growing memory.old.most) (stores memory.old.bytes t g) own values.old.members ≡ acted_as result values.new.members (stores memory.new.bytes t g) own }
    ensures room { values.new.room ≡ values.old.room }
    ensures most { memory.new.most ≡ memory.old.most }
{
    let Some(v) = values.pop() else {
        return Acts::Lacks;
    };
    let Some(by) = index_of(v) else {
        return Acts::Lacks;
    };
    let answer = memory.grow(by);
    values.push(Value::I32(answer));
    Acts::Fine
}

/// The type of a value.
fn type_of(v: Value) -> ValueType
    ensures { result ≡ type_of_value v }
{
    match v {
        Value::I32(_) => ValueType::I32,
        Value::I64(_) => ValueType::I64,
    }
}

/// A numeric instruction.
#[inline(always)]
pub(crate) fn calculate(i: &Instr, values: &mut Stack<Value>) -> Acts
    requires { length values.old.members ≤ values.old.room }
    ensures acts { (s : Stores) (own : List Values) → calculated_by (numeric_of i.now) s own values.old.members ≡ acted_as result values.new.members s own }
    ensures room { values.new.room ≡ values.old.room }
{
    match operator_of(i) {
        Numeric::One(op) => calculate_one(op, values),
        Numeric::Two(op) => calculate_two(op, values),
        Numeric::Other => Acts::Lacks,
    }
}

/// An operator with one operand.
#[inline(always)]
fn calculate_one(op: Op1, values: &mut Stack<Value>) -> Acts
    requires { length values.old.members ≤ values.old.room }
    ensures acts { (t u : ValueTypes) (f : ℕ → ℕ) (s : Stores) (own : List Values) → IsOne op t u f → doing (unary t u f) s own values.old.members ≡ acted_as result values.new.members s own }
    ensures room { values.new.room ≡ values.old.room }
{
    let Some(a) = values.pop() else {
        return Acts::Lacks;
    };
    if type_of(a) != op.operand() {
        return Acts::Lacks;
    }
    values.push(apply1(op, a));
    Acts::Fine
}

/// An operator with two operands, the second of which stands topmost.
#[tactic(auto, using(crate::proofs::Operands::two_does, crate::proofs::Operands::two_lack_first, crate::proofs::Operands::two_lack_second))]
#[inline(always)]
fn calculate_two(op: Op2, values: &mut Stack<Value>) -> Acts
    requires { length values.old.members ≤ values.old.room }
    ensures acts { (t u : ValueTypes) (f : ℕ → ℕ → Result ℕ Undefined) (s : Stores) (own : List Values) → IsTwo op t u f → doing (binary t u f) s own values.old.members ≡ acted_as result values.new.members s own }
    ensures room { values.new.room ≡ values.old.room }
{
    let (Some(b), Some(a)) = (values.pop(), values.pop()) else {
        return Acts::Lacks;
    };
    let (of, _) = op.parts();
    if type_of(a) != of {
        return Acts::Lacks;
    }
    if type_of(b) != of {
        return Acts::Lacks;
    }
    apply_two(op, a, b, values)
}

/// The same, of operands that it takes.
#[inline(always)]
fn apply_two(op: Op2, a: Value, b: Value, values: &mut Stack<Value>) -> Acts
    requires types { Takes2 op a b }
    requires room { length values.old.members < values.old.room }
    ensures acts { (s : Stores) (own : List Values) → applied (value2 op a b) values.old.members s own ≡ acted_as result values.new.members s own }
    ensures room { values.new.room ≡ values.old.room }
{
    match apply2(op, a, b) {
        Ok(v) => {
            values.push(v);
            Acts::Fine
        }
        Err(NumTrap::Divide) => Acts::Faults(Cause::Divide),
        Err(NumTrap::Overflow) => Acts::Faults(Cause::Overflow),
    }
}
