//! The locals of all frames.

ghost use Rattle.std.specs.Prelude.{◌≡◌, ◌<◌, ◌≤◌, ◌+◌, ◌-◌, [], ◌∷◌, ◌++◌, length, take, drop, reverse, slice_get, slice_set, replicate, false, Some, IfOk, IfSome, IsTrue, IsFalse};
ghost use Rattle.std.specs.Arc.{arc_value};
ghost use Rattle.wasm_syntax.specs.declared.types.Value.TheVariants as value;
ghost use Rattle.std.specs.Vec.{vec_len, vec_capacity};
ghost use Rattle.wasm_syntax.specs.Numeric.{zero_of};
ghost use Rattle.wasm_syntax.specs.Reduction.{zeros};
ghost use Rattle.wasm_machine.specs.Held.{held};
ghost use Rattle.wasm_flat.specs.Homes.{locals_of};

use crate::kinds::{Kinds, listed};
use crate::stack::Stack;
use gate_base::OutOfMemory;
use std::alloc::Global;
use std::marker::Model;
use wasm_flat::Home;
use wasm_syntax::{LocalList, Value, ValueType};

/// The locals of all frames, those of the innermost last, with room for so many. Clauses see them in their
/// order, and the room. Most locals that a frame begins with are zeros, and a frame may have thousands of which it uses few: so
/// a zero is not written where its frame begins, but the local is marked as not given yet.
#[derive(Drop)]
pub(crate) struct Locals {
    /// Their types, which tell the zeros.
    kinds: Kinds,
    /// Whether each was given.
    given: Vec<bool>,
    /// The value of each that was given. Values of frames that are gone may be between them and behind them.
    values: Vec<Value>,
    room: usize,
}

impl Model for Locals {
    ghost use Rattle.std.specs.Vec.{vec_capacity};
    ghost use Rattle.wasm_syntax.specs.declared.types.Value.{Value as Values};
    ghost use Rattle.wasm_machine.specs.Held.{Held, held};
    ghost use Rattle.wasm_machine.specs.Marked.{marked, IsMarked};

    ghost Value = { Held Values };

    ghost view = { λ a. held (marked a.kinds a.given.items a.values.items) a.room };

    ghost invariant = { λ a. IsMarked a.kinds a.given.items a.values.items a.room (vec_capacity a.given) (vec_capacity a.values) };
}

impl Locals {
    /// None, with room for so many.
    pub(crate) fn new(alloc: Global, room: usize) -> Result<Self, OutOfMemory>
        ensures { IfOk result (λ s. s ≡ held [] room) }
    {
        Ok(Locals {
            kinds: Kinds::new(alloc)?,
            given: Vec::with_capacity(alloc, room)?,
            values: Vec::with_capacity(alloc, room)?,
            room,
        })
    }

    /// How many there are.
    pub(crate) fn len(&self) -> usize
        ensures { result ≡ length self.now.members }
    {
        self.kinds.len()
    }

    /// The one at an index of all.
    fn at(&self, k: usize) -> Value
        requires { k < length self.now.members }
        ensures { slice_get self.now.members k ≡ Some result }
    {
        if self.given[k] {
            self.values[k]
        } else {
            zero(self.kinds.get(k))
        }
    }

    /// The one at an index, of the frame whose locals begin at the base.
    pub(crate) fn get(&self, base: usize, x: u32) -> Option<Value>
        requires { base ≤ length self.now.members }
        ensures { result ≡ slice_get (drop base self.now.members) x }
    {
        let x = x as usize;
        if x < self.kinds.len() - base {
            Some(self.at(base + x))
        } else {
            None
        }
    }

    /// Gives the one at an index another value.
    pub(crate) fn set(&mut self, base: usize, x: u32, v: Value)
        requires { base + x < length self.old.members }
        ensures frame { drop base self.new.members ≡ slice_set (drop base self.old.members) x v }
        ensures below { take base self.new.members ≡ take base self.old.members }
        ensures room { self.new.room ≡ self.old.room }
    {
        self.values[base + x as usize] = v;
        self.given[base + x as usize] = true;
    }

    /// Keeps only so many.
    pub(crate) fn truncate(&mut self, count: usize)
        ensures { self.new ≡ held (take count self.old.members) self.old.room }
    {
        self.kinds.truncate(count);
        self.given.truncate(count);
    }

    /// One more.
    fn push(&mut self, v: Value)
        requires { length self.old.members < self.old.room }
        ensures { self.new ≡ held (self.old.members ++ v ∷ []) self.old.room }
    {
        put(&mut self.values, self.kinds.len(), v);
        self.kinds.push();
        self.given.push_reserved(true);
    }

    /// The topmost values, the topmost last.
    pub(crate) fn take_over(&mut self, values: &Stack<Value>, count: usize)
        requires there { count ≤ length values.now.members }
        requires room { length self.old.members + count ≤ self.old.room }
        ensures { self.new ≡ held (self.old.members ++ reverse (take count values.now.members)) self.old.room }
    {
        let mut depth = count;
        while depth > 0 {
            depth -= 1;
            if let Some(v) = values.get(depth) {
                self.push(v);
            }
        }
    }

    /// These values.
    pub(crate) fn extend(&mut self, values: &[Value])
        requires { length self.old.members + length values.now ≤ self.old.room }
        ensures { self.new ≡ held (self.old.members ++ values.now) self.old.room }
    {
        for v in values {
            self.push(*v);
        }
    }

    /// A zero for each of these types, which stand in the module that they are from.
    pub(crate) fn clear(&mut self, types: &LocalList, home: Option<Home<'_>>)
        requires room { length self.old.members + length types.now ≤ self.old.room }
        requires home { IfSome home (λ home. locals_of (arc_value home.module.now) home.code ≡ types.now) }
        ensures { self.new ≡ held (self.old.members ++ zeros types.now) self.old.room }
    {
        if types.len() == 0 {
            return;
        }
        if !self.mark_zeros(types, home) {
            self.give_zeros(types);
        }
    }

    /// The same by marks: no, and nothing is changed, where there is no room for the types.
    fn mark_zeros(&mut self, types: &LocalList, home: Option<Home<'_>>) -> bool
        requires room { length self.old.members + length types.now ≤ self.old.room }
        requires home { IfSome home (λ home. locals_of (arc_value home.module.now) home.code ≡ types.now) }
        ensures all { IsTrue result → self.new ≡ held (self.old.members ++ zeros types.now) self.old.room }
        ensures none { IsFalse result → self.new ≡ self.old }
    {
        let count = types.len() as usize;
        let before = self.kinds.len();
        if self.kinds.append(types, home) {
            reach(&mut self.values, before + count);
            mark(&mut self.given, count);
            true
        } else {
            false
        }
    }

    /// The same, where each is given.
    fn give_zeros(&mut self, types: &LocalList)
        requires { length self.old.members + length types.now ≤ self.old.room }
        ensures { self.new ≡ held (self.old.members ++ zeros types.now) self.old.room }
    {
        for x in 0..types.len() {
            self.push(zero(listed(types, x as usize)));
        }
    }
}

/// A value at a place among others, or behind them.
fn put(values: &mut Vec<Value>, k: usize, v: Value)
    requires there { k ≤ vec_len values.old }
    requires room { k < vec_capacity values.old }
    ensures items { values.new.items ≡ take k values.old.items ++ v ∷ drop (k + 1) values.old.items }
    ensures len { k < vec_len values.new }
    ensures capacity { vec_capacity values.new ≡ vec_capacity values.old }
{
    if k < values.len() {
        values[k] = v;
    } else {
        values.push_reserved(v);
    }
}

/// Some more, for which there is room.
fn append<T: Copy>(to: &mut Vec<T>, more: &[T])
    requires { vec_len to.old + length more.now ≤ vec_capacity to.old }
    ensures items { to.new.items ≡ to.old.items ++ more.now }
    ensures capacity { vec_capacity to.old ≤ vec_capacity to.new }
{
    if to.extend_from_slice(more).is_err() {
        unreachable!();
    }
}

/// At least so many, for which there is room.
fn reach(values: &mut Vec<Value>, count: usize)
    requires { count ≤ vec_capacity values.old }
    ensures items { values.new.items ≡ values.old.items ++ replicate (count - vec_len values.old) (value.I32 0) }
    ensures capacity { vec_capacity values.old ≤ vec_capacity values.new }
{
    if values.len() < count && values.resize(count, Value::I32(0)).is_err() {
        unreachable!();
    }
}

/// As many marks as a function may have locals of its own.
static NOT_GIVEN: [bool; 4096] = [false; 4096];

/// So many more that are not given.
fn mark(given: &mut Vec<bool>, count: usize)
    requires few { count ≤ 4096 }
    requires room { vec_len given.old + count ≤ vec_capacity given.old }
    ensures items { given.new.items ≡ given.old.items ++ replicate count false }
    ensures capacity { vec_capacity given.old ≤ vec_capacity given.new }
{
    append(given, &NOT_GIVEN[..count]);
}

/// The zero of a type.
fn zero(t: ValueType) -> Value
    ensures { result ≡ zero_of t }
{
    match t {
        ValueType::I32 => Value::I32(0),
        ValueType::I64 => Value::I64(0),
    }
}
