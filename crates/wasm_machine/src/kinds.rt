//! The types of the locals of all frames.

ghost use Rattle.std.specs.Prelude.{◌≡◌, ◌<◌, ◌≤◌, ◌+◌, ◌-◌, ◌^◌, ℕ, [], ◌∷◌, ◌++◌, length, take, replicate, slice_get, unwrap_or, Some, IfOk, IfSome, IsTrue, IsFalse};
ghost use Rattle.std.specs.Vec.{vec_len, vec_capacity};
ghost use Rattle.std.specs.Arc.{arc_value};
ghost use Rattle.wasm_syntax.specs.declared.types.ValueType.{ValueType as ValueTypes};
ghost use Rattle.wasm_syntax.specs.declared.types.ValueType.TheVariants.{I32};
ghost use Rattle.wasm_flat.specs.Homes.{locals_of};
ghost use Rattle.wasm_machine.specs.Kinds.{kind_in, kind_by, IsKindOf};

use gate_base::OutOfMemory;
use std::alloc::Global;
use std::marker::Model;
use std::sync::Arc;
use wasm_flat::{Home, code_at};
use wasm_syntax::{LocalList, Module, ValidModule, ValueType};

/// The types of neighbours.
#[derive(Drop)]
pub(crate) enum Kind {
    /// They are of one type.
    Alike(ValueType),
    /// They are those that a code of a module has, by its place among the codes.
    Listed(Arc<ValidModule>, usize),
}

/// Locals from one on, up to the next stretch.
#[derive(Drop)]
pub(crate) struct Stretch {
    start: usize,
    kind: Kind,
}

/// The most stretches: more than there are frames at once.
const MOST_STRETCHES: usize = 1024;

/// The types of the locals of all frames, those of the innermost last. Clauses see them one by one. A frame takes as long for
/// thousands of locals as for one: it keeps where they begin, and which code of the module tells their types.
#[derive(Drop)]
pub(crate) struct Kinds {
    stretches: Vec<Stretch>,
    /// How many locals there are. Stretches may reach behind them.
    count: usize,
}

impl Model for Kinds {
    ghost use Rattle.std.specs.Prelude.{List, ◌≤◌};
    ghost use Rattle.std.specs.Vec.{vec_capacity};
    ghost use Rattle.wasm_syntax.specs.declared.types.ValueType.{ValueType as Types};
    ghost use Rattle.wasm_machine.specs.Kinds.{kinds};

    ghost Value = { List Types };

    ghost view = { λ a. kinds a.stretches.items 0 a.count };

    ghost invariant = { λ a. 1024 ≤ vec_capacity a.stretches };
}

impl Kinds {
    /// None.
    pub(crate) fn new(alloc: Global) -> Result<Self, OutOfMemory>
        ensures { IfOk result (λ all. all ≡ []) }
    {
        Ok(Kinds {
            stretches: Vec::with_capacity(alloc, MOST_STRETCHES)?,
            count: 0,
        })
    }

    /// How many there are.
    pub(crate) fn len(&self) -> usize
        ensures { result ≡ length self.now }
    {
        self.count
    }

    /// The one at an index.
    pub(crate) fn get(&self, k: usize) -> ValueType
        requires { k < length self.now }
        ensures { slice_get self.now k ≡ Some result }
    {
        kind_at(self.stretches.as_slice(), k)
    }

    /// Keeps only so many.
    pub(crate) fn truncate(&mut self, count: usize)
        ensures { self.new ≡ take count self.old }
    {
        let keep = begun(self.stretches.as_slice(), count);
        self.stretches.truncate(keep);
        if count < self.count {
            self.count = count;
        }
    }

    /// One more, of whatever type.
    pub(crate) fn push(&mut self)
        requires { length self.old < 2 ^ 63 }
        ensures { (t : ValueTypes) × (self.new ≡ self.old ++ t ∷ []) }
    {
        self.count += 1;
    }

    /// These, which stand in the module that they are from: no, and none of them, where there is no room to keep where.
    pub(crate) fn append(&mut self, types: &LocalList, home: Option<Home<'_>>) -> bool
        requires few { length self.old < 2 ^ 63 }
        requires home { IfSome home (λ home. locals_of (arc_value home.module.now) home.code ≡ types.now) }
        ensures all { IsTrue result → self.new ≡ self.old ++ types.now }
        ensures none { IsFalse result → self.new ≡ self.old }
    {
        if self.stretches.len() >= MOST_STRETCHES {
            return false;
        }
        match kind_of(types, home) {
            Some(kind) => {
                self.stretches.push_reserved(Stretch {
                    start: self.count,
                    kind,
                });
                self.count += types.len() as usize;
                true
            }
            None => false,
        }
    }
}

/// The type at a place of a list.
pub(crate) fn listed(list: &LocalList, at: usize) -> ValueType
    ensures { result ≡ unwrap_or (slice_get list.now at) I32 }
{
    if at >= list.len() as usize {
        return ValueType::I32;
    }
    match list.get(at as u32) {
        Some(of) => of,
        None => ValueType::I32,
    }
}

/// The type at a place of a code.
fn coded(m: &Module, code: usize, at: usize) -> ValueType
    ensures { result ≡ unwrap_or (slice_get (locals_of m.now code) at) I32 }
{
    match code_at(m.codes.as_slice(), code) {
        Some(code) => listed(&code.locals, at),
        None => ValueType::I32,
    }
}

/// The type at a place of a stretch.
fn kind_here(kind: &Kind, at: usize) -> ValueType
    ensures { result ≡ kind_in kind.now at }
{
    match kind {
        Kind::Alike(of) => *of,
        Kind::Listed(module, code) => coded(module.module(), *code, at),
    }
}

/// The type of a local, which is told by the last stretch that begins no later.
fn kind_at(stretches: &[Stretch], k: usize) -> ValueType
    ensures { result ≡ kind_by I32 stretches.now k }
{
    let mut at = stretches.len();
    while at > 0 {
        at -= 1;
        if stretches[at].start <= k {
            return kind_here(&stretches[at].kind, k - stretches[at].start);
        }
    }
    ValueType::I32
}

/// How many stretches are left, where the last ones go that begin behind so many locals.
fn begun(stretches: &[Stretch], count: usize) -> usize
    ensures { (k : ℕ) → k < count → kind_by I32 (take result stretches.now) k ≡ kind_by I32 stretches.now k }
{
    let mut keep = stretches.len();
    while keep > 0 {
        if stretches[keep - 1].start < count {
            return keep;
        }
        keep -= 1;
    }
    keep
}

/// The most locals for whose frame nothing is kept: to write their zeros takes less time than that.
const MOST_WRITTEN: u32 = 8;

/// How the types of a list are told: not, where they are few, or of several types and the module that has them is not to be had.
fn kind_of(types: &LocalList, home: Option<Home<'_>>) -> Option<Kind>
    requires { IfSome home (λ home. locals_of (arc_value home.module.now) home.code ≡ types.now) }
    ensures { IfSome result (λ kind. IsKindOf kind types.now) }
{
    if types.len() <= MOST_WRITTEN {
        return None;
    }
    match only(types) {
        Some(of) => Some(Kind::Alike(of)),
        None => match home {
            Some(home) => in_module(home),
            None => None,
        },
    }
}

/// Those that a code of a module has.
fn in_module(home: Home<'_>) -> Option<Kind>
    ensures { IfSome result (λ kind. IsKindOf kind (locals_of (arc_value home.entry.module.now) home.entry.code)) }
{
    match Arc::try_clone(home.module) {
        Ok(module) => Some(Kind::Listed(module, home.code)),
        Err(_) => None,
    }
}

/// The type of all, where they are of one.
fn only(types: &LocalList) -> Option<ValueType>
    ensures { IfSome result (λ of. types.now ≡ replicate (length types.now) of) }
{
    if types.len() == 0 {
        return Some(ValueType::I32);
    }
    let (n, of) = types.run(0);
    if n == types.len() { Some(of) } else { None }
}
