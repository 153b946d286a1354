//! The types of a function's locals.

ghost use Rattle.std.specs.Prelude.{◌≡◌, ◌≤◌, ◌<◌, ◌+◌, ◌-◌, ◌++◌, [], length, replicate, drop, slice_get, IfOk, IfSome, OnOk, IsTrue};
ghost use Rattle.std.specs.Vec.{vec_len, vec_capacity};
ghost use Rattle.wasm_syntax.specs.LocalRuns.{unrolled, end_of, IsRising, IsOver, EndsWith, IsOpen};

use crate::types::ValueType;
use gate_base::{Members, OutOfMemory};
use std::alloc::Global;
use std::marker::Model;

/// The most runs that are kept as runs: each takes a call some eight nanoseconds.
const MOST_RUNS: usize = 64;

/// Neighbouring locals of one type.
#[derive(Clone, Copy, PartialEq, Eq)]
pub(crate) struct LocalRun {
    /// How many locals there are up to its end, those of the runs before it included.
    pub(crate) end: u32,
    /// Their type.
    pub(crate) of: ValueType,
}

/// The types of locals, by runs of one type. Clauses see the types one by one.
#[derive(Drop)]
pub struct LocalRuns {
    runs: Members<LocalRun>,
}

impl Model for LocalRuns {
    ghost use Rattle.std.specs.Prelude.{List};
    ghost use Rattle.wasm_syntax.specs.declared.types.ValueType.{ValueType as Types};

    ghost Value = { List Types };

    ghost use Rattle.wasm_syntax.specs.LocalRuns.{unrolled, IsRising};

    ghost view = { λ a. unrolled 0 a.runs };

    ghost invariant = { λ a. IsRising 0 a.runs };
}

impl LocalRuns {
    /// None.
    pub fn new(alloc: Global) -> Self
        ensures { result ≡ [] }
    {
        LocalRuns {
            runs: Members::new(alloc),
        }
    }

    /// So many more of one type.
    pub fn declare(&mut self, n: u32, of: ValueType) -> Result<(), OutOfMemory>
        requires { length self.old + n ≤ 4096 }
        ensures { OnOk result (self.new ≡ self.old ++ replicate n of) }
    {
        if n == 0 {
            return Ok(());
        }
        let end = end(self.runs.as_slice()) + n;
        put(&mut self.runs, LocalRun { end, of })
    }

    /// How many locals there are.
    fn len(&self) -> u32
        ensures { result ≡ length self.now }
    {
        end(self.runs.as_slice())
    }

    /// The type of a local.
    fn get(&self, x: u32) -> Option<ValueType>
        ensures { result ≡ slice_get self.now x }
    {
        let runs = self.runs.as_slice();
        match run_at(runs, over(runs, x)) {
            Some(run) => Some(run.of),
            None => None,
        }
    }

    /// How many locals from an index on are of one type, at least one, and their type.
    fn run(&self, x: u32) -> (u32, ValueType)
        requires { x < length self.now }
        ensures some { 0 < result.0 }
        ensures within { x + result.0 ≤ length self.now }
        ensures run { drop x self.now ≡ replicate result.0 result.1 ++ drop (x + result.0) self.now }
    {
        let runs = self.runs.as_slice();
        let run = &runs[over(runs, x)];
        (run.end - x, run.of)
    }

    /// Puts the types at the end, for which there is room.
    fn put_at(&self, types: &mut Vec<ValueType>)
        requires few { length self.now ≤ 4096 }
        requires room { vec_len types.old + length self.now ≤ vec_capacity types.old }
        ensures items { types.new.items ≡ types.old.items ++ self.now }
        ensures capacity { vec_capacity types.old ≤ vec_capacity types.new }
    {
        let mut before = 0;
        for run in self.runs.as_slice() {
            append(types, alike(run.end - before, run.of));
            before = run.end;
        }
    }

    /// How many there are, and their type, where there is no second run.
    fn only(&self) -> Option<(u32, ValueType)>
        ensures { IfSome result (λ all. self.now ≡ replicate all.0 all.1) }
    {
        match self.runs.as_slice() {
            [] => Some((0, ValueType::I32)),
            [run] => Some((run.end, run.of)),
            _ => None,
        }
    }

    /// Whether the types take no more memory one by one than the bytes that may have spelled these runs allow for, or a call would have
    /// too many runs to append.
    fn is_dense(&self) -> bool {
        self.runs.len() > MOST_RUNS || self.len() as usize / 16 <= self.runs.len()
    }

    /// The same.
    fn copy(&self, alloc: Global) -> Result<LocalRuns, OutOfMemory>
        ensures { IfOk result (λ copy. copy ≡ self.now) }
    {
        let mut runs = Members::new(alloc);
        for run in self.runs.as_slice() {
            runs.push(*run)?;
        }
        Ok(LocalRuns { runs })
    }
}

/// The run at a place.
fn run_at(runs: &[LocalRun], at: usize) -> Option<LocalRun>
    ensures { result ≡ slice_get runs.now at }
{
    runs.get(at).copied()
}

/// The last run.
fn last(runs: &[LocalRun]) -> Option<LocalRun>
    ensures { result ≡ slice_get runs.now (length runs.now - 1) }
{
    runs.last().copied()
}

/// How many locals runs have.
fn end(runs: &[LocalRun]) -> u32
    ensures { result ≡ end_of 0 runs.now }
{
    match last(runs) {
        Some(run) => run.end,
        None => 0,
    }
}

/// Whether the last run is of that type.
fn ends_with(runs: &[LocalRun], of: ValueType) -> bool
    ensures { IsTrue result → EndsWith runs.now of }
{
    match last(runs) {
        Some(run) => run.of == of,
        None => false,
    }
}

/// Takes the last run off where it is of that type.
fn open(runs: &mut Members<LocalRun>, of: ValueType)
    ensures { IsOpen runs.old runs.new of }
{
    if ends_with(runs.as_slice(), of) {
        let _last = runs.pop();
    }
}

/// One more run, joined with the last where that is of its type.
fn put(runs: &mut Members<LocalRun>, run: LocalRun) -> Result<(), OutOfMemory>
    requires rising { IsRising 0 runs.old }
    requires end { end_of 0 runs.old < run.end }
    ensures rising { IsRising 0 runs.new }
    ensures more { OnOk result (unrolled 0 runs.new ≡ unrolled 0 runs.old ++ replicate (run.end - end_of 0 runs.old) run.of) }
{
    open(runs, run.of);
    runs.push(run)
}

/// The place of the run in which a local stands: behind all where there is no such local.
fn over(runs: &[LocalRun], x: u32) -> usize
    ensures place { result ≤ length runs.now }
    ensures over { IsOver runs.now result x }
{
    let mut low = 0;
    let mut high = runs.len();
    while low < high {
        let middle = low + (high - low) / 2;
        if runs[middle].end <= x {
            low = middle + 1;
        } else {
            high = middle;
        }
    }
    low
}

/// As many of each type as a function may have locals.
static WORDS: [ValueType; 4096] = [ValueType::I32; 4096];

static LONGS: [ValueType; 4096] = [ValueType::I64; 4096];

/// So many of one type.
fn alike(n: u32, of: ValueType) -> &'static [ValueType]
    requires { n ≤ 4096 }
    ensures { result.now ≡ replicate n of }
{
    match of {
        ValueType::I32 => &WORDS[..n as usize],
        ValueType::I64 => &LONGS[..n as usize],
    }
}

/// One of so many of one type.
fn same(n: u32, of: ValueType, x: u32) -> Option<ValueType>
    ensures { result ≡ slice_get (replicate n of) x }
{
    if x < n { Some(of) } else { None }
}

/// Some more types, for which there is room.
fn append(types: &mut Vec<ValueType>, more: &[ValueType])
    requires { vec_len types.old + length more.now ≤ vec_capacity types.old }
    ensures items { types.new.items ≡ types.old.items ++ more.now }
    ensures capacity { vec_capacity types.old ≤ vec_capacity types.new }
{
    if types.extend_from_slice(more).is_err() {
        unreachable!();
    }
}

/// How the types of locals are kept.
#[derive(Drop)]
enum Kept {
    /// So many of one type.
    Same(u32, ValueType),
    /// One by one, where the runs are short.
    Each(Vec<ValueType>),
    Runs(LocalRuns),
}

/// The types of a function's locals, parameters left out. Clauses see them one by one.
#[derive(Drop)]
pub struct LocalList {
    kept: Kept,
}

impl Model for LocalList {
    ghost use Rattle.std.specs.Prelude.{List, length, ◌≤◌};
    ghost use Rattle.wasm_syntax.specs.declared.types.ValueType.{ValueType as Types};

    ghost Value = { List Types };

    ghost use Rattle.wasm_syntax.specs.LocalLists.{kept_types};

    ghost view = { λ a. kept_types a.kept };

    ghost invariant = { λ a. length (kept_types a.kept) ≤ 4096 };
}

impl LocalList {
    /// Those of runs.
    pub fn of(alloc: Global, runs: LocalRuns) -> Result<LocalList, OutOfMemory>
        requires { length runs ≤ 4096 }
        ensures { IfOk result (λ list. list ≡ runs) }
    {
        if let Some((n, of)) = runs.only() {
            return Ok(LocalList {
                kept: Kept::Same(n, of),
            });
        }
        if !runs.is_dense() {
            return Ok(LocalList {
                kept: Kept::Runs(runs),
            });
        }
        let mut types = Vec::with_capacity(alloc, runs.len() as usize)?;
        runs.put_at(&mut types);
        Ok(LocalList {
            kept: Kept::Each(types),
        })
    }

    /// How many locals there are.
    pub fn len(&self) -> u32
        ensures count { result ≡ length self.now }
        ensures few { result ≤ 4096 }
    {
        match &self.kept {
            Kept::Same(n, _) => *n,
            Kept::Each(types) => types.len() as u32,
            Kept::Runs(runs) => runs.len(),
        }
    }

    /// The type of a local.
    pub fn get(&self, x: u32) -> Option<ValueType>
        ensures { result ≡ slice_get self.now x }
    {
        match &self.kept {
            Kept::Same(n, of) => same(*n, *of, x),
            Kept::Each(types) => types.get(x as usize).copied(),
            Kept::Runs(runs) => runs.get(x),
        }
    }

    /// How many locals from an index on are of one type, at least one, and their type.
    pub fn run(&self, x: u32) -> (u32, ValueType)
        requires { x < length self.now }
        ensures some { 0 < result.0 }
        ensures within { x + result.0 ≤ length self.now }
        ensures run { drop x self.now ≡ replicate result.0 result.1 ++ drop (x + result.0) self.now }
    {
        match &self.kept {
            Kept::Same(n, of) => (*n - x, *of),
            Kept::Each(types) => (1, types[x as usize]),
            Kept::Runs(runs) => runs.run(x),
        }
    }

    /// Puts the types at the end, for which there is room.
    pub fn put_at(&self, types: &mut Vec<ValueType>)
        requires { vec_len types.old + length self.now ≤ vec_capacity types.old }
        ensures items { types.new.items ≡ types.old.items ++ self.now }
        ensures capacity { vec_capacity types.old ≤ vec_capacity types.new }
    {
        match &self.kept {
            Kept::Same(n, of) => append(types, alike(*n, *of)),
            Kept::Each(each) => append(types, each.as_slice()),
            Kept::Runs(runs) => runs.put_at(types),
        }
    }

    /// The same.
    pub fn copy(&self, alloc: Global) -> Result<LocalList, OutOfMemory>
        ensures { IfOk result (λ copy. copy ≡ self.now) }
    {
        match &self.kept {
            Kept::Same(n, of) => Ok(LocalList {
                kept: Kept::Same(*n, *of),
            }),
            Kept::Each(each) => {
                let mut types = Vec::with_capacity(alloc, each.len())?;
                append(&mut types, each.as_slice());
                Ok(LocalList {
                    kept: Kept::Each(types),
                })
            }
            Kept::Runs(runs) => Ok(LocalList {
                kept: Kept::Runs(runs.copy(alloc)?),
            }),
        }
    }
}
