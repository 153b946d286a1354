//! Rules of the grammar that are repeated.

ghost use Rattle.std.specs.Prelude.{◌≡◌, ◌≤◌, length, List};
ghost use Rattle.wasm_syntax.specs.Format.{Format, repeated as repeated_format};
ghost use Rattle.wasm_syntax.specs.Items.{vector as vector_format};
ghost use Rattle.wasm_reader.specs.Steps.{AreWithin, Reads};

use crate::ends::{Bounds, ReadEnd};
use crate::items::count;
use gate_base::Members;
use std::alloc::Global;
use std::marker::PhantomData;

/// A rule of the grammar.
pub(crate) trait Rule<T> {
    ghost format: { Format T };

    /// Reads what the rule says.
    fn read(alloc: Global, b: &[u8], at: usize, k: Bounds) -> Result<(T, usize), ReadEnd>
        requires place { at ≤ length b.now }
        requires bounds { AreWithin b.now k }
        ensures { Reads format b.now at k result };
}

/// Reads so many in a row.
pub(crate) fn repeated<T: Drop, R: Rule<T>>(
    alloc: Global,
    count: u32,
    b: &[u8],
    at: usize,
    k: Bounds,
) -> Result<(Members<T>, usize), ReadEnd>
    requires place { at ≤ length b.now }
    requires bounds { AreWithin b.now k }
    ensures { Reads (repeated_format count R.format) b.now at k result }
{
    let mut members = Members::new(alloc);
    let mut place = at;
    for _ in 0..count {
        let (member, behind) = R::read(alloc, b, place, k)?;
        members.push(member)?;
        place = behind;
    }
    Ok((members, place))
}

/// Reads a count and so many.
pub(crate) fn vector<T: Drop, R: Rule<T>>(
    alloc: Global,
    b: &[u8],
    at: usize,
    k: Bounds,
) -> Result<(Members<T>, usize), ReadEnd>
    requires place { at ≤ length b.now }
    requires bounds { AreWithin b.now k }
    ensures { Reads (vector_format R.format) b.now at k result }
{
    let (n, start) = count(b, at, k, 65536)?;
    repeated::<T, R>(alloc, n, b, start, k)
}

/// A count and so many of a rule.
pub(crate) struct Vectors<R> {
    of: PhantomData<R>,
}

impl<T: Drop, R: Rule<T>> Rule<Members<T>> for Vectors<R> {
    ghost format = { vector_format R.format };

    fn read(alloc: Global, b: &[u8], at: usize, k: Bounds) -> Result<(Members<T>, usize), ReadEnd> {
        vector::<T, R>(alloc, b, at, k)
    }
}
