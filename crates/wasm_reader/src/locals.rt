//! Locals, and the code of functions.

ghost use Rattle.std.specs.Prelude.{◌≤◌, ◌-◌, ◌+◌, length, IfOk};
ghost use Rattle.wasm_syntax.specs.Grammar.{local_group as local_group_format, local_groups as local_groups_format, function_body as function_body_format, code as code_format};
ghost use Rattle.wasm_reader.specs.Steps.{AreWithin, Reads};

use crate::code::expression;
use crate::ends::{Bounds, ReadEnd};
use crate::items::{OVER_LIMIT, count, index, value_type};
use crate::rules::Rule;
use crate::sizes::sized;
use std::alloc::Global;
use wasm_syntax::{Code, LocalList, LocalRuns, ValueType};

/// Reads how many locals of one type a group declares, where so many were declared before.
#[tactic(auto, unfolding(wasm_syntax::specs::Grammar::local_group))]
fn local_group(
    b: &[u8],
    at: usize,
    k: Bounds,
    before: u32,
) -> Result<((u32, ValueType), usize), ReadEnd>
    requires place { at ≤ length b.now }
    requires bounds { AreWithin b.now k }
    requires few { before ≤ 4096 }
    ensures reads { Reads (local_group_format before) b.now at k result }
    ensures few_more { IfOk result (λ x. before + x.0.0 ≤ 4096) }
{
    let (n, behind) = index(b, at, k)?;
    if n > 4096 - before {
        return Err(ReadEnd::Refused {
            number: OVER_LIMIT,
            place: at,
        });
    }
    let (of, behind) = value_type(b, behind, k)?;
    Ok(((n, of), behind))
}

/// Reads so many groups of locals.
fn local_groups(
    alloc: Global,
    b: &[u8],
    at: usize,
    k: Bounds,
    groups: u32,
) -> Result<(LocalRuns, usize), ReadEnd>
    requires place { at ≤ length b.now }
    requires bounds { AreWithin b.now k }
    ensures reads { Reads (local_groups_format groups 0) b.now at k result }
    ensures few { IfOk result (λ x. length x.0 ≤ 4096) }
{
    let mut locals = LocalRuns::new(alloc);
    let mut before = 0;
    let mut place = at;
    for _ in 0..groups {
        let ((n, of), behind) = local_group(b, place, k, before)?;
        locals.declare(n, of)?;
        before += n;
        place = behind;
    }
    Ok((locals, place))
}

/// The locals and the instructions of a function.
struct Bodies;

impl Rule<Code> for Bodies {
    ghost format = { function_body_format };

    #[tactic(auto, unfolding(wasm_syntax::specs::Grammar::function_body))]
    fn read(alloc: Global, b: &[u8], at: usize, k: Bounds) -> Result<(Code, usize), ReadEnd> {
        let (groups, at) = count(b, at, k, 65536)?;
        let (runs, at) = local_groups(alloc, b, at, k, groups)?;
        let locals = LocalList::of(alloc, runs)?;
        let (body, at) = expression(alloc, b, at, k)?;
        Ok((Code { locals, body }, at))
    }
}

/// The code of a function.
pub(crate) struct Codes;

impl Rule<Code> for Codes {
    ghost format = { code_format };

    fn read(alloc: Global, b: &[u8], at: usize, k: Bounds) -> Result<(Code, usize), ReadEnd> {
        sized::<Code, Bodies>(alloc, b, at, k)
    }
}
