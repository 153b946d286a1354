//! Sections.

ghost use Rattle.std.specs.Prelude.{◌≡◌, ◌≤◌, ◌-◌, length};
ghost use Rattle.wasm_syntax.specs.Items.{byte_as, sized as sized_format, vector as vector_format, agreed_u32, at_most};
ghost use Rattle.wasm_syntax.specs.Format.{bounded, repeated as repeated_format};
ghost use Rattle.wasm_syntax.specs.Grammar.{code as code_format, code_vector, section_kind_of, section_of, section as section_format, after as after_format, with_section, is_complete as is_complete_format};
ghost use Rattle.wasm_reader.specs.Steps.{AreWithin, Reads};

use crate::ends::{Bounds, ReadEnd};
use crate::entries::{Elements, Exports, Globals, Imports, Segments};
use crate::items::{BAD_SECTION, SIZE_MISMATCH, code_count, cut_off, index, judged};
use crate::locals::Codes;
use crate::rules::{Rule, Vectors, repeated};
use crate::sizes::{bounds_from, custom, leave, passes, size_of, sized};
use crate::types::{FunctionTypes, MemoryTypes, Numbers, TableTypes};
use gate_base::Members;
use std::alloc::Global as Memory;
use wasm_syntax::{
    Before, Code, Element, Export, FunctionType, Global, Import, Limits, Module, SECTIONS, Section,
    SectionKind, Segment,
};

/// Reads a size, a count and so many, which fill the size.
fn members<T: Drop, R: Rule<T>>(
    alloc: Memory,
    b: &[u8],
    at: usize,
    k: Bounds,
) -> Result<(Members<T>, usize), ReadEnd>
    requires place { at ≤ length b.now }
    requires bounds { AreWithin b.now k }
    ensures { Reads (sized_format (vector_format R.format)) b.now at k result }
{
    sized::<Members<T>, Vectors<R>>(alloc, b, at, k)
}

/// Reads the codes, which are as many as the functions.
#[tactic(auto, unfolding(wasm_syntax::specs::Grammar::code_vector))]
fn codes(
    alloc: Memory,
    b: &[u8],
    at: usize,
    k: Bounds,
    declared: Option<usize>,
) -> Result<(Members<Code>, usize), ReadEnd>
    requires place { at ≤ length b.now }
    requires bounds { AreWithin b.now k }
    ensures { Reads (code_vector declared) b.now at k result }
{
    let (n, start) = code_count(b, at, k, declared)?;
    repeated::<Code, Codes>(alloc, n, b, start, k)
}

/// Reads a size and the codes, which fill it.
fn sized_codes(
    alloc: Memory,
    b: &[u8],
    at: usize,
    k: Bounds,
    declared: Option<usize>,
) -> Result<(Members<Code>, usize), ReadEnd>
    requires place { at ≤ length b.now }
    requires bounds { AreWithin b.now k }
    ensures { Reads (sized_format (code_vector declared)) b.now at k result }
{
    let (n, start) = index(b, at, k)?;
    if passes(b, start, n, k) {
        return Err(ReadEnd::Refused {
            number: SIZE_MISMATCH,
            place: size_of(k),
        });
    }
    let inner = bounds_from(b, start, n, at);
    let (content, place) = codes(alloc, b, start, inner, declared)?;
    leave(b, place, inner)?;
    Ok((content, place))
}

/// What a byte says as the id of a section.
fn kind_at(before: Before, byte: u8) -> Result<SectionKind, u8>
    ensures { result ≡ section_kind_of before byte }
{
    if (byte == 0 || before.last < byte) && (byte as usize) < SECTIONS.len() {
        Ok(SECTIONS[byte as usize])
    } else {
        Err(BAD_SECTION)
    }
}

/// Reads the id of a section.
fn kind(b: &[u8], at: usize, k: Bounds, before: Before) -> Result<(SectionKind, usize), ReadEnd>
    requires place { at ≤ length b.now }
    requires bounds { AreWithin b.now k }
    ensures { Reads (byte_as (section_kind_of before)) b.now at k result }
{
    if at == b.len() {
        return Err(cut_off(b));
    }
    judged(b, at, k, kind_at(before, b[at]))
}

/// Reads what stands behind the id of a section.
#[tactic(auto, unfolding(wasm_syntax::specs::Grammar::section_of))]
fn content(
    alloc: Memory,
    b: &[u8],
    at: usize,
    k: Bounds,
    declared: Option<usize>,
    kind: SectionKind,
) -> Result<(Section, usize), ReadEnd>
    requires place { at ≤ length b.now }
    requires bounds { AreWithin b.now k }
    ensures { Reads (section_of declared kind) b.now at k result }
{
    match kind {
        SectionKind::Custom => {
            let (_name, at) = custom(alloc, b, at, k)?;
            Ok((Section::Custom, at))
        }
        SectionKind::Type => {
            let (xs, at) = members::<FunctionType, FunctionTypes>(alloc, b, at, k)?;
            Ok((Section::Types(xs), at))
        }
        SectionKind::Import => {
            let (xs, at) = members::<Import, Imports>(alloc, b, at, k)?;
            Ok((Section::Imports(xs), at))
        }
        SectionKind::Function => {
            let (xs, at) = members::<u32, Numbers>(alloc, b, at, k)?;
            Ok((Section::Functions(xs), at))
        }
        SectionKind::Table => {
            let (xs, at) = members::<Limits, TableTypes>(alloc, b, at, k)?;
            Ok((Section::Tables(xs), at))
        }
        SectionKind::Memory => {
            let (xs, at) = members::<Limits, MemoryTypes>(alloc, b, at, k)?;
            Ok((Section::Memories(xs), at))
        }
        SectionKind::Global => {
            let (xs, at) = members::<Global, Globals>(alloc, b, at, k)?;
            Ok((Section::Globals(xs), at))
        }
        SectionKind::Export => {
            let (xs, at) = members::<Export, Exports>(alloc, b, at, k)?;
            Ok((Section::Exports(xs), at))
        }
        SectionKind::Start => {
            let (n, at) = sized::<u32, Numbers>(alloc, b, at, k)?;
            Ok((Section::Start(n), at))
        }
        SectionKind::Element => {
            let (xs, at) = members::<Element, Elements>(alloc, b, at, k)?;
            Ok((Section::Elements(xs), at))
        }
        SectionKind::Code => {
            let (xs, at) = sized_codes(alloc, b, at, k, declared)?;
            Ok((Section::Codes(xs), at))
        }
        SectionKind::Data => {
            let (xs, at) = members::<Segment, Segments>(alloc, b, at, k)?;
            Ok((Section::Segments(xs), at))
        }
    }
}

/// Reads a section.
#[tactic(auto, unfolding(wasm_syntax::specs::Grammar::section))]
pub(crate) fn section(
    alloc: Memory,
    b: &[u8],
    at: usize,
    k: Bounds,
    before: Before,
) -> Result<(Section, usize), ReadEnd>
    requires place { at ≤ length b.now }
    requires bounds { AreWithin b.now k }
    ensures { Reads (section_format before) b.now at k result }
{
    let (kind, at) = kind(b, at, k, before)?;
    content(alloc, b, at, k, before.functions, kind)
}

/// What stands before the section behind this one.
pub(crate) fn after(before: Before, section: &Section) -> Before
    ensures { result ≡ after_format before section.now }
{
    match section {
        Section::Custom => before,
        Section::Types(_) => Before { last: 1, ..before },
        Section::Imports(_) => Before { last: 2, ..before },
        Section::Functions(xs) => Before {
            last: 3,
            functions: Some(xs.len()),
            ..before
        },
        Section::Tables(_) => Before { last: 4, ..before },
        Section::Memories(_) => Before { last: 5, ..before },
        Section::Globals(_) => Before { last: 6, ..before },
        Section::Exports(_) => Before { last: 7, ..before },
        Section::Start(_) => Before { last: 8, ..before },
        Section::Elements(_) => Before { last: 9, ..before },
        Section::Codes(xs) => Before {
            last: 10,
            codes: Some(xs.len()),
            ..before
        },
        Section::Segments(_) => Before { last: 11, ..before },
    }
}

/// Puts what a section says into the module.
pub(crate) fn put(into: &mut Module, section: Section)
    ensures { into.new ≡ with_section into.old section }
{
    match section {
        Section::Custom => {}
        Section::Types(xs) => into.types = xs,
        Section::Imports(xs) => into.imports = xs,
        Section::Functions(xs) => into.functions = xs,
        Section::Tables(xs) => into.tables = xs,
        Section::Memories(xs) => into.memories = xs,
        Section::Globals(xs) => into.globals = xs,
        Section::Exports(xs) => into.exports = xs,
        Section::Start(n) => into.start = Some(n),
        Section::Elements(xs) => into.elements = xs,
        Section::Codes(xs) => into.codes = xs,
        Section::Segments(xs) => into.segments = xs,
    }
}

/// Whether functions and codes are as many, where one of the two sections is missing.
pub(crate) fn is_complete(before: Before) -> bool
    ensures { result ≡ is_complete_format before.functions before.codes }
{
    match (before.functions, before.codes) {
        (None, None) => true,
        (None, Some(n)) | (Some(n), None) => n == 0,
        (Some(_), Some(_)) => true,
    }
}
