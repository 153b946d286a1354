//! Entries of the sections.

ghost use Rattle.std.specs.Prelude.{◌≡◌, ◌≤◌, ◌-◌, length};
ghost use Rattle.wasm_syntax.specs.Items.{u32 as u32_format};
ghost use Rattle.wasm_syntax.specs.Grammar.{import as import_format, import_kind as import_kind_format, export as export_format, export_kind as export_kind_format, global as global_format, element as element_format, segment as segment_format, local_groups as local_groups_format, code as code_format};
ghost use Rattle.wasm_reader.specs.Steps.{AreWithin, Reads};

use crate::code::expression;
use crate::ends::{Bounds, ReadEnd};
use crate::items::{external_kind, index};
use crate::rules::{Rule, vector};
use crate::types::{Numbers, global_type, memory_type, name, octets, table_type};
use std::alloc::Global as Memory;
use wasm_syntax::{Element, Export, ExportKind, ExternalKind, Global, Import, ImportKind, Segment};

/// What is imported, by its kind.
fn import_kind(
    b: &[u8],
    at: usize,
    k: Bounds,
    kind: ExternalKind,
) -> Result<(ImportKind, usize), ReadEnd>
    requires place { at ≤ length b.now }
    requires bounds { AreWithin b.now k }
    ensures { Reads (import_kind_format kind) b.now at k result }
{
    match kind {
        ExternalKind::Function => {
            let (n, at) = index(b, at, k)?;
            Ok((ImportKind::Function(n), at))
        }
        ExternalKind::Table => {
            let (of, at) = table_type(b, at, k)?;
            Ok((ImportKind::Table(of), at))
        }
        ExternalKind::Memory => {
            let (of, at) = memory_type(b, at, k)?;
            Ok((ImportKind::Memory(of), at))
        }
        ExternalKind::Global => {
            let (of, at) = global_type(b, at, k)?;
            Ok((ImportKind::Global(of), at))
        }
    }
}

/// An import.
pub(crate) struct Imports;

impl Rule<Import> for Imports {
    ghost format = { import_format };

    #[tactic(auto, unfolding(wasm_syntax::specs::Grammar::import))]
    fn read(alloc: Memory, b: &[u8], at: usize, k: Bounds) -> Result<(Import, usize), ReadEnd> {
        let (module, at) = name(alloc, b, at, k)?;
        let (name, at) = name(alloc, b, at, k)?;
        let (external, at) = external_kind(b, at, k)?;
        let (kind, at) = import_kind(b, at, k, external)?;
        Ok((Import { module, name, kind }, at))
    }
}

/// What is exported, by its kind.
fn export_kind(kind: ExternalKind, n: u32) -> ExportKind
    ensures { result ≡ export_kind_format kind n }
{
    match kind {
        ExternalKind::Function => ExportKind::Function(n),
        ExternalKind::Table => ExportKind::Table(n),
        ExternalKind::Memory => ExportKind::Memory(n),
        ExternalKind::Global => ExportKind::Global(n),
    }
}

/// An export.
pub(crate) struct Exports;

impl Rule<Export> for Exports {
    ghost format = { export_format };

    #[tactic(auto, unfolding(wasm_syntax::specs::Grammar::export))]
    fn read(alloc: Memory, b: &[u8], at: usize, k: Bounds) -> Result<(Export, usize), ReadEnd> {
        let (name, at) = name(alloc, b, at, k)?;
        let (external, at) = external_kind(b, at, k)?;
        let (n, at) = index(b, at, k)?;
        Ok((
            Export {
                name,
                kind: export_kind(external, n),
            },
            at,
        ))
    }
}

/// A global.
pub(crate) struct Globals;

impl Rule<Global> for Globals {
    ghost format = { global_format };

    #[tactic(auto, unfolding(wasm_syntax::specs::Grammar::global))]
    fn read(alloc: Memory, b: &[u8], at: usize, k: Bounds) -> Result<(Global, usize), ReadEnd> {
        let (of, at) = global_type(b, at, k)?;
        let (initial, at) = expression(alloc, b, at, k)?;
        Ok((Global { of, initial }, at))
    }
}

/// What goes into a table.
pub(crate) struct Elements;

impl Rule<Element> for Elements {
    ghost format = { element_format };

    #[tactic(auto, unfolding(wasm_syntax::specs::Grammar::element))]
    fn read(alloc: Memory, b: &[u8], at: usize, k: Bounds) -> Result<(Element, usize), ReadEnd> {
        let (table, at) = index(b, at, k)?;
        let (offset, at) = expression(alloc, b, at, k)?;
        let (functions, at) = vector::<u32, Numbers>(alloc, b, at, k)?;
        Ok((
            Element {
                table,
                offset,
                functions,
            },
            at,
        ))
    }
}

/// What goes into a memory.
pub(crate) struct Segments;

impl Rule<Segment> for Segments {
    ghost format = { segment_format };

    #[tactic(auto, unfolding(wasm_syntax::specs::Grammar::segment))]
    fn read(alloc: Memory, b: &[u8], at: usize, k: Bounds) -> Result<(Segment, usize), ReadEnd> {
        let (memory, at) = index(b, at, k)?;
        let (offset, at) = expression(alloc, b, at, k)?;
        let (bytes, at) = octets(alloc, b, at, k)?;
        Ok((
            Segment {
                memory,
                offset,
                bytes,
            },
            at,
        ))
    }
}
