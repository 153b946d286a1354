//! Entries of the sections.

ghost use Rattle.std.specs.Prelude.{◌≡◌, ◌++◌, OnOk};
ghost use Rattle.wasm_writer.specs.Written.{import_kind_bytes, import_bytes, export_kind_bytes, export_bytes, global_bytes, element_bytes, segment_bytes};

use crate::code::write_expression;
use crate::rules::{Form, Numbers, sized, vector};
use crate::types::{write_global_type, write_memory_type, write_name, write_table_type};
use gate_base::{Octets, OutOfMemory};
use std::alloc::Global as Memory;
use wasm_syntax::{
    Element, Export, ExportKind, ExternalKind, Global, Import, ImportKind, Segment, write_u32,
};

/// Puts what is imported at the end.
fn write_import_kind(out: &mut Octets, kind: ImportKind) -> Result<(), OutOfMemory>
    ensures { OnOk result (out.new ≡ out.old ++ import_kind_bytes kind) }
{
    match kind {
        ImportKind::Function(n) => {
            out.push(ExternalKind::Function.byte())?;
            write_u32(out, n)
        }
        ImportKind::Table(of) => {
            out.push(ExternalKind::Table.byte())?;
            write_table_type(out, of)
        }
        ImportKind::Memory(of) => {
            out.push(ExternalKind::Memory.byte())?;
            write_memory_type(out, of)
        }
        ImportKind::Global(of) => {
            out.push(ExternalKind::Global.byte())?;
            write_global_type(out, of)
        }
    }
}

/// An import.
pub(crate) struct Imports;

impl Form<Import> for Imports {
    ghost bytes = { import_bytes };

    #[tactic(auto, unfolding(crate::specs::Written::import_bytes))]
    fn write(_alloc: Memory, out: &mut Octets, x: &Import) -> Result<(), OutOfMemory> {
        write_name(out, &x.module)?;
        write_name(out, &x.name)?;
        write_import_kind(out, x.kind)
    }
}

/// Puts what is exported at the end.
fn write_export_kind(out: &mut Octets, kind: ExportKind) -> Result<(), OutOfMemory>
    ensures { OnOk result (out.new ≡ out.old ++ export_kind_bytes kind) }
{
    let (external, n) = match kind {
        ExportKind::Function(n) => (ExternalKind::Function, n),
        ExportKind::Table(n) => (ExternalKind::Table, n),
        ExportKind::Memory(n) => (ExternalKind::Memory, n),
        ExportKind::Global(n) => (ExternalKind::Global, n),
    };
    out.push(external.byte())?;
    write_u32(out, n)
}

/// An export.
pub(crate) struct Exports;

impl Form<Export> for Exports {
    ghost bytes = { export_bytes };

    #[tactic(auto, unfolding(crate::specs::Written::export_bytes))]
    fn write(_alloc: Memory, out: &mut Octets, x: &Export) -> Result<(), OutOfMemory> {
        write_name(out, &x.name)?;
        write_export_kind(out, x.kind)
    }
}

/// A global.
pub(crate) struct Globals;

impl Form<Global> for Globals {
    ghost bytes = { global_bytes };

    #[tactic(auto, unfolding(crate::specs::Written::global_bytes))]
    fn write(alloc: Memory, out: &mut Octets, x: &Global) -> Result<(), OutOfMemory> {
        write_global_type(out, x.of)?;
        write_expression(alloc, out, &x.initial)
    }
}

/// What goes into a table.
pub(crate) struct Elements;

impl Form<Element> for Elements {
    ghost bytes = { element_bytes };

    #[tactic(auto, unfolding(crate::specs::Written::element_bytes))]
    fn write(alloc: Memory, out: &mut Octets, x: &Element) -> Result<(), OutOfMemory> {
        write_u32(out, x.table)?;
        write_expression(alloc, out, &x.offset)?;
        vector::<u32, Numbers>(alloc, out, &x.functions)
    }
}

/// What goes into a memory.
pub(crate) struct Segments;

impl Form<Segment> for Segments {
    ghost bytes = { segment_bytes };

    #[tactic(auto, unfolding(crate::specs::Written::segment_bytes))]
    fn write(alloc: Memory, out: &mut Octets, x: &Segment) -> Result<(), OutOfMemory> {
        write_u32(out, x.memory)?;
        write_expression(alloc, out, &x.offset)?;
        sized(out, x.bytes.as_slice())
    }
}
