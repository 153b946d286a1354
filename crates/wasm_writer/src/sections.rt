//! Sections.

ghost use Rattle.std.specs.Prelude.{◌≡◌, ◌++◌, OnOk};
ghost use Rattle.wasm_writer.specs.Written.{section_bytes, members_bytes, start_bytes, part_bytes};

use crate::entries::{Elements, Exports, Globals, Imports, Segments};
use crate::locals::Codes;
use crate::rules::{Form, Numbers, sized, vector};
use crate::types::{FunctionTypes, MemoryTypes, TableTypes};
use gate_base::{Members, Octets, OutOfMemory};
use std::alloc::Global as Memory;
use wasm_syntax::{
    Code, Element, Export, FunctionType, Global, Import, Limits, Module, SectionKind, Segment,
    write_u32,
};

/// Puts a section at the end.
fn write_section(out: &mut Octets, kind: SectionKind, content: &[u8]) -> Result<(), OutOfMemory>
    ensures { OnOk result (out.new ≡ out.old ++ section_bytes kind content.now) }
{
    out.push(kind.id())?;
    sized(out, content)
}

/// Puts a section of members at the end, and nothing where there are none.
fn write_members<T, F: Form<T>>(
    alloc: Memory,
    out: &mut Octets,
    kind: SectionKind,
    members: &Members<T>,
) -> Result<(), OutOfMemory>
    ensures { OnOk result (out.new ≡ out.old ++ members_bytes kind F.bytes members.now) }
{
    if members.is_empty() {
        return Ok(());
    }
    let mut content = Octets::new(alloc);
    vector::<T, F>(alloc, &mut content, members)?;
    write_section(out, kind, content.as_slice())
}

/// Puts the section of the function that runs at the start at the end, and nothing where there is none.
fn write_start(alloc: Memory, out: &mut Octets, start: Option<u32>) -> Result<(), OutOfMemory>
    ensures { OnOk result (out.new ≡ out.old ++ start_bytes start) }
{
    match start {
        Some(n) => {
            let mut content = Octets::new(alloc);
            write_u32(&mut content, n)?;
            write_section(out, SectionKind::Start, content.as_slice())
        }
        None => Ok(()),
    }
}

/// Puts what a module has for a section at the end.
pub(crate) fn write_part(
    alloc: Memory,
    out: &mut Octets,
    m: &Module,
    kind: SectionKind,
) -> Result<(), OutOfMemory>
    ensures { OnOk result (out.new ≡ out.old ++ part_bytes m.now kind) }
{
    match kind {
        SectionKind::Custom => Ok(()),
        SectionKind::Type => write_members::<FunctionType, FunctionTypes>(
            alloc, out, kind, &m.types,
        ),
        SectionKind::Import => write_members::<Import, Imports>(alloc, out, kind, &m.imports),
        SectionKind::Function => write_members::<u32, Numbers>(alloc, out, kind, &m.functions),
        SectionKind::Table => write_members::<Limits, TableTypes>(alloc, out, kind, &m.tables),
        SectionKind::Memory => write_members::<Limits, MemoryTypes>(alloc, out, kind, &m.memories),
        SectionKind::Global => write_members::<Global, Globals>(alloc, out, kind, &m.globals),
        SectionKind::Export => write_members::<Export, Exports>(alloc, out, kind, &m.exports),
        SectionKind::Start => write_start(alloc, out, m.start),
        SectionKind::Element => write_members::<Element, Elements>(alloc, out, kind, &m.elements),
        SectionKind::Code => write_members::<Code, Codes>(alloc, out, kind, &m.codes),
        SectionKind::Data => write_members::<Segment, Segments>(alloc, out, kind, &m.segments),
    }
}
