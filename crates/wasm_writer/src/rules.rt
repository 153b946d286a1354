//! Sizes, vectors, and content that has its size in front.

ghost use Rattle.std.specs.Prelude.{◌≡◌, ◌++◌, length, OnOk};
ghost use Rattle.wasm_syntax.specs.Numbers.{u32_bytes};
ghost use Rattle.wasm_writer.specs.Written.{size_bytes, vector_bytes, sized_bytes};

use gate_base::{Members, Octets, OutOfMemory};
use std::alloc::Global;
use wasm_syntax::write_u32;

/// A rule of the grammar.
pub(crate) trait Form<T> {
    ghost use Rattle.std.specs.Prelude.{◌≡◌, ◌++◌, OnOk, List, ℕ};

    ghost bytes: { T → List ℕ };

    /// Puts what is written for a value at the end.
    fn write(alloc: Global, out: &mut Octets, x: &T) -> Result<(), OutOfMemory>
        ensures { OnOk result (out.new ≡ out.old ++ bytes x.now) };
}

/// Puts a size or a count at the end, in its shortest spelling.
pub(crate) fn write_size(out: &mut Octets, n: usize) -> Result<(), OutOfMemory>
    ensures { OnOk result (out.new ≡ out.old ++ size_bytes n) }
{
    let mut rest = n;
    while rest >= 128 {
        out.push((128 + rest % 128) as u8)?;
        rest /= 128;
    }
    out.push(rest as u8)
}

/// Puts bytes at the end, behind their size.
pub(crate) fn sized(out: &mut Octets, content: &[u8]) -> Result<(), OutOfMemory>
    ensures { OnOk result (out.new ≡ out.old ++ sized_bytes content.now) }
{
    write_size(out, content.len())?;
    out.extend_from_slice(content)
}

/// Puts a count and the members at the end.
pub(crate) fn vector<T, F: Form<T>>(
    alloc: Global,
    out: &mut Octets,
    members: &Members<T>,
) -> Result<(), OutOfMemory>
    ensures { OnOk result (out.new ≡ out.old ++ vector_bytes F.bytes members.now) }
{
    write_size(out, members.len())?;
    for x in members.as_slice() {
        F::write(alloc, out, x)?;
    }
    Ok(())
}

/// A number, as an index.
pub(crate) struct Numbers;

impl Form<u32> for Numbers {
    ghost bytes = { u32_bytes };

    fn write(_alloc: Global, out: &mut Octets, x: &u32) -> Result<(), OutOfMemory> {
        write_u32(out, *x)
    }
}
