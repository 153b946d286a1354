//! Instances: how a module is linked, and what its memory, table and globals then hold.

ghost use Rattle.std.specs.Prelude.{◌≤◌};

use crate::bytes::Around;
use crate::numeric::shown;
use gate_base::OutOfMemory;
use std::alloc::Global;
use test_rows::{number, word};
use wasm_reader::read_module;
use wasm_store::{Globals, Instance, Judged, LinkEnd, Links, Memory, Parts, Table};
use wasm_syntax::{FunctionType, Value};
use wasm_validator::validate;

/// A host that knows each function that has a name, and has those of at most 16 parameters.
pub struct AnyHost;

impl Links for AnyHost {
    ghost use Rattle.std.specs.Prelude.{nat_eq, nat_le, length, if◌then◌else◌};
    ghost use Rattle.std.proofs.Common.{rules};
    ghost use Rattle.wasm_store.specs.declared.links.Judged.TheVariants.{Linked, Unknown, OtherType};

    ghost judged = { λ _ _ name t. if nat_eq (length name) 0 then Unknown else (if nat_le (length t.parameters) 16 then Linked else OtherType) };

    ghost linked_is_short = { Prim.search rules };

    fn judge(&self, _module: &[u8], name: &[u8], of: &FunctionType) -> Judged {
        if name.is_empty() {
            Judged::Unknown
        } else if of.parameters.len() <= 16 {
            Judged::Linked
        } else {
            Judged::OtherType
        }
    }
}

/// Why there is no instance.
#[derive(Drop)]
pub enum NoInstance {
    /// The bytes are no module.
    Unread,
    /// The module is not valid.
    Invalid,
    /// It is not linked.
    Unlinked(LinkEnd),
}

/// The instance of the module that bytes spell, on such a host and with so many pages allowed.
pub fn instance<L: Links>(
    alloc: Global,
    bytes: &[u8],
    links: &L,
    pages: u32,
) -> Result<Instance, NoInstance>
    requires { pages ≤ 256 }
{
    let Ok(m) = read_module(alloc, bytes) else {
        return Err(NoInstance::Unread);
    };
    let Ok(m) = validate(alloc, m) else {
        return Err(NoInstance::Invalid);
    };
    Instance::new(alloc, m, links, pages).map_err(|end| NoInstance::Unlinked(end))
}

/// How large an instance's parts are.
fn sizes(alloc: Global, i: &Instance) -> Result<String, OutOfMemory> {
    format!(in alloc;
        "linked pages {} elements {} globals {}",
        i.memory().pages(),
        i.table().len(),
        i.globals().as_slice().len()
    )
}

/// Why there is none.
pub fn refused(alloc: Global, end: NoInstance) -> Result<String, OutOfMemory> {
    match end {
        NoInstance::Unread => format!(in alloc; "unread"),
        NoInstance::Invalid => format!(in alloc; "invalid"),
        NoInstance::Unlinked(LinkEnd::UnknownImport { index }) => {
            format!(in alloc; "unknown import {index}")
        }
        NoInstance::Unlinked(LinkEnd::ImportType { index }) => {
            format!(in alloc; "import of another type {index}")
        }
        NoInstance::Unlinked(LinkEnd::PagesOverCap) => format!(in alloc; "too many pages"),
        NoInstance::Unlinked(LinkEnd::ElementOutside { index }) => {
            format!(in alloc; "elements outside {index}")
        }
        NoInstance::Unlinked(LinkEnd::DataOutside { index }) => {
            format!(in alloc; "data outside {index}")
        }
        NoInstance::Unlinked(LinkEnd::OutOfMemory) => format!(in alloc; "out of memory"),
    }
}

/// A load of one of the widths.
fn loaded(m: &Memory, at: u64, width: u64) -> Option<u64> {
    match width {
        1 => m.load(at, 1),
        2 => m.load(at, 2),
        4 => m.load(at, 4),
        _ => m.load(at, 8),
    }
}

/// A store of one of the widths.
fn stored(m: &mut Memory, at: u64, width: u64, v: u64) -> Option<()> {
    match width {
        1 => m.store(at, 1, v),
        2 => m.store(at, 2, v),
        4 => m.store(at, 4, v),
        _ => m.store(at, 8, v),
    }
}

/// A number, if there is one.
fn maybe(alloc: Global, n: Option<u64>) -> Result<String, OutOfMemory> {
    match n {
        Some(n) => format!(in alloc; "{n}"),
        None => format!(in alloc; "none"),
    }
}

/// Grows a memory, and gives the pages before and after.
fn grown(alloc: Global, memory: &mut Memory, by: u64) -> Result<String, OutOfMemory> {
    let before = memory.grow(u32::try_from(by).unwrap_or(u32::MAX));
    format!(in alloc; "{before} {}", memory.pages())
}

/// The function that stands at an index of a table.
fn element(alloc: Global, table: &Table, index: u64) -> Result<String, OutOfMemory> {
    let f = table.function(u32::try_from(index).unwrap_or(u32::MAX));
    maybe(alloc, f.map(|f| u64::from(f)))
}

/// The value of a global, if it is there.
fn global(alloc: Global, globals: &Globals, at: usize) -> Result<String, OutOfMemory> {
    if at < globals.len() {
        shown(alloc, globals.get(at))
    } else {
        maybe(alloc, None)
    }
}

/// Sets a global to a number of 64 bits, if it is there.
fn set(alloc: Global, globals: &mut Globals, at: usize, n: u64) -> Result<String, OutOfMemory> {
    if at >= globals.len() {
        return maybe(alloc, None);
    }
    globals.set(at, Value::I64(n));
    maybe(alloc, Some(n))
}

/// What one step gives: `load AT WIDTH`, `store AT WIDTH N`, `grow PAGES`, `element INDEX`, `global INDEX` or `set INDEX N`.
fn stepped(alloc: Global, parts: &mut Parts, step: &str) -> Result<String, OutOfMemory> {
    let (operation, rest) = word(step);
    let (first, rest) = word(rest);
    let (second, third) = word(rest);
    let (first, second, third) = (number(first), number(second), number(third));
    match operation {
        "load" => maybe(alloc, loaded(&parts.memory, first, second)),
        "store" => {
            let end = stored(&mut parts.memory, first, second, third);
            maybe(alloc, end.map(|_| third))
        }
        "grow" => grown(alloc, &mut parts.memory, first),
        "element" => element(alloc, &parts.table, first),
        "global" => global(alloc, &parts.globals, first as usize),
        _ => set(alloc, &mut parts.globals, first as usize, second),
    }
}

/// What the steps give, each behind `; `.
fn taken(alloc: Global, parts: &mut Parts, steps: &str) -> Result<String, OutOfMemory> {
    let mut text = String::new(alloc);
    if steps.is_empty() {
        return Ok(text);
    }
    for step in steps.split(';') {
        let one = stepped(alloc, parts, step)?;
        text.push_str("; ")?;
        text.push_str(one.as_str())?;
    }
    Ok(text)
}

/// What the steps on the parts of an instance give.
fn on_parts(alloc: Global, i: Instance, steps: &str) -> Result<String, OutOfMemory> {
    let mut parts = i.into_parts();
    taken(alloc, &mut parts, steps)
}

/// How large the parts of an instance are, and what the steps give.
fn all(alloc: Global, i: Instance, steps: &str) -> Result<String, OutOfMemory> {
    let mut text = sizes(alloc, &i)?;
    text.push_str(on_parts(alloc, i, steps)?.as_str())?;
    Ok(text)
}

/// `link PAGES HEX STEPS`: links the module, and takes the steps on the parts of its instance.
pub fn linked(alloc: Global, around: &Around, words: &str) -> Result<String, OutOfMemory> {
    let (pages, rest) = word(words);
    let (digits, steps) = word(rest);
    let pages = number(pages).min(256) as u32;
    let bytes = around.whole(alloc, digits)?;
    match instance(alloc, bytes.as_slice(), &AnyHost, pages) {
        Ok(i) => all(alloc, i, steps),
        Err(end) => refused(alloc, end),
    }
}
