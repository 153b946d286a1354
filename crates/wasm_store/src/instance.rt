//! How a module becomes an instance.

ghost use Rattle.std.specs.Prelude.{◌≡◌, ◌≤◌, length, not, None, IfOk};
ghost use Rattle.wasm_syntax.specs.Stores.{fits, first_pages as first_pages_of, table_size as table_size_of, growth_bound as growth_bound_of, initial_stores};
ghost use Rattle.wasm_store.specs.Linking.{Links as LinksAs, judgement, is_unknown as tells_unknown, is_other_type as tells_other_type, first_unknown as first_unknown_of, first_other_type as first_other_type_of, first_element_outside as first_element_of, first_segment_outside as first_segment_of, link_fault};
ghost use Rattle.wasm_store.specs.Memories.{IsWhole};
ghost use Rattle.wasm_store.specs.Instances.{IsInstance};
ghost use Rattle.wasm_store.specs.Parted.{seen_as};

use crate::globals::Globals;
use crate::links::{Judged, Links};
use crate::memory::{Memory, PAGE};
use crate::segments::offset;
use crate::table::Table;
use gate_base::OutOfMemory;
use std::alloc::Global;
use std::marker::Model;
use wasm_syntax::{Import, ImportKind, Module, ValidModule};

/// A module with its memory, its table and its globals. A module without a memory has one of no bytes that
/// never grows, and one without a table has one of no elements.
#[derive(Drop)]
pub struct Instance {
    module: ValidModule,
    memory: Memory,
    table: Table,
    globals: Globals,
}

impl Model for Instance {
    ghost use Rattle.wasm_store.specs.Instances.{Instantiated, IsInstance};

    ghost Value = { Instantiated };

    ghost view = { λ a. record { of = a.module; memory = a.memory; table = a.table; globals = a.globals } };

    ghost invariant = { λ a. IsInstance (record { of = a.module; memory = a.memory; table = a.table; globals = a.globals }) };
}

/// The parts of an instance.
#[derive(Drop)]
pub struct Parts {
    /// The module.
    pub module: ValidModule,
    /// Its memory.
    pub memory: Memory,
    /// Its table.
    pub table: Table,
    /// Its globals.
    pub globals: Globals,
}

/// Why a module was not linked: the first of these causes, in this order, each at the lowest index.
#[derive(Clone, Copy, PartialEq, Eq)]
pub enum LinkEnd {
    /// An import that is no function, or that the host does not know.
    UnknownImport { index: usize },
    /// An import that the host has with another type.
    ImportType { index: usize },
    /// The memory begins with more pages than are allowed.
    PagesOverCap,
    /// Elements that end outside the table.
    ElementOutside { index: usize },
    /// A data segment that ends outside the memory.
    DataOutside { index: usize },
    /// There was no memory to make the instance.
    OutOfMemory,
}

impl From<OutOfMemory> for LinkEnd {
    ghost use Rattle.wasm_store.specs.declared.instance.LinkEnd.TheVariants as end;

    ghost from_gives = { λ _ e. e ≡ end.OutOfMemory };

    fn from(_e: OutOfMemory) -> LinkEnd {
        LinkEnd::OutOfMemory
    }
}

impl Instance {
    /// The instance of a module on a host that offers these functions and allows so many pages. Nothing is
    /// written before all segments have passed. Its memory is reserved up to what it may grow to.
    pub fn new<L: Links>(
        alloc: Global,
        m: ValidModule,
        links: &L,
        pages: u32,
    ) -> Result<Instance, LinkEnd>
        requires { pages ≤ 256 }
        ensures { LinksAs (link_fault (L.judged links.now) m pages) m pages result }
    {
        if let Some(e) = fault(links, m.module(), pages) {
            return Err(e);
        }
        let memory = filled_memory(alloc, m.module(), pages)?;
        let table = filled_table(alloc, m.module())?;
        let globals = Globals::initial(alloc, m.module())?;
        Ok(Instance {
            module: m,
            memory,
            table,
            globals,
        })
    }

    /// Its module.
    pub fn module(&self) -> &Module
        ensures is { result.now ≡ self.now.of }
        ensures kept { IsInstance self.now }
    {
        self.module.module()
    }

    /// Its memory.
    pub fn memory(&self) -> &Memory
        ensures { result.now ≡ self.now.memory }
    {
        &self.memory
    }

    /// Its table.
    pub fn table(&self) -> &Table
        ensures { result.now ≡ self.now.table }
    {
        &self.table
    }

    /// Its globals.
    pub fn globals(&self) -> &Globals
        ensures { result.now ≡ self.now.globals }
    {
        &self.globals
    }

    /// Its parts.
    pub fn into_parts(self) -> Parts
        ensures same { seen_as result ≡ self }
        ensures kept { IsInstance (seen_as result) }
    {
        Parts {
            module: self.module,
            memory: self.memory,
            table: self.table,
            globals: self.globals,
        }
    }
}

/// The first cause why a module cannot be linked on a host that offers these functions and allows so many pages, and none
/// exactly where nothing stands against it. It takes no memory, so it is never want of it.
pub fn fault<L: Links>(links: &L, m: &Module, pages: u32) -> Option<LinkEnd>
    ensures { result ≡ link_fault (L.judged links.now) m.now pages }
{
    if let Some(index) = first_unknown(links, m) {
        return Some(LinkEnd::UnknownImport { index });
    }
    if let Some(index) = first_other_type(links, m) {
        return Some(LinkEnd::ImportType { index });
    }
    if first_pages(m) > pages {
        return Some(LinkEnd::PagesOverCap);
    }
    if let Some(index) = first_element_outside(m) {
        return Some(LinkEnd::ElementOutside { index });
    }
    match first_segment_outside(m) {
        Some(index) => Some(LinkEnd::DataOutside { index }),
        None => None,
    }
}

/// What the host says of an import.
fn judge<L: Links>(links: &L, m: &Module, i: &Import) -> Judged
    ensures { result ≡ judgement (L.judged links.now) m.now.types i.now }
{
    match i.kind {
        ImportKind::Function(x) => match m.types.as_slice().get(x as usize) {
            Some(t) => links.judge(i.module.as_str().as_bytes(), i.name.as_str().as_bytes(), t),
            None => Judged::Unknown,
        },
        ImportKind::Table(_) | ImportKind::Memory(_) | ImportKind::Global(_) => Judged::Unknown,
    }
}

/// Whether it says that it does not know it.
fn is_unknown(j: Judged) -> bool
    ensures { result ≡ tells_unknown j }
{
    match j {
        Judged::Unknown => true,
        Judged::Linked | Judged::OtherType => false,
    }
}

/// Whether it says that it has another type.
fn is_other_type(j: Judged) -> bool
    ensures { result ≡ tells_other_type j }
{
    match j {
        Judged::OtherType => true,
        Judged::Linked | Judged::Unknown => false,
    }
}

/// The first import that is no function, or that the host does not know.
fn first_unknown<L: Links>(links: &L, m: &Module) -> Option<usize>
    ensures { result ≡ first_unknown_of (L.judged links.now) m.now }
{
    m.imports
        .as_slice()
        .iter()
        .position(|i| is_unknown(judge(links, m, i)))
}

/// The first import that the host has with another type.
fn first_other_type<L: Links>(links: &L, m: &Module) -> Option<usize>
    ensures { result ≡ first_other_type_of (L.judged links.now) m.now }
{
    m.imports
        .as_slice()
        .iter()
        .position(|i| is_other_type(judge(links, m, i)))
}

/// The pages that the memory begins with.
pub(crate) fn first_pages(m: &Module) -> u32
    ensures { result ≡ first_pages_of m.now }
{
    match m.memories.as_slice().first() {
        Some(l) => l.minimum,
        None => 0,
    }
}

/// The elements that the table has.
fn table_size(m: &Module) -> u32
    ensures { result ≡ table_size_of m.now }
{
    match m.tables.as_slice().first() {
        Some(l) => l.minimum,
        None => 0,
    }
}

/// The pages that the memory never grows past.
pub(crate) fn growth_bound(m: &Module, pages: u32) -> u32
    ensures is { result ≡ growth_bound_of m.now pages }
    ensures most { result ≤ pages }
{
    match m.memories.as_slice().first() {
        Some(l) => match l.maximum {
            Some(most) => most.min(pages),
            None => pages.min(65_536),
        },
        None => 0,
    }
}

/// Whether so many members from a place on do not all lie in a list of that length.
fn is_outside(size: u64, at: u64, count: usize) -> bool
    ensures { result ≡ not (fits size at count) }
{
    at > size || count as u64 > size - at
}

/// The first elements that end outside the table.
fn first_element_outside(m: &Module) -> Option<usize>
    ensures { result ≡ first_element_of m.now }
{
    let size = u64::from(table_size(m));
    m.elements.as_slice().iter().position(|e| is_outside(
        size,
        offset(e.offset.as_slice()),
        e.functions.len(),
    ))
}

/// The first data segment that ends outside the memory.
fn first_segment_outside(m: &Module) -> Option<usize>
    ensures { result ≡ first_segment_of m.now }
{
    let size = u64::from(first_pages(m)) * PAGE as u64;
    m.segments.as_slice().iter().position(|s| is_outside(
        size,
        offset(s.offset.as_slice()),
        s.bytes.as_slice().len(),
    ))
}

/// The memory at the start, with all data segments.
pub(crate) fn filled_memory(alloc: Global, m: &Module, pages: u32) -> Result<Memory, OutOfMemory>
    requires cap { pages ≤ 256 }
    requires within { first_pages_of m.now ≤ growth_bound_of m.now pages }
    requires inside { first_segment_of m.now ≡ None }
    ensures bytes { IfOk result (λ a. a.bytes ≡ (initial_stores m.now).memory) }
    ensures most { IfOk result (λ a. a.most ≡ growth_bound_of m.now pages) }
    ensures whole { IfOk result IsWhole }
{
    let mut memory = Memory::new(alloc, first_pages(m), growth_bound(m, pages))?;
    for s in m.segments.as_slice() {
        match memory.write(offset(s.offset.as_slice()), s.bytes.as_slice()) {
            Some(()) => {}
            None => unreachable!(),
        }
    }
    Ok(memory)
}

/// The table at the start, with all elements.
pub(crate) fn filled_table(alloc: Global, m: &Module) -> Result<Table, OutOfMemory>
    requires { first_element_of m.now ≡ None }
    ensures is { IfOk result (λ t. t ≡ (initial_stores m.now).table) }
    ensures size { IfOk result (λ t. length t ≡ table_size_of m.now) }
{
    let mut table = Table::new(alloc, table_size(m))?;
    for e in m.elements.as_slice() {
        table.put(offset(e.offset.as_slice()) as usize, e.functions.as_slice());
    }
    Ok(table)
}
