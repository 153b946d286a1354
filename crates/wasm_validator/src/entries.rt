//! The entries of a module but its codes: for each part, the first that is not valid.

ghost use Rattle.std.specs.Prelude.{◌≡◌, ◌↔◌, ◌<◌, IsTrue, true, false, None, [], length, take};
ghost use Rattle.wasm_syntax.specs.declared.valid.Part.TheVariants as part;
ghost use Rattle.wasm_syntax.specs.Validity.{AreLimits, IsConstant, IsConstantRow, IsElement, IsSegment, IsStart, IsImport, IsExported, IsGood, entries_of, imports_of, table_of, memory_of};
ghost use Rattle.wasm_validator.specs.Parts.{Finds, IsLookedAt};
ghost use Rattle.wasm_validator.specs.Scopes.{IsScope};

use crate::scope::Scope;
use wasm_syntax::{
    Element, ExportKind, GlobalType, Import, ImportKind, Instr, Limits, Module, Part, Row, Segment,
    ValueType,
};

/// Whether limits are within a range and in order.
pub(crate) fn are_limits(range: u64, l: Limits) -> bool
    ensures { IsTrue result ↔ AreLimits range l }
{
    u64::from(l.minimum) <= range
        && match l.maximum {
            Some(most) => u64::from(most) <= range && l.minimum <= most,
            None => true,
        }
}

/// Whether an instruction of this row alone is constant: `imported` are the types of the imported globals.
fn is_constant_row(imported: &[GlobalType], t: ValueType, row: Row) -> bool
    ensures { IsTrue result ↔ IsConstantRow imported.now t row }
{
    match row {
        Row::Const(u) => u == t,
        Row::GlobalGet(x) => match imported.get(x as usize) {
            Some(g) => g.value == t && !g.is_mutable,
            None => false,
        },
        Row::Block(_)
        | Row::Loop(_)
        | Row::If(_)
        | Row::Else
        | Row::End
        | Row::Unreachable
        | Row::Nop
        | Row::Br(_)
        | Row::BrIf(_)
        | Row::BrTable(_)
        | Row::Return
        | Row::Call(_)
        | Row::CallIndirect(_)
        | Row::Drop
        | Row::Select
        | Row::LocalGet(_)
        | Row::LocalSet(_)
        | Row::LocalTee(_)
        | Row::GlobalSet(_)
        | Row::Load(_, _, _)
        | Row::Store(_, _, _)
        | Row::MemorySize
        | Row::MemoryGrow
        | Row::BulkMemory
        | Row::Unary(_, _)
        | Row::Binary(_, _) => false,
    }
}

/// Whether an initial value or an offset is one constant of this type.
pub(crate) fn is_constant(imported: &[GlobalType], t: ValueType, expression: &[Instr]) -> bool
    ensures { IsTrue result ↔ IsConstant imported.now t expression.now }
{
    match expression {
        [i, end] => end.row() == Row::End && is_constant_row(imported, t, i.row()),
        _ => false,
    }
}

/// Whether a table is imported.
pub(crate) fn is_table(kind: ImportKind) -> bool
    ensures no { result ≡ false → table_of kind ≡ None }
    ensures yes { result ≡ true → table_of kind ≡ None → ⊥ }
{
    match kind {
        ImportKind::Table(_) => true,
        ImportKind::Function(_) | ImportKind::Memory(_) | ImportKind::Global(_) => false,
    }
}

/// Whether there is no table among these imports.
fn lack_tables(imports: &[Import]) -> bool
    ensures { IsTrue result ↔ (imports_of table_of imports.now ≡ []) }
{
    for i in imports {
        if is_table(i.kind) {
            return false;
        }
    }
    true
}

/// Whether a memory is imported.
pub(crate) fn is_memory(kind: ImportKind) -> bool
    ensures no { result ≡ false → memory_of kind ≡ None }
    ensures yes { result ≡ true → memory_of kind ≡ None → ⊥ }
{
    match kind {
        ImportKind::Memory(_) => true,
        ImportKind::Function(_) | ImportKind::Table(_) | ImportKind::Global(_) => false,
    }
}

/// Whether there is no memory among these imports.
fn lack_memories(imports: &[Import]) -> bool
    ensures { IsTrue result ↔ (imports_of memory_of imports.now ≡ []) }
{
    for i in imports {
        if is_memory(i.kind) {
            return false;
        }
    }
    true
}

/// Whether an import is valid behind these.
fn is_import(m: &Module, before: &[Import], kind: ImportKind) -> bool
    ensures { IsTrue result ↔ IsImport m.now before.now kind }
{
    match kind {
        ImportKind::Function(x) => (x as usize) < m.types.len(),
        ImportKind::Table(l) => are_limits(4_294_967_296, l) && lack_tables(before),
        ImportKind::Memory(l) => are_limits(65_536, l) && lack_memories(before),
        ImportKind::Global(_) => true,
    }
}

/// Whether elements go into a table at a constant offset, and are functions.
fn is_element(m: &Module, scope: &Scope, e: &Element) -> bool
    requires { IsScope scope.now m.now }
    ensures { IsTrue result ↔ IsElement m.now e.now }
{
    let functions = scope.functions.len();
    (e.table as usize) < scope.tables
        && is_constant(
            scope.imported_globals.as_slice(),
            ValueType::I32,
            e.offset.as_slice(),
        )
        && e.functions
            .as_slice()
            .iter()
            .all(|f| (*f as usize) < functions)
}

/// Whether bytes go into a memory at a constant offset.
fn is_segment(m: &Module, scope: &Scope, s: &Segment) -> bool
    requires { IsScope scope.now m.now }
    ensures { IsTrue result ↔ IsSegment m.now s.now }
{
    (s.memory as usize) < scope.memories
        && is_constant(
            scope.imported_globals.as_slice(),
            ValueType::I32,
            s.offset.as_slice(),
        )
}

/// Whether a function is there that takes nothing and gives nothing.
fn is_start(m: &Module, scope: &Scope, x: u32) -> bool
    requires { IsScope scope.now m.now }
    ensures { IsTrue result ↔ IsStart m.now x }
{
    match scope.functions.as_slice().get(x as usize) {
        Some(f) => match m.types.as_slice().get(*f as usize) {
            Some(t) => t.parameters.is_empty() && t.results.is_empty(),
            None => false,
        },
        None => false,
    }
}

/// Whether what is exported is there.
pub(crate) fn is_exported(m: &Module, scope: &Scope, kind: ExportKind) -> bool
    requires { IsScope scope.now m.now }
    ensures { IsTrue result ↔ IsExported m.now kind }
{
    match kind {
        ExportKind::Function(x) => (x as usize) < scope.functions.len(),
        ExportKind::Table(x) => (x as usize) < scope.tables,
        ExportKind::Memory(x) => (x as usize) < scope.memories,
        ExportKind::Global(x) => (x as usize) < scope.globals.len(),
    }
}

/// Whether an entry of a part other than the exports and the codes is valid.
fn is_good(m: &Module, scope: &Scope, p: Part, n: usize) -> bool
    requires scope { IsScope scope.now m.now }
    requires looked { IsLookedAt p }
    requires there { n < entries_of m.now p }
    ensures { IsTrue result ↔ IsGood m.now p n }
{
    match p {
        Part::Signature => m.types.get(n).results.len() <= 1,
        Part::Import => {
            let imports = m.imports.as_slice();
            is_import(m, &imports[..n], imports[n].kind)
        }
        Part::Function => (*m.functions.get(n) as usize) < m.types.len(),
        Part::Table => are_limits(4_294_967_296, *m.tables.get(n))
            && scope.imported_tables == 0
            && n == 0,
        Part::Memory => are_limits(65_536, *m.memories.get(n))
            && scope.imported_memories == 0
            && n == 0,
        Part::Global => {
            let g = m.globals.get(n);
            is_constant(
                scope.imported_globals.as_slice(),
                g.of.value,
                g.initial.as_slice(),
            )
        }
        Part::Element => is_element(m, scope, m.elements.get(n)),
        Part::Segment => is_segment(m, scope, m.segments.get(n)),
        Part::Start => match m.start {
            Some(x) => is_start(m, scope, x),
            None => unreachable!(),
        },
        Part::Export | Part::Code => unreachable!(),
    }
}

/// How many entries a part has.
fn count(m: &Module, p: Part) -> usize
    ensures { result ≡ entries_of m.now p }
{
    match p {
        Part::Signature => m.types.len(),
        Part::Import => m.imports.len(),
        Part::Function => m.functions.len(),
        Part::Table => m.tables.len(),
        Part::Memory => m.memories.len(),
        Part::Global => m.globals.len(),
        Part::Element => m.elements.len(),
        Part::Segment => m.segments.len(),
        Part::Start => match m.start {
            Some(_) => 1,
            None => 0,
        },
        Part::Export => m.exports.len(),
        Part::Code => m.codes.len(),
    }
}

/// The first entry of a part, other than the exports and the codes, that is not valid.
pub(crate) fn first_bad(m: &Module, scope: &Scope, p: Part) -> Option<usize>
    requires scope { IsScope scope.now m.now }
    requires looked { IsLookedAt p }
    ensures { Finds m.now p result }
{
    let most = count(m, p);
    let mut n = 0;
    while n < most {
        if !is_good(m, scope, p, n) {
            return Some(n);
        }
        n += 1;
    }
    None
}
