//! Modules (WebAssembly Core 1.0 section 2.5). Custom sections are not kept.

use crate::instr::{Expression, Indices};
use crate::locals::LocalList;
use crate::types::{FunctionType, GlobalType, Limits};
use gate_base::{Members, Octets, Text};

/// What is imported.
#[derive(Clone, Copy, PartialEq, Eq)]
pub enum ImportKind {
    /// A function, by the index of its type.
    Function(u32),
    /// A table.
    Table(Limits),
    /// A memory.
    Memory(Limits),
    /// A global.
    Global(GlobalType),
}

/// An entry of the imports.
#[derive(Drop)]
pub struct Import {
    /// The name of the module that has it.
    pub module: Text,
    /// Its name there.
    pub name: Text,
    /// What it is.
    pub kind: ImportKind,
}

/// A global with its initial value.
#[derive(Drop)]
pub struct Global {
    /// Its type.
    pub of: GlobalType,
    /// Its value at the start.
    pub initial: Expression,
}

/// What is exported, by its index.
#[derive(Clone, Copy, PartialEq, Eq)]
pub enum ExportKind {
    /// A function.
    Function(u32),
    /// A table.
    Table(u32),
    /// A memory.
    Memory(u32),
    /// A global.
    Global(u32),
}

/// An entry of the exports.
#[derive(Drop)]
pub struct Export {
    /// Its name.
    pub name: Text,
    /// What it is.
    pub kind: ExportKind,
}

/// Functions that are put into a table at the start.
#[derive(Drop)]
pub struct Element {
    /// The index of the table.
    pub table: u32,
    /// Where the first goes.
    pub offset: Expression,
    /// The indices of the functions.
    pub functions: Indices,
}

/// The code of a function.
#[derive(Drop)]
pub struct Code {
    /// The types of its locals, parameters left out.
    pub locals: LocalList,
    /// Its instructions, the last `End` included.
    pub body: Expression,
}

/// Bytes that are put into a memory at the start (a data segment).
#[derive(Drop)]
pub struct Segment {
    /// The index of the memory.
    pub memory: u32,
    /// Where the first goes.
    pub offset: Expression,
    /// The bytes.
    pub bytes: Octets,
}

/// A module. Its indices count imports first.
#[derive(Drop)]
pub struct Module {
    /// The types of functions.
    pub types: Members<FunctionType>,
    /// What is imported.
    pub imports: Members<Import>,
    /// The functions of its own, by the indices of their types.
    pub functions: Indices,
    /// The tables of its own.
    pub tables: Members<Limits>,
    /// The memories of its own.
    pub memories: Members<Limits>,
    /// The globals of its own.
    pub globals: Members<Global>,
    /// What is exported.
    pub exports: Members<Export>,
    /// The index of the function that runs at the start, if any.
    pub start: Option<u32>,
    /// What goes into tables.
    pub elements: Members<Element>,
    /// The code of each function of its own.
    pub codes: Members<Code>,
    /// What goes into memories.
    pub segments: Members<Segment>,
}
