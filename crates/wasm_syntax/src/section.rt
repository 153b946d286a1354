//! Sections, one after the other (WebAssembly Core 1.0 section 5.5).

use crate::instr::Indices;
use crate::module::{Code, Element, Export, Global, Import, Segment};
use crate::types::{FunctionType, Limits};
use gate_base::Members;

/// What a section says.
#[derive(Drop)]
pub enum Section {
    /// Nothing that is kept.
    Custom,
    Types(Members<FunctionType>),
    Imports(Members<Import>),
    Functions(Indices),
    Tables(Members<Limits>),
    Memories(Members<Limits>),
    Globals(Members<Global>),
    Exports(Members<Export>),
    Start(u32),
    Elements(Members<Element>),
    Codes(Members<Code>),
    Segments(Members<Segment>),
}

/// The sections so far: the greatest id, and how many functions and codes there are, where there
/// were such sections.
#[derive(Clone, Copy, PartialEq, Eq)]
pub struct Before {
    /// The greatest id, 0 before the first.
    pub last: u8,
    /// How many functions the function section has.
    pub functions: Option<usize>,
    /// How many codes the code section has.
    pub codes: Option<usize>,
}
