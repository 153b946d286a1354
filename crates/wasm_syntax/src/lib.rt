//! WebAssembly modules as plain data, and the numbers of the binary format.
#![tactic(auto)]

mod instr;
mod kinds;
pub mod laws;
mod leb;
mod locals;
mod module;
pub mod module_laws;
mod opcode;
pub mod reduction_laws;
mod row;
mod section;
pub mod spelled_laws;
pub mod store_laws;
mod types;
pub mod typing_laws;
mod valid;
mod write;

pub use instr::{BlockType, Expression, Indices, Instr, Labels, MemoryArgument, Open};
pub use kinds::{EXTERNAL_KINDS, ExternalKind, SECTIONS, SectionKind};
pub use leb::{LebEnd, read_s32, read_s64, read_u32};
pub use locals::{LocalList, LocalRuns};
pub use module::{Code, Element, Export, ExportKind, Global, Import, ImportKind, Module, Segment};
pub use opcode::{OPCODES, Opcode, OpcodeByte, Prefixed, PrefixedNumber, opcode_at, prefixed_at};
pub use row::Row;
pub use section::{Before, Section};
pub use types::{FunctionType, GlobalType, Limits, Value, ValueType, ValueTypes};
pub use valid::{Part, ValidModule};
pub use write::{write_s32, write_s64, write_u32};
