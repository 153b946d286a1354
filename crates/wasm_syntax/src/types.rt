//! Types (WebAssembly Core 1.0 section 2.3).

use gate_base::Members;

/// A value of the machine.
#[derive(Clone, Copy, PartialEq, Eq)]
pub enum Value {
    /// 32 bits.
    I32(u32),
    /// 64 bits.
    I64(u64),
}

/// The type of a value.
#[derive(Clone, Copy, PartialEq, Eq)]
pub enum ValueType {
    /// 32 bits.
    I32,
    /// 64 bits.
    I64,
}

/// A list of types of values.
pub type ValueTypes = Members<ValueType>;

/// What a function takes and gives.
#[derive(Drop)]
pub struct FunctionType {
    /// The types of what it takes.
    pub parameters: ValueTypes,
    /// The types of what it gives.
    pub results: ValueTypes,
}

/// The bounds on the size of a table, in elements, or of a memory, in pages of 65,536 bytes.
#[derive(Clone, Copy, PartialEq, Eq)]
pub struct Limits {
    /// The size at the start.
    pub minimum: u32,
    /// What it never grows past, if anything.
    pub maximum: Option<u32>,
}

/// The type of a global.
#[derive(Clone, Copy, PartialEq, Eq)]
pub struct GlobalType {
    /// The type of its value.
    pub value: ValueType,
    /// Whether it may be set.
    pub is_mutable: bool,
}
