//! What the ids of sections and the kinds of imports and exports say.

ghost use Rattle.std.specs.Prelude.{◌≡◌};

/// What stands in a section. Its number is the section's id (WebAssembly Core 1.0 section 5.5.2).
#[derive(Clone, Copy, PartialEq, Eq)]
pub enum SectionKind {
    Custom,
    Type,
    Import,
    Function,
    Table,
    Memory,
    Global,
    Export,
    Start,
    Element,
    Code,
    Data,
}

/// The sections by their ids.
pub const SECTIONS: [SectionKind; 12] = [
    SectionKind::Custom,
    SectionKind::Type,
    SectionKind::Import,
    SectionKind::Function,
    SectionKind::Table,
    SectionKind::Memory,
    SectionKind::Global,
    SectionKind::Export,
    SectionKind::Start,
    SectionKind::Element,
    SectionKind::Code,
    SectionKind::Data,
];

impl SectionKind {
    ghost use Rattle.wasm_syntax.specs.Kinds.{id_of};

    /// The id.
    pub fn id(self) -> u8
        ensures { result ≡ id_of self }
    {
        self as u8
    }
}

/// What is imported or exported. Its number is the byte that says so (section 5.5.5).
#[derive(Clone, Copy, PartialEq, Eq)]
pub enum ExternalKind {
    Function,
    Table,
    Memory,
    Global,
}

/// The kinds by their bytes.
pub const EXTERNAL_KINDS: [ExternalKind; 4] = [
    ExternalKind::Function,
    ExternalKind::Table,
    ExternalKind::Memory,
    ExternalKind::Global,
];

impl ExternalKind {
    ghost use Rattle.wasm_syntax.specs.Kinds.{byte_of_kind};

    /// The byte.
    pub fn byte(self) -> u8
        ensures { result ≡ byte_of_kind self }
    {
        self as u8
    }
}
