//! What an instruction does to the nesting of blocks.

ghost use Rattle.std.specs.Prelude.{◌≡◌};
ghost use Rattle.wasm_syntax.specs.Nested.{mark_of};
ghost use Rattle.wasm_syntax.specs.Rows.{row_of};
ghost use Rattle.wasm_validator.specs.Marks.{told};

use wasm_syntax::{BlockType, Instr, Row};

/// What an instruction does to the nesting of blocks.
#[derive(Clone, Copy)]
pub(crate) enum Mark {
    Block(BlockType),
    Loop(BlockType),
    If(BlockType),
    Else,
    End,
    /// Nothing: it holds no others.
    Alone,
}

/// The mark of an instruction.
pub(crate) fn marked(i: &Instr) -> Mark
    ensures { told result ≡ mark_of (row_of i.now) }
{
    mark_of_row(i.row())
}

fn mark_of_row(row: Row) -> Mark
    ensures { told result ≡ mark_of row }
{
    match row {
        Row::Block(t) => Mark::Block(t),
        Row::Loop(t) => Mark::Loop(t),
        Row::If(t) => Mark::If(t),
        Row::Else => Mark::Else,
        Row::End => Mark::End,
        Row::Unreachable
        | Row::Nop
        | Row::Br(_)
        | Row::BrIf(_)
        | Row::BrTable(_)
        | Row::Return
        | Row::Call(_)
        | Row::CallIndirect(_)
        | Row::Drop
        | Row::Select
        | Row::LocalGet(_)
        | Row::LocalSet(_)
        | Row::LocalTee(_)
        | Row::GlobalGet(_)
        | Row::GlobalSet(_)
        | Row::Load(_, _, _)
        | Row::Store(_, _, _)
        | Row::MemorySize
        | Row::MemoryGrow
        | Row::BulkMemory
        | Row::Const(_)
        | Row::Unary(_, _)
        | Row::Binary(_, _) => Mark::Alone,
    }
}
