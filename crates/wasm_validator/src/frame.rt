//! A block that is open.

ghost use Rattle.std.specs.Prelude.{◌≡◌};
ghost use Rattle.wasm_syntax.specs.Typing.{left_by};
ghost use Rattle.wasm_validator.specs.Checking.{block_layer, loop_layer, if_layer, else_layer};

use crate::operands::Operands;
use std::alloc::Global;
use std::marker::Model;
use wasm_syntax::BlockType;

/// A block that is open, with what stands in it.
#[derive(Drop)]
pub(crate) struct Frame {
    /// What a branch to it takes.
    label: BlockType,
    /// What it leaves.
    pub(crate) results: BlockType,
    /// Whether it is an `if` whose `else` may come.
    pub(crate) awaits: bool,
    pub(crate) stack: Operands,
}

impl Model for Frame {
    ghost use Rattle.wasm_syntax.specs.Typing.{left_by};
    ghost use Rattle.wasm_validator.specs.Checking.{Layer};

    ghost Value = { Layer };

    ghost view = { λ a. record { label = left_by a.label; results = left_by a.results; awaits = a.awaits; stack = a.stack } };
}

impl Frame {
    /// What a branch to it takes.
    pub(crate) fn label(&self) -> BlockType
        ensures { left_by result ≡ self.now.label }
    {
        self.label
    }

    /// A block.
    pub(crate) fn block(alloc: Global, t: BlockType) -> Self
        ensures { result ≡ block_layer t }
    {
        Frame {
            label: t,
            results: t,
            awaits: false,
            stack: Operands::new(alloc),
        }
    }

    /// A loop: a branch to it begins it again.
    pub(crate) fn repeated(alloc: Global, t: BlockType) -> Self
        ensures { result ≡ loop_layer t }
    {
        Frame {
            label: BlockType::Empty,
            results: t,
            awaits: false,
            stack: Operands::new(alloc),
        }
    }

    /// An `if` without its `else`.
    pub(crate) fn choice(alloc: Global, t: BlockType) -> Self
        ensures { result ≡ if_layer t }
    {
        Frame {
            label: t,
            results: t,
            awaits: true,
            stack: Operands::new(alloc),
        }
    }
}
