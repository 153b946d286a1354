//! The types that stand on the stack of a block.

ghost use Rattle.std.specs.Prelude.{◌≡◌, IfSome, IfNone, IfOk, OnOk, IsTrue, reverse, Some, None};
ghost use Rattle.wasm_syntax.specs.Typing.{left_by};
ghost use Rattle.wasm_validator.specs.Checking.{Tells, no_types, any_types, popped_any, popped, all_popped, pushed_any, all_pushed, may_end_with, joined, selected, acted, gives, leaves};

use gate_base::OutOfMemory;
use std::alloc::Global;
use std::marker::Model;
use wasm_syntax::{BlockType, ValueType};

/// The types on the stack of one block, of which some may be any. Behind an instruction that nothing
/// gets past, any types may stand below them.
#[derive(Drop)]
pub(crate) struct Operands {
    /// The topmost is the last.
    known: Vec<Option<ValueType>>,
    free: bool,
}

impl Model for Operands {
    ghost use Rattle.std.specs.Prelude.{reverse};
    ghost use Rattle.wasm_validator.specs.Checking.{Pattern};

    ghost Value = { Pattern };

    ghost view = { λ a. record { known = reverse a.known.items; free = a.free } };
}

impl Operands {
    /// Nothing.
    pub(crate) fn new(alloc: Global) -> Self
        ensures { result ≡ no_types }
    {
        Operands {
            known: Vec::new(alloc),
            free: false,
        }
    }

    /// Puts a type on top, or one that may be any.
    pub(crate) fn push(&mut self, t: Option<ValueType>) -> Result<(), OutOfMemory>
        ensures { OnOk result (self.new ≡ pushed_any t self.old) }
    {
        self.known.push(t)?;
        Ok(())
    }

    /// Takes the topmost type off.
    pub(crate) fn pop_any(&mut self) -> Option<Option<ValueType>>
        ensures some { IfSome result (λ t. popped_any self.old ≡ Some (t, self.new)) }
        ensures none { IfNone result (popped_any self.old ≡ None) }
    {
        match self.known.pop() {
            Some(t) => Some(t),
            None if self.free => Some(None),
            None => None,
        }
    }

    /// Takes this type off, where it may stand on top.
    pub(crate) fn pop(&mut self, t: ValueType) -> bool
        ensures { Tells result (popped t self.old) self.new }
    {
        match self.pop_any() {
            Some(Some(u)) => t == u,
            Some(None) => true,
            None => false,
        }
    }

    /// Forgets all, since nothing gets here.
    pub(crate) fn stop(&mut self)
        ensures { self.new ≡ any_types }
    {
        self.known.clear();
        self.free = true;
    }

    /// Whether nothing is known of it: any types may be taken off.
    fn is_any(&self) -> bool
        ensures { IsTrue result → self.now ≡ any_types }
    {
        self.free && self.known.is_empty()
    }

    /// Takes these types off, the last of which may stand on top.
    pub(crate) fn pop_all(&mut self, ts: &[ValueType]) -> bool
        ensures { Tells result (all_popped (reverse ts.now) self.old) self.new }
    {
        let mut left = ts.len();
        while left > 0 {
            if self.is_any() {
                return true;
            }
            left -= 1;
            if !self.pop(ts[left]) {
                return false;
            }
        }
        true
    }

    /// Takes off what a block leaves.
    pub(crate) fn pop_block(&mut self, t: BlockType) -> bool
        ensures { Tells result (all_popped (left_by t) self.old) self.new }
    {
        match t {
            BlockType::Empty => true,
            BlockType::Value(t) => self.pop(t),
        }
    }

    /// Puts on top what a block leaves.
    pub(crate) fn push_block(&mut self, t: BlockType) -> Result<(), OutOfMemory>
        ensures { OnOk result (self.new ≡ all_pushed (left_by t) self.old) }
    {
        match t {
            BlockType::Empty => Ok(()),
            BlockType::Value(t) => self.push(Some(t)),
        }
    }

    /// Whether exactly what a block leaves may stand there. It takes that off.
    pub(crate) fn end_with(&mut self, t: BlockType) -> bool
        ensures { result ≡ may_end_with (left_by t) self.old }
    {
        self.pop_block(t) && self.known.is_empty()
    }

    /// Takes these types off, the last of which may stand on top, and puts on top what a block leaves.
    pub(crate) fn replace(&mut self, takes: &[ValueType], t: BlockType) -> Result<bool, OutOfMemory>
        ensures { IfOk result (λ may. Tells may (acted (gives (reverse takes.now) (left_by t)) self.old) self.new) }
    {
        if !self.pop_all(takes) {
            return Ok(false);
        }
        self.push_block(t)?;
        Ok(true)
    }

    /// Takes off what a block leaves. Nothing behind that is reached.
    pub(crate) fn leave(&mut self, t: BlockType) -> bool
        ensures { Tells result (acted (leaves (left_by t)) self.old) self.new }
    {
        if !self.pop_block(t) {
            return false;
        }
        self.stop();
        true
    }

    /// Takes a choice and two of one type off, and puts one of that type on top.
    pub(crate) fn select(&mut self) -> Result<bool, OutOfMemory>
        ensures { IfOk result (λ may. Tells may (selected self.old) self.new) }
    {
        if !self.pop(ValueType::I32) {
            return Ok(false);
        }
        let Some(first) = self.pop_any() else {
            return Ok(false);
        };
        let Some(second) = self.pop_any() else {
            return Ok(false);
        };
        let Some(t) = join(first, second) else {
            return Ok(false);
        };
        self.push(t)?;
        Ok(true)
    }
}

/// What is known of a type that is both.
fn join(first: Option<ValueType>, second: Option<ValueType>) -> Option<Option<ValueType>>
    ensures { result ≡ joined first second }
{
    match (first, second) {
        (None, t) => Some(t),
        (Some(t), None) => Some(Some(t)),
        (Some(t), Some(u)) if t == u => Some(Some(t)),
        (Some(_), Some(_)) => None,
    }
}
