//! A body from left to right.

ghost use Rattle.std.specs.Prelude.{◌≡◌, IfOk, IfSome, IfNone, OnOk, IsTrue, true, false, Some, None, ℕ, List, [], ◌∷◌, ◌&&◌, nat_lt, nat_le, reverse, slice_get};
ghost use Rattle.wasm_syntax.specs.Typing.{left_by};
ghost use Rattle.wasm_syntax.specs.Nested.{mark_of, stands_alone};
ghost use Rattle.wasm_syntax.specs.Rows.{row_of, labels_of};
ghost use Rattle.wasm_validator.specs.Checking.{Tells, Layer, body_layer, labels_in, all_have, within, stepped, stepped_by};
ghost use Rattle.wasm_syntax.specs.Typing.{Context as Contexts};
ghost use Rattle.wasm_syntax.specs.Nested.{at_else, at_end, begins_if};
ghost use Rattle.wasm_syntax.specs.declared.instr.Instr.{Instr as Instrs};
ghost use Rattle.wasm_validator.specs.Scopes.{context_in, AreSignatures};
ghost use Rattle.wasm_validator.specs.Stepping.{Led, acted_by, changed_by};
ghost use Rattle.wasm_validator.specs.Checking.{called, and_then, ruled_if};
ghost use Rattle.wasm_validator.specs.Checking as rule;
ghost use Rattle.wasm_syntax.specs.Validity.{IsSignature};
ghost use Rattle.wasm_syntax.specs.declared.row.Row.TheVariants.{Br, BrIf, BrTable};
ghost use Rattle.wasm_syntax.specs.declared.types.ValueType.TheVariants.{I32};

use crate::frame::Frame;
use crate::mark::{Mark, marked};
use crate::names::{Names, result_of};
use crate::operands::Operands;
use gate_base::OutOfMemory;
use std::alloc::Global;
use std::marker::Model;
use std::mem;
use wasm_syntax::{BlockType, FunctionType, Instr, Row, ValueType};

/// Where an instruction leads.
#[derive(Clone, Copy)]
pub(crate) enum Step {
    /// On to the next.
    Goes,
    /// It ended the body.
    Ends,
    /// It may not stand there.
    Fails,
}

/// The blocks that are open at a place of a body.
#[derive(Drop)]
pub(crate) struct Checker {
    alloc: Global,
    /// The innermost.
    frame: Frame,
    /// The others, the outermost first.
    outer: Vec<Frame>,
}

impl Model for Checker {
    ghost use Rattle.std.specs.Prelude.{List, ◌∷◌, reverse};
    ghost use Rattle.wasm_validator.specs.Checking.{Layer};

    ghost Value = { List Layer };

    ghost view = { λ a. a.frame ∷ reverse a.outer.items };
}

impl Checker {
    /// At the begin of a body that gives this.
    pub(crate) fn new(alloc: Global, results: BlockType) -> Self
        ensures { result ≡ record { label = left_by results; results = left_by results; awaits = false; stack = record { known = []; free = false } } ∷ [] }
    {
        Checker {
            alloc,
            frame: Frame::block(alloc, results),
            outer: Vec::new(alloc),
        }
    }

    /// What a branch to a label takes.
    fn label(&self, l: u32) -> Option<BlockType>
        ensures some { IfSome result (λ t. slice_get (labels_in self.now) l ≡ Some (left_by t)) }
        ensures none { IfNone result (slice_get (labels_in self.now) l ≡ None) }
    {
        let l = l as usize;
        if l == 0 {
            return Some(self.frame.label());
        }
        match self.outer.len().checked_sub(l) {
            Some(at) => Some(self.outer[at].label()),
            None => None,
        }
    }

    /// A block begins.
    fn open(&mut self, frame: Frame) -> Result<(), OutOfMemory>
        ensures { OnOk result (self.new ≡ frame ∷ self.old) }
    {
        let around = mem::replace(&mut self.frame, frame);
        self.outer.push(around)?;
        Ok(())
    }

    /// Whether branches to all of these labels take what this block leaves.
    fn all_take(&self, labels: &[u32], t: BlockType) -> bool
        ensures { (c : Contexts) → result ≡ all_have (within c self.now) (left_by t) labels.now }
    {
        for l in labels {
            match self.label(*l) {
                Some(u) if u == t => {}
                _ => return false,
            }
        }
        true
    }

    /// An `if` has its `else`.
    fn part(&mut self) -> Step
        ensures { (c : Contexts) (i : Instrs) → Led result (stepped_by c self.old i at_else) self.new }
    {
        if !self.frame.awaits || !self.frame.stack.end_with(self.frame.results) {
            return Step::Fails;
        }
        self.frame.awaits = false;
        self.frame.stack = Operands::new(self.alloc);
        Step::Goes
    }

    /// A block ends.
    fn close(&mut self) -> Result<Step, OutOfMemory>
        ensures { IfOk result (λ s. (c : Contexts) (i : Instrs) → Led s (stepped_by c self.old i at_end) self.new) }
    {
        let results = self.frame.results;
        if self.frame.awaits && results != BlockType::Empty {
            return Ok(Step::Fails);
        }
        if !self.frame.stack.end_with(results) {
            return Ok(Step::Fails);
        }
        match self.outer.pop() {
            None => Ok(Step::Ends),
            Some(around) => {
                self.frame = around;
                self.frame.stack.push_block(results)?;
                Ok(Step::Goes)
            }
        }
    }

    /// A branch to a label, with the operand that says which or whether.
    fn branch_if(&mut self, l: u32) -> Result<bool, OutOfMemory>
        ensures { (c : Contexts) (ls : List ℕ) → IfOk result (λ may. Tells may (acted_by c self.old (BrIf l) ls) self.new) }
    {
        let Some(t) = self.label(l) else {
            return Ok(false);
        };
        if !self.frame.stack.pop(ValueType::I32) || !self.frame.stack.pop_block(t) {
            return Ok(false);
        }
        self.frame.stack.push_block(t)?;
        Ok(true)
    }

    /// A branch to a label.
    fn branch(&mut self, l: u32) -> bool
        ensures { (c : Contexts) (ls : List ℕ) → Tells result (acted_by c self.old (Br l) ls) self.new }
    {
        match self.label(l) {
            Some(t) => self.frame.stack.leave(t),
            None => false,
        }
    }

    /// A branch to one of several labels.
    fn branch_to_one(&mut self, labels: &[u32], l: u32) -> bool
        ensures { (c : Contexts) → Tells result (acted_by c self.old (BrTable l) labels.now) self.new }
    {
        let Some(t) = self.label(l) else {
            return false;
        };
        self.all_take(labels, t)
            && self.frame.stack.pop(ValueType::I32)
            && self.frame.stack.leave(t)
    }

    /// A call of a function of this type.
    fn call(&mut self, f: &FunctionType) -> Result<bool, OutOfMemory>
        requires { IsSignature f.now }
        ensures { IfOk result (λ may. Tells may (changed_by (called [] f.now) self.old) self.new) }
    {
        self.frame
            .stack
            .replace(f.parameters.as_slice(), result_of(f))
    }

    /// A call of a function of this type through a table.
    fn call_indirect(&mut self, f: &FunctionType) -> Result<bool, OutOfMemory>
        requires { IsSignature f.now }
        ensures { IfOk result (λ may. Tells may (changed_by (called (I32 ∷ []) f.now) self.old) self.new) }
    {
        if !self.frame.stack.pop(ValueType::I32) {
            return Ok(false);
        }
        self.call(f)
    }

    /// Does what an operator, a constant or an instruction on no names does.
    fn change(&mut self, takes: &[ValueType], gives: BlockType) -> Result<bool, OutOfMemory>
        ensures { IfOk result (λ may. Tells may (changed_by (rule.gives (reverse takes.now) (left_by gives)) self.old) self.new) }
    {
        self.frame.stack.replace(takes, gives)
    }

    /// Reaches a memory, by an alignment of at most the width.
    fn reach(
        &mut self,
        names: Names<'_>,
        takes: &[ValueType],
        gives: BlockType,
        width: u32,
        align: u32,
    ) -> Result<bool, OutOfMemory>
        ensures { IfOk result (λ may. Tells may (and_then (ruled_if (nat_lt 0 (context_in names.exit).memories && nat_le align width) (rule.gives (reverse takes.now) (left_by gives))) (λ r. changed_by r self.old)) self.new) }
    {
        if names.scope.memories == 0 || align > width {
            return Ok(false);
        }
        self.change(takes, gives)
    }

    /// An instruction that holds no others.
    fn act(&mut self, names: Names<'_>, i: &Instr) -> Result<bool, OutOfMemory>
        requires { AreSignatures names }
        ensures { mark_of (row_of i.now) ≡ stands_alone → IfOk result (λ may. Tells may (acted_by (context_in names.exit) self.old (row_of i.now) (labels_of i.now)) self.new) }
    {
        match i.row() {
            Row::Nop => self.change(&[], BlockType::Empty),
            Row::Unreachable => Ok(self.frame.stack.leave(BlockType::Empty)),
            Row::Drop => Ok(self.frame.stack.pop_any().is_some()),
            Row::Select => self.frame.stack.select(),
            Row::Const(t) => self.change(&[], BlockType::Value(t)),
            Row::Unary(t, u) => self.change(&[t], BlockType::Value(u)),
            Row::Binary(t, u) => self.change(&[t, t], BlockType::Value(u)),
            Row::LocalGet(x) => match names.local(x) {
                Some(t) => self.change(&[], BlockType::Value(t)),
                None => Ok(false),
            },
            Row::LocalSet(x) => match names.local(x) {
                Some(t) => self.change(&[t], BlockType::Empty),
                None => Ok(false),
            },
            Row::LocalTee(x) => match names.local(x) {
                Some(t) => self.change(&[t], BlockType::Value(t)),
                None => Ok(false),
            },
            Row::GlobalGet(x) => match names.global(x) {
                Some(g) => self.change(&[], BlockType::Value(g.value)),
                None => Ok(false),
            },
            Row::GlobalSet(x) => match names.global(x) {
                Some(g) if g.is_mutable => self.change(&[g.value], BlockType::Empty),
                _ => Ok(false),
            },
            Row::Load(t, width, align) => self.reach(
                names,
                &[ValueType::I32],
                BlockType::Value(t),
                width,
                align,
            ),
            Row::Store(t, width, align) => self.reach(
                names,
                &[ValueType::I32, t],
                BlockType::Empty,
                width,
                align,
            ),
            Row::MemorySize => self.reach(names, &[], BlockType::Value(ValueType::I32), 0, 0),
            Row::MemoryGrow => self.reach(
                names,
                &[ValueType::I32],
                BlockType::Value(ValueType::I32),
                0,
                0,
            ),
            Row::BulkMemory => self.reach(
                names,
                &[ValueType::I32, ValueType::I32, ValueType::I32],
                BlockType::Empty,
                0,
                0,
            ),
            Row::Br(l) => Ok(self.branch(l)),
            Row::BrIf(l) => self.branch_if(l),
            Row::BrTable(l) => Ok(self.branch_to_one(i.labels(), l)),
            Row::Return => Ok(self.frame.stack.leave(result_of(names.function))),
            Row::Call(x) => match names.callee(x) {
                Some(f) => self.call(f),
                None => Ok(false),
            },
            Row::CallIndirect(x) => match names.signature(x) {
                Some(f) if names.scope.tables > 0 => self.call_indirect(f),
                _ => Ok(false),
            },
            Row::Block(_) | Row::Loop(_) | Row::If(_) | Row::Else | Row::End => Ok(false),
        }
    }

    /// An `if` begins.
    fn choose(&mut self, t: BlockType) -> Result<Step, OutOfMemory>
        ensures { IfOk result (λ s. (c : Contexts) (i : Instrs) → Led s (stepped_by c self.old i (begins_if t)) self.new) }
    {
        if !self.frame.stack.pop(ValueType::I32) {
            return Ok(Step::Fails);
        }
        self.open(Frame::choice(self.alloc, t))?;
        Ok(Step::Goes)
    }

    /// One instruction.
    #[tactic(auto, unfolding(crate::specs::Checking::stepped))]
    pub(crate) fn step(&mut self, names: Names<'_>, i: &Instr) -> Result<Step, OutOfMemory>
        requires { AreSignatures names }
        ensures { IfOk result (λ s. Led s (stepped (context_in names.exit) self.old i.now) self.new) }
    {
        match marked(i) {
            Mark::Block(t) => {
                self.open(Frame::block(self.alloc, t))?;
                Ok(Step::Goes)
            }
            Mark::Loop(t) => {
                self.open(Frame::repeated(self.alloc, t))?;
                Ok(Step::Goes)
            }
            Mark::If(t) => self.choose(t),
            Mark::Else => Ok(self.part()),
            Mark::End => self.close(),
            Mark::Alone => Ok(if self.act(names, i)? {
                Step::Goes
            } else {
                Step::Fails
            }),
        }
    }
}
