// What lines want, as it was last looked at.
ghost use Rattle.std.specs.Prelude.{◌≡◌, ◌≤◌, ◌<◌, ℕ, length, map, true, false, OnOk, IfSome};
ghost use Rattle.worker_lines.specs.Stirring.{Covers};
ghost use Rattle.worker_lines.specs.Wishes.{wish_of, Fits, Listed, Lists, Touched};

use crate::kept::{Kept, list_all, put};
use crate::span::Span;
use crate::wanted::wish_of;
use gate_base::OutOfMemory;
use std::alloc::Global;
use worker_model::{Line, Wish};

/// What lines wanted when they were last looked at, and the places at which something was done since.
#[derive(Drop)]
pub struct Wishes {
    pub touched: Span,
    pub kept: Kept,
}

/// What each of these lines wants.
fn look_at_each(each: &mut Vec<Wish>, lines: &[Line]) -> Result<(), OutOfMemory>
    ensures { OnOk result (each.new.items ≡ map wish_of lines.now) }
{
    each.clear();
    for line in lines {
        each.push(wish_of(line))?;
    }
    Ok(())
}

/// The same, with what is asked by all.
fn look_at_all(kept: &mut Kept, lines: &[Line]) -> Result<(), OutOfMemory>
    ensures each { OnOk result (kept.new.each.items ≡ map wish_of lines.now) }
    ensures listed { OnOk result (Listed kept.new) }
{
    look_at_each(&mut kept.each, lines)?;
    list_all(kept)
}

/// What lines want at places at which something was done, where it is known of the others.
fn look_at(kept: &mut Kept, touched: Span, lines: &[Line]) -> Result<(), OutOfMemory>
    requires length { length kept.old.each.items ≡ length lines.now }
    requires fits { Fits touched kept.old.each.items lines.now }
    requires listed { Listed kept.old }
    ensures each { OnOk result (kept.new.each.items ≡ map wish_of lines.now) }
    ensures listed { OnOk result (Listed kept.new) }
{
    for at in touched.start()..touched.end(lines.len()) {
        put(kept, at, wish_of(&lines[at]))?;
    }
    Ok(())
}

/// The same, or all of it where something was done to all lines.
fn look_again(kept: &mut Kept, touched: Span, lines: &[Line]) -> Result<(), OutOfMemory>
    requires fits { Fits touched kept.old.each.items lines.now }
    requires listed { touched.is_all ≡ false → Listed kept.old }
    ensures each { OnOk result (kept.new.each.items ≡ map wish_of lines.now) }
    ensures listed { OnOk result (Listed kept.new) }
{
    if touched.is_all() {
        return look_at_all(kept, lines);
    }
    if kept.each.len() != lines.len() {
        return look_at_all(kept, lines);
    }
    look_at(kept, touched, lines)
}

impl Wishes {
    /// Of no line is it known.
    pub fn new(alloc: Global) -> Self
        ensures { result.touched.is_all ≡ true }
    {
        Wishes {
            touched: Span::all(),
            kept: Kept::new(alloc),
        }
    }

    /// Something is done to the line at a place.
    pub fn touch(&mut self, place: usize)
        ensures { Touched self.old place self.new }
    {
        self.touched = self.touched.with(place);
    }

    /// Something is done to all lines.
    pub fn touch_all(&mut self)
        ensures { self.new.touched.is_all ≡ true }
    {
        self.touched = Span::all();
    }

    /// What these lines want is looked at where something was done since.
    #[tactic(auto, using(crate::proofs::Wished::fits_all, crate::proofs::Wished::fits_each, crate::proofs::Wished::lists_all, crate::proofs::Wished::lists_of))]
    pub fn renew(&mut self, lines: &[Line]) -> Result<(), OutOfMemory>
        requires fits { Fits self.old.touched self.old.kept.each.items lines.now }
        requires lists { Lists self.old }
        ensures fits { Fits self.new.touched self.new.kept.each.items lines.now }
        ensures lists { Lists self.new }
    {
        let touched = self.touched;
        self.touched = Span::all();
        look_again(&mut self.kept, touched, lines)?;
        self.touched = Span::none();
        Ok(())
    }

    /// What is kept, where nothing was done to any line since it was looked at.
    pub fn fresh(&self) -> Option<&Kept>
        ensures kept { IfSome result (λ kept. kept.now ≡ self.now.kept) }
        ensures none { IfSome result (λ kept. (k : ℕ) → Covers self.now.touched k → ⊥) }
    {
        if self.touched.is_none() {
            Some(&self.kept)
        } else {
            None
        }
    }
}
