// Callouts by themselves: how they begin, and what becomes of them by events and moments.
ghost use Rattle.std.specs.Prelude.{◌≡◌, ◌↔◌, ◌+◌, ◌<◌, [], ◌∷◌, length, Some, Err, IfOk, OnOk, OnErr, IsTrue};
ghost use Rattle.callouts.specs.Callouts.{callout_at, is_due, is_full, failed, answered, line_in};
ghost use Rattle.callouts.specs.Steps.{AtPlace, place_of};
ghost use Rattle.callouts.specs.UnderWay.{none_under_way, with_begun, due_fates, without_due, Happens, EndsBy, is_read, ReadsOut, ComesThrough, EndsWith, EndsAt};
ghost use Rattle.callouts.specs.declared.under_way.CalloutEnd.TheVariants as end;

use crate::list::{is_full, place_of};
use crate::reading::{begun, come, hear};
use crate::types::{CallStep, Callout, Fated, Outcome};
use contexts::Request;
use gate_base::OutOfMemory;
use gate_io::{Event, What};
use gate_queue::Queue;
use std::alloc::{AllocError, Global};
use std::marker::Model;

/// Why a callout does not begin.
#[derive(Clone, Copy, PartialEq, Eq)]
pub enum CalloutEnd {
    /// 64 are under way, or no id is left.
    Full,
    /// Memory ran out.
    OutOfMemory,
}

impl From<AllocError> for CalloutEnd {
    ghost use Rattle.callouts.specs.declared.under_way.CalloutEnd.TheVariants.{OutOfMemory};

    ghost from_gives = { λ _ e. e ≡ OutOfMemory };

    fn from(_: AllocError) -> Self {
        CalloutEnd::OutOfMemory
    }
}

/// What became of callouts that are under way no more.
pub type FateList = Queue<Fated>;

/// A callout that has failed.
fn failed(c: &Callout) -> Fated
    ensures { result ≡ failed c.now }
{
    Fated {
        call: c.id,
        vm: c.vm,
        context: c.context,
        outcome: Outcome::Failed,
    }
}

/// A callout that was answered.
fn answered(c: Callout) -> Fated
    ensures { result ≡ answered c }
{
    Fated {
        call: c.id,
        vm: c.vm,
        context: c.context,
        outcome: Outcome::Answered { answer: c.answer },
    }
}

/// Whether its response is to be read on.
fn is_read(next: &Option<CallStep>) -> bool
    ensures { result ≡ is_read next.now }
{
    match next {
        None => false,
        Some(CallStep::Comes { .. }) => false,
        Some(CallStep::Read { .. }) => true,
        Some(CallStep::Fail { .. }) => false,
        Some(CallStep::Answer { .. }) => false,
    }
}

/// Its reader is heard until there is no part, or the callout is decided.
fn hear_on(c: &mut Callout) -> Result<Option<CallStep>, OutOfMemory>
    ensures { IfOk result (λ next. ReadsOut c.old next c.new) }
{
    for _ in 0..u64::MAX {
        let next = hear(c)?;
        if !is_read(&next) {
            return Ok(next);
        }
    }
    Err(AllocError)
}

/// Something comes of its line, and is read as far as it goes.
fn come_through(c: &mut Callout, what: &What) -> Result<Option<CallStep>, OutOfMemory>
    ensures { IfOk result (λ next. ComesThrough what.now next c.old c.new) }
{
    let next = come(c, what)?;
    if is_read(&next) {
        return hear_on(c);
    }
    Ok(next)
}

/// The same of the one at a place.
fn come_through_at(
    items: &mut Vec<Callout>,
    at: usize,
    what: &What,
) -> Result<Option<CallStep>, OutOfMemory>
    requires { at < length items.old.items }
    ensures { IfOk result (λ next. AtPlace (ComesThrough what.now next) at items.old.items items.new.items) }
{
    come_through(&mut items[at], what)
}

/// The same of the queue, whose members are moved and not copied.
fn come_through_in(
    alloc: Global,
    calls: &mut Queue<Callout>,
    at: usize,
    what: &What,
) -> Result<Option<CallStep>, OutOfMemory>
    requires { at < length calls.old }
    ensures { IfOk result (λ next. AtPlace (ComesThrough what.now next) at calls.old calls.new) }
{
    let taken = std::mem::replace(calls, Queue::new(alloc));
    let mut items = taken.into_vec();
    let next = come_through_at(&mut items, at, what);
    *calls = Queue::from_vec(items);
    next
}

/// One member alone.
fn one(alloc: Global, fated: Fated) -> Result<FateList, OutOfMemory>
    ensures { IfOk result (λ fates. fates ≡ fated ∷ []) }
{
    let mut fates = Queue::new(alloc);
    fates.push(fated)?;
    Ok(fates)
}

/// The callout at a place is taken out where it has failed or was answered.
fn end_by(
    alloc: Global,
    calls: &mut Queue<Callout>,
    at: usize,
    step: &CallStep,
) -> Result<FateList, OutOfMemory>
    requires { at < length calls.old }
    ensures { IfOk result (λ fates. EndsWith step.now at calls.old fates calls.new) }
{
    match step {
        CallStep::Comes { .. } => Ok(Queue::new(alloc)),
        CallStep::Read { .. } => Ok(Queue::new(alloc)),
        CallStep::Fail { .. } => {
            let ended = calls.remove(at);
            one(alloc, failed(&ended))
        }
        CallStep::Answer { .. } => {
            let ended = calls.remove(at);
            one(alloc, answered(ended))
        }
    }
}

/// The same, if anything is done next.
fn end_at(
    alloc: Global,
    calls: &mut Queue<Callout>,
    at: usize,
    next: &Option<CallStep>,
) -> Result<FateList, OutOfMemory>
    requires { at < length calls.old }
    ensures { IfOk result (λ fates. EndsAt next.now at calls.old fates calls.new) }
{
    match next {
        None => Ok(Queue::new(alloc)),
        Some(step) => end_by(alloc, calls, at, step),
    }
}

/// An event of the line of the callout at a place.
fn happen_at(
    alloc: Global,
    calls: &mut Queue<Callout>,
    at: usize,
    what: &What,
) -> Result<FateList, OutOfMemory>
    requires { place_of what.now calls.old ≡ Some at }
    ensures { IfOk result (λ fates. EndsBy (callout_at (line_in what.now) calls.old) what.now calls.old fates calls.new) }
{
    let next = come_through_in(alloc, calls, at, what)?;
    end_at(alloc, calls, at, &next)
}

/// An event: it is of the callout on whose line it is, if one is under way there.
fn happen(alloc: Global, calls: &mut Queue<Callout>, what: &What) -> Result<FateList, OutOfMemory>
    ensures { IfOk result (λ fates. EndsBy (callout_at (line_in what.now) calls.old) what.now calls.old fates calls.new) }
{
    match place_of(calls.as_slice(), what) {
        None => Ok(Queue::new(alloc)),
        Some(at) => happen_at(alloc, calls, at, what),
    }
}

/// Whether a callout is due.
fn is_due(c: &Callout, now: u64) -> bool
    ensures { result ≡ is_due now c.now }
{
    c.due <= now
}

/// What becomes of the callouts that are due: they fail, ids rising.
fn due_fates(alloc: Global, calls: &[Callout], now: u64) -> Result<FateList, OutOfMemory>
    ensures { IfOk result (λ fates. fates ≡ due_fates now calls.now) }
{
    let mut fates = Queue::new(alloc);
    for c in calls {
        if is_due(c, now) {
            fates.push(failed(c))?;
        }
    }
    Ok(fates)
}

/// Takes the callouts out that are due.
fn drop_due(calls: &mut Queue<Callout>, now: u64)
    ensures { calls.new ≡ without_due now calls.old }
{
    let mut at = 0;
    while at < calls.len() {
        let items = calls.as_slice();
        if is_due(&items[at], now) {
            calls.remove(at);
        } else {
            at += 1;
        }
    }
}

/// Callouts by themselves: which are under way, and which id was drawn last. Clauses see both.
#[derive(Drop)]
pub struct Callouts {
    calls: Queue<Callout>,
    last: u32,
}

impl Model for Callouts {
    ghost use Rattle.callouts.specs.UnderWay.{UnderWay};

    ghost Value = { UnderWay };

    ghost view = { λ c. record { calls = c.calls; last = c.last } };
}

impl Callouts {
    /// None is under way, and no id was drawn.
    pub fn new(alloc: Global) -> Self
        ensures { result ≡ none_under_way }
    {
        Callouts {
            calls: Queue::new(alloc),
            last: 0,
        }
    }

    /// A callout begins under the next id, which is drawn only where it begins.
    pub fn begin(&mut self, alloc: Global, call: &Request, now: u64) -> Result<u32, CalloutEnd>
        ensures full { (result ≡ Err end.Full) ↔ IsTrue (is_full 0 (length self.old.calls) self.old.last) }
        ensures id { IfOk result (λ id. id ≡ self.old.last + 1) }
        ensures ok { OnOk result (self.new ≡ with_begun call.now now self.old) }
        ensures err { OnErr result (self.new ≡ self.old) }
    {
        if is_full(0, self.calls.len(), self.last) {
            return Err(CalloutEnd::Full);
        }
        let id = self.last + 1;
        self.calls.push(begun(alloc, id, now, call)?)?;
        self.last = id;
        Ok(id)
    }

    /// What an event makes of the callout on whose line it is. Where memory is out, what came of it may be lost.
    pub fn event(&mut self, alloc: Global, event: &Event) -> Result<FateList, OutOfMemory>
        ensures { IfOk result (λ fates. Happens event.entry.now.what self.old fates self.new) }
    {
        happen(alloc, &mut self.calls, &event.what)
    }

    /// What becomes of the callouts that are due at a moment: they fail, ids rising, and the others stay. Where memory is out, all stay.
    pub fn due(&mut self, alloc: Global, now: u64) -> Result<FateList, OutOfMemory>
        ensures fates { IfOk result (λ fates. fates ≡ due_fates now self.old.calls) }
        ensures ok { OnOk result (self.new ≡ record self.old { calls = without_due now self.old.calls }) }
        ensures err { OnErr result (self.new ≡ self.old) }
    {
        let fates = due_fates(alloc, self.calls.as_slice(), now)?;
        drop_due(&mut self.calls, now);
        Ok(fates)
    }
}
