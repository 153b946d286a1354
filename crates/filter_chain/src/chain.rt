// The stages of one direction of an exchange.
ghost use Rattle.std.specs.List.{list_any};
ghost use Rattle.std.specs.Prelude.{option_map, position, ◌==◌, nat_lt, ◌≡◌, [], ◌∷◌, ◌++◌, ◌<◌, ◌≤◌, ◌+◌, ◌-◌, drop, ℕ, Some, slice_get, length, slice_set, slice_index_or, IfOk, IfSome, OnOk, OnErr, IsTrue, MatchOption, if◌then◌else◌};
ghost use Rattle.filter_chain.specs.declared.stage.Stage.{Stage};
ghost use Rattle.filter_chain.specs.Items.{size, bytes_in, held_items, holds_bytes, is_free, piece_of, first_of};
ghost use Rattle.filter_chain.specs.Chains.{reach_count, has_head, is_head, append_to, accepts, ask_of, ask_stage, ask_item, target, fits, with_more, hand_over_to, hand_over, put, continued, paused, let_through, may_be_picked, ready, asked, asked_at, bytes_at, bytes_held, without_held, unless_over, without_hold, bypassed_stage, waiting_of, without_waiting, without_buffers, is_of, with_first};

use crate::waiting::bytes_len;
use crate::{Ask, AskKind, Asking, ChainItem, Held, PassOutcome, Stage, Waiting};
use contexts::Contexts;
use gate_base::{ContextId, Octets, OutOfMemory, VmNo};
use gate_queue::Queue;
use std::alloc::Global;
use std::marker::Model;

/// How many bytes a stage may hold, with those that wait at it.
const LIMIT: usize = 1_048_576;

/// The stages of one direction of an exchange, in the order in which items pass them. Clauses see their list.
#[derive(Drop)]
pub struct Chain {
    stages: Vec<Stage>,
}

impl Model for Chain {
    ghost use Rattle.std.specs.Prelude.{List};
    ghost use Rattle.filter_chain.specs.declared.stage.Stage.{Stage};

    ghost Value = { List Stage };

    ghost view = { λ c. c.stages.items };
}

/// Whether bytes are held.
fn holds(held: Held) -> bool
    ensures { result ≡ holds_bytes held }
{
    match held {
        Held::Nothing => false,
        Held::Head { .. } => false,
        Held::Body { .. } => true,
        Held::Trailers { body } => body,
    }
}

/// Bytes as one piece; none where there is nothing to pass on.
fn piece(alloc: Global, bytes: Octets, end: bool) -> Result<Queue<ChainItem>, OutOfMemory>
    ensures { IfOk result (λ items. items ≡ piece_of bytes end) }
{
    let mut items = Queue::new(alloc);
    if bytes.len() > 0 || end {
        items.push(ChainItem::Piece { bytes, end })?;
    }
    Ok(items)
}

/// One item.
fn one(alloc: Global, item: ChainItem) -> Result<Queue<ChainItem>, OutOfMemory>
    ensures { IfOk result (λ items. items ≡ item ∷ []) }
{
    let mut items = Queue::new(alloc);
    items.push(item)?;
    Ok(items)
}

/// What is held, as items.
fn items_held(alloc: Global, held: Held, bytes: Octets) -> Result<Queue<ChainItem>, OutOfMemory>
    ensures { IfOk result (λ items. items ≡ held_items held bytes) }
{
    match held {
        Held::Nothing => Ok(Queue::new(alloc)),
        Held::Head { end } => one(alloc, ChainItem::Head { end }),
        Held::Body { end } => piece(alloc, bytes, end),
        Held::Trailers { body } => {
            if !body {
                return one(alloc, ChainItem::Trailers);
            }
            let mut items = piece(alloc, bytes, false)?;
            items.push(ChainItem::Trailers)?;
            Ok(items)
        }
    }
}

/// Whether a stage may be picked: an item waits, and it is not paused at its head or trailers.
fn is_ready(stage: &Stage) -> bool
    ensures { result ≡ may_be_picked stage.now }
{
    if stage.waiting.first().is_none() {
        return false;
    }
    match stage.held {
        Held::Nothing => true,
        Held::Head { .. } => false,
        Held::Body { .. } => true,
        Held::Trailers { .. } => false,
    }
}

/// How many bytes are in a stage's buffer.
fn buffered(stage: &Stage, contexts: &Contexts) -> usize
    ensures { result ≡ length (bytes_at contexts.now stage.now) }
{
    contexts.held_len(stage.vm, stage.context, stage.response)
}

/// How many bytes a stage holds.
fn held_len(stage: &Stage, contexts: &Contexts) -> usize
    ensures { result ≡ length (bytes_held contexts.now stage.now) }
{
    if holds(stage.held) {
        buffered(stage, contexts)
    } else {
        0
    }
}

/// A copy of the bytes that a stage holds.
fn held_copy(alloc: Global, stage: &Stage, contexts: &Contexts) -> Result<Octets, OutOfMemory>
    ensures { IfOk result (λ bytes. bytes ≡ bytes_held contexts.now stage.now) }
{
    if holds(stage.held) {
        contexts.held_copy(alloc, stage.vm, stage.context, stage.response)
    } else {
        Ok(Octets::new(alloc))
    }
}

/// What a stage holds, as items, copied.
fn copied(
    alloc: Global,
    stage: &Stage,
    contexts: &Contexts,
) -> Result<Queue<ChainItem>, OutOfMemory>
    ensures { IfOk result (λ items. items ≡ held_items stage.now.held (bytes_held contexts.now stage.now)) }
{
    let bytes = held_copy(alloc, stage, contexts)?;
    items_held(alloc, stage.held, bytes)
}

/// A stage holds nothing from here on.
fn let_go_of(alloc: Global, stage: &mut Stage, contexts: &mut Contexts)
    ensures stage { stage.new ≡ without_hold stage.old }
    ensures contexts { contexts.new ≡ without_held contexts.old stage.old }
{
    if holds(stage.held) {
        contexts.let_go(alloc, stage.vm, stage.context, stage.response);
    }
    stage.held = Held::Nothing;
}

/// A stage passes everything from here on.
fn open_up(alloc: Global, stage: &mut Stage, contexts: &mut Contexts)
    ensures stage { stage.old.waiting ≡ [] → stage.new ≡ bypassed_stage stage.old }
    ensures contexts { contexts.new ≡ without_held contexts.old stage.old }
{
    let_go_of(alloc, stage, contexts);
    stage.passes = true;
}

/// How many bytes the first of these has, where it is a piece.
fn first_bytes(items: &Waiting) -> Option<usize>
    ensures { result ≡ first_of items.now }
{
    match items.first() {
        Some(ChainItem::Piece { bytes, .. }) => Some(bytes.len()),
        _ => None,
    }
}

/// Does the head wait there?
fn starts_with_head(stage: &Stage) -> bool
    ensures { result ≡ has_head stage.now.waiting }
{
    match stage.waiting.first() {
        Some(ChainItem::Head { .. }) => true,
        _ => false,
    }
}

/// A callback that is to come.
fn asks(stage: usize, kind: AskKind, count: u32, end: bool) -> Asking
    ensures { result ≡ ask_of stage kind count end }
{
    Asking::Asks {
        ask: Ask {
            stage,
            kind,
            count,
            end,
        },
    }
}

/// The bytes of the first of these are held, where it is a piece.
fn hold_first(stage: &Stage, contexts: &mut Contexts) -> Result<(), OutOfMemory>
    requires { IfSome (first_of stage.now.waiting) (λ n. length (bytes_at contexts.old stage.now) + n ≤ 1048576) }
    ensures ok { OnOk result (contexts.new ≡ with_first contexts.old stage.now stage.now.waiting) }
    ensures err { OnErr result (contexts.new ≡ contexts.old) }
{
    match stage.waiting.first() {
        Some(ChainItem::Piece { bytes, end }) => {
            contexts.hold(
                stage.vm,
                stage.context,
                stage.response,
                bytes.as_slice(),
                *end,
            )
        }
        _ => Ok(()),
    }
}

/// What a stage is asked, the place of which is given.
fn ask_one(stage: &mut Stage, contexts: &mut Contexts, at: usize) -> Result<Asking, OutOfMemory>
    ensures ok { IfOk result (λ a. ask_item contexts.old at stage.old stage.old.waiting ≡ (a, stage.new, contexts.new)) }
    ensures stage { OnErr result (stage.new ≡ stage.old) }
    ensures contexts { OnErr result (contexts.new ≡ contexts.old) }
{
    let held = buffered(stage, contexts);
    if let Some(n) = first_bytes(&stage.waiting) {
        if n > LIMIT || held > LIMIT - n {
            return Ok(Asking::Over { stage: at });
        }
    }
    hold_first(stage, contexts)?;
    match stage.waiting.pop_first() {
        None => Ok(Asking::Nothing),
        Some(ChainItem::Head { end }) => {
            stage.held = Held::Head { end };
            Ok(asks(at, AskKind::Head, 0, end))
        }
        Some(ChainItem::Piece { bytes, end }) => {
            stage.held = Held::Body { end };
            Ok(asks(at, AskKind::Piece, (held + bytes.len()) as u32, end))
        }
        Some(ChainItem::Trailers) => {
            let body = holds(stage.held);
            stage.held = Held::Trailers { body };
            Ok(asks(at, AskKind::Trailers, 0, false))
        }
    }
}

/// Are so many bytes more and so many further ones not too many for a stage?
fn has_room(contexts: &Contexts, stage: &Stage, first: usize, more: usize) -> bool
    ensures { result ≡ fits contexts.now (first + more) stage.now }
{
    if first > LIMIT || more > LIMIT - first {
        return false;
    }
    let left = LIMIT - first - more;
    if left == LIMIT {
        return true;
    }
    let waits = stage.waiting.bytes();
    waits <= left && buffered(stage, contexts) <= left - waits
}

impl Chain {
    /// These stages, in the order in which items pass them.
    pub fn new(stages: Vec<Stage>) -> Self
        ensures { result ≡ stages.items }
    {
        Chain { stages }
    }

    /// The first stage from a place on that does not pass everything; past the last where there is none.
    #[tactic(auto, using(crate::proofs::Sizes::target_more, crate::proofs::Sizes::target_here, crate::proofs::Sizes::target_past))]
    fn target(&self, from: usize) -> usize
        requires { from ≤ length self.now }
        ensures target { result ≡ target from self.now }
        ensures some { from ≤ result }
        ensures within { result ≤ length self.now }
    {
        let mut at = from;
        while at < self.stages.len() && self.stages[at].passes {
            at += 1;
        }
        at
    }

    /// The count of the stage that is to be asked.
    #[tactic(auto, using(crate::proofs::Sizes::ready_less, crate::proofs::Sizes::ready_here))]
    fn ready(&self) -> usize
        ensures ready { result ≡ ready self.now }
        ensures within { result ≤ length self.now }
    {
        let mut n = self.stages.len();
        while n > 0 && !is_ready(&self.stages[n - 1]) {
            n -= 1;
        }
        n
    }

    /// Are so many bytes more and so many further ones not too many where they go: for the stage at a place, if there is one?
    fn accepts(&self, contexts: &Contexts, to: usize, first: usize, more: usize) -> bool
        ensures { result ≡ accepts contexts.now (first + more) (slice_get self.now to) }
    {
        match self.stages.get(to) {
            Some(stage) => has_room(contexts, stage, first, more),
            None => true,
        }
    }

    /// How many stages were asked the head, or passed it.
    pub fn reached(&self) -> usize
        ensures reached { result ≡ reach_count self.now }
        ensures within { result ≤ length self.now }
    {
        let mut n = 0;
        for stage in self.stages.iter() {
            if starts_with_head(stage) {
                return n;
            }
            n += 1;
            if let Held::Head { .. } = stage.held {
                return n;
            }
        }
        n
    }

    /// Where the stage of a context of a VM stands.
    pub fn place_of(&self, vm: VmNo, context: ContextId) -> Option<usize>
        ensures { result ≡ position (is_of vm context) self.now }
    {
        self.stages
            .iter()
            .position(|s| s.vm == vm && s.context == context)
    }

    /// Is there a stage of a filter of a VM?
    pub fn has_machine(&self, vm: VmNo) -> bool
        ensures { result ≡ list_any (λ s. s.vm == vm) self.now }
    {
        self.stages.iter().any(|s| s.vm == vm)
    }

    /// The VM and the context of the stage at a place.
    pub fn stage_at(&self, at: usize) -> Option<(VmNo, ContextId)>
        ensures { result ≡ option_map (λ s. (s.vm, s.context)) (slice_get self.now at) }
    {
        if at < self.stages.len() {
            Some((self.stages[at].vm, self.stages[at].context))
        } else {
            None
        }
    }

    /// May a stage be asked?
    pub fn is_ready(&self) -> bool
        ensures { result ≡ nat_lt 0 (ready self.now) }
    {
        self.ready() > 0
    }

    /// The stages.
    pub fn as_slice(&self) -> &[Stage]
        ensures { result.now ≡ self.now }
    {
        self.stages.as_slice()
    }

    /// How many stages there are.
    pub fn len(&self) -> usize
        ensures { result ≡ length self.now }
    {
        self.stages.len()
    }

    /// Only the last of these many stages stay.
    pub fn keep_last(&mut self, n: usize)
        ensures { self.new ≡ drop (length self.old - n) self.old }
    {
        while self.stages.len() > n {
            let _ = self.stages.remove(0);
        }
    }

    /// No stages stay, and none of them holds anything.
    pub fn clear(&mut self, alloc: Global, contexts: &mut Contexts)
        ensures stages { self.new ≡ [] }
        ensures contexts { contexts.new ≡ without_buffers contexts.old self.old }
    {
        for stage in self.stages.iter() {
            contexts.let_go(alloc, stage.vm, stage.context, stage.response);
        }
        self.stages.clear();
    }

    /// An item comes to the chain.
    pub fn put(
        &mut self,
        alloc: Global,
        contexts: &Contexts,
        item: ChainItem,
    ) -> Result<PassOutcome, OutOfMemory>
        ensures ok { IfOk result (λ p. put contexts.now item self.old ≡ (p, self.new)) }
        ensures err { OnErr result (self.new ≡ self.old) }
    {
        let to = self.target(0);
        if !self.accepts(contexts, to, bytes_len(&item), 0) {
            return Ok(PassOutcome::Over);
        }
        let items = one(alloc, item)?;
        self.hand(alloc, to, items)
    }

    /// Items go to the stage at a place, or leave.
    fn hand(
        &mut self,
        alloc: Global,
        to: usize,
        items: Queue<ChainItem>,
    ) -> Result<PassOutcome, OutOfMemory>
        ensures ok { IfOk result (λ p. append_to to items self.old (slice_get self.old to) ≡ (p, self.new)) }
        ensures err { OnErr result (self.new ≡ self.old) }
    {
        if to >= self.stages.len() {
            return Ok(PassOutcome::Left { items });
        }
        self.stages[to].waiting.append(items)?;
        Ok(PassOutcome::Left {
            items: Queue::new(alloc),
        })
    }

    /// What the stage at a place holds goes on: an answer Continue, and the effect of a continue.
    pub fn release(
        &mut self,
        alloc: Global,
        contexts: &mut Contexts,
        at: usize,
    ) -> Result<PassOutcome, OutOfMemory>
        requires { at < length self.old }
        ensures ok { IfOk result (λ p. continued contexts.old at self.old ≡ (p, self.new, contexts.new)) }
        ensures stages { OnErr result (self.new ≡ self.old) }
        ensures contexts { OnErr result (contexts.new ≡ contexts.old) }
    {
        let first = held_len(&self.stages[at], contexts);
        let to = self.target(at + 1);
        if !self.accepts(contexts, to, first, 0) {
            return Ok(PassOutcome::Over);
        }
        let items = copied(alloc, &self.stages[at], contexts)?;
        let passed = self.hand(alloc, to, items)?;
        let_go_of(alloc, &mut self.stages[at], contexts);
        Ok(passed)
    }

    /// The stage at a place passes everything from here on, what it held first.
    pub fn let_through(
        &mut self,
        alloc: Global,
        contexts: &mut Contexts,
        at: usize,
    ) -> Result<PassOutcome, OutOfMemory>
        requires { at < length self.old }
        ensures ok { IfOk result (λ p. let_through contexts.old at self.old ≡ (p, self.new, contexts.new)) }
        ensures stages { OnErr result (self.new ≡ self.old) }
        ensures contexts { OnErr result (contexts.new ≡ contexts.old) }
    {
        let first = held_len(&self.stages[at], contexts);
        let to = self.target(at + 1);
        if !self.accepts(contexts, to, first, self.stages[at].waiting.bytes()) {
            return Ok(PassOutcome::Over);
        }
        let items = copied(alloc, &self.stages[at], contexts)?;
        let passed = self.hand_all(alloc, at, to, items)?;
        open_up(alloc, &mut self.stages[at], contexts);
        Ok(passed)
    }

    /// Items, and after them those that wait at a stage, go to a stage after it, or leave.
    fn hand_all(
        &mut self,
        alloc: Global,
        at: usize,
        to: usize,
        items: Queue<ChainItem>,
    ) -> Result<PassOutcome, OutOfMemory>
        requires at { at < length self.old }
        requires apart { at < to }
        ensures ok { IfOk result (λ p. let rest = without_waiting at self.old (slice_get self.old at) in append_to to (items ++ waiting_of (slice_get self.old at)) rest (slice_get rest to) ≡ (p, self.new)) }
        ensures err { OnErr result (self.new ≡ self.old) }
    {
        let mut waiting = std::mem::replace(&mut self.stages[at].waiting, Waiting::new(alloc));
        match self.hand_both(alloc, to, items, &mut waiting) {
            Ok(passed) => Ok(passed),
            Err(refused) => {
                self.stages[at].waiting = waiting;
                Err(refused)
            }
        }
    }

    /// Items, and after them those of a list, go to the stage at a place, or leave.
    fn hand_both(
        &mut self,
        alloc: Global,
        to: usize,
        items: Queue<ChainItem>,
        waiting: &mut Waiting,
    ) -> Result<PassOutcome, OutOfMemory>
        ensures ok { IfOk result (λ p. append_to to (items ++ waiting.old) self.old (slice_get self.old to) ≡ (p, self.new)) }
        ensures stages { OnErr result (self.new ≡ self.old) }
        ensures waiting { OnErr result (waiting.new ≡ waiting.old) }
    {
        let mut left = Waiting::new(alloc);
        if to >= self.stages.len() {
            left.append_both(items, waiting)?;
        } else {
            self.stages[to].waiting.append_both(items, waiting)?;
        }
        Ok(PassOutcome::Left {
            items: left.into_queue(),
        })
    }

    /// The stage at a place goes on holding: an answer Pause.
    pub fn pause(&self, contexts: &mut Contexts, at: usize)
        requires { at < length self.now }
        ensures { contexts.new ≡ paused contexts.old at self.now }
    {
        let stage = &self.stages[at];
        contexts.end_asking(stage.vm, stage.context, stage.response);
    }

    /// The stage that is to be asked, with what its callback is asked about.
    pub fn ask(&mut self, contexts: &mut Contexts) -> Result<Asking, OutOfMemory>
        ensures ok { IfOk result (λ a. asked contexts.old self.old ≡ (a, self.new, contexts.new)) }
        ensures stages { OnErr result (self.new ≡ self.old) }
        ensures contexts { OnErr result (contexts.new ≡ contexts.old) }
    {
        let n = self.ready();
        if n == 0 {
            return Ok(Asking::Nothing);
        }
        self.ask_at(contexts, n - 1)
    }

    /// What the stage at a place is asked.
    fn ask_at(&mut self, contexts: &mut Contexts, at: usize) -> Result<Asking, OutOfMemory>
        requires { at < length self.old }
        ensures ok { IfOk result (λ a. ask_stage contexts.old at self.old (slice_get self.old at) ≡ (a, self.new, contexts.new)) }
        ensures stages { OnErr result (self.new ≡ self.old) }
        ensures contexts { OnErr result (contexts.new ≡ contexts.old) }
    {
        ask_one(&mut self.stages[at], contexts, at)
    }
}
