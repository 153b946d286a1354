// A world in memory.
ghost use Rattle.std.specs.Prelude.{◌≡◌, ◌≤◌, ◌∷◌, ◌++◌, ◌↔◌, ◌⊎◌, [], Some, IfOk, OnErr, OnOk, IsTrue, length, drop};
ghost use Rattle.gate_io.specs.declared.event.Sent.TheVariants.{Connect, Close, Log};
ghost use Rattle.gate_io.specs.declared.passed.Passed.TheVariants.{Took};
ghost use Rattle.gate_io.specs.Events.{AreInOrder, Follows, after_next, nothing_given};
ghost use Rattle.gate_io.specs.Given.{ComesNext};
ghost use Rattle.gate_io.specs.MemoryWorld.{Answers, IsListed, IsRefused, Offers, Takes, counted, counted_send, failed_once, last_in, nature_of, next_of, took_more, went_on};
ghost use Rattle.gate_io.specs.Passing.{front, received, sent_in};

use crate::order::is_stop_event;
use crate::{Event, Passed, Sent, Side, Wants, What, World, WorldEnd};
use gate_base::{CallNos, Level, LineNo, Members, Octets, OutOfMemory};
use std::alloc::{AllocError, Global};
use std::collections::VecDeque;
use std::marker::Model;

/// A list of what was sent.
pub type SentList = Members<Sent>;

/// A world with stated events, behind which it gives Stop for ever, and of which the calls with the listed numbers, from
/// 1, fail. All calls of `next`, `send`, `connect`, `close` and `log` count, in one row, but for those that memory ran out
/// in. A listed call of `next` answers Failed, and a listed one of the others that memory ran out, and takes nothing. So does
/// a call of `send` whose number is refused memory, where only the calls of `send` count.
#[derive(Drop)]
pub struct MemWorld {
    seed: [u8; 32],
    left: VecDeque<Event>,
    trace: Vec<Passed>,
    moment: u64,
    stopped: bool,
    most: Option<usize>,
    fails: CallNos,
    calls: u64,
    faults: u64,
    refused: CallNos,
    sends: u64,
}

impl Model for MemWorld {
    ghost use Rattle.gate_io.specs.MemoryWorld.{MemoryWorld, IsInStep};

    ghost Value = { MemoryWorld };

    ghost view = { λ w. record { seed = w.seed; trace = w.trace.items; left = w.left.items; most = w.most; fails = w.fails; calls = w.calls; faults = w.faults; refused = w.refused; sends = w.sends } };

    ghost invariant = { λ w. IsInStep (record { now = w.moment; stopped = w.stopped }) w.trace.items w.left.items };
}

impl MemWorld {
    /// A world that gives these events, and takes at most so many bytes of a piece, or all.
    pub fn new(
        alloc: Global,
        events: Vec<Event>,
        seed: [u8; 32],
        most: Option<usize>,
        fails: CallNos,
    ) -> Self
        requires { AreInOrder nothing_given events.items }
        ensures { result ≡ record { seed = seed; trace = []; left = events.items; most = most; fails = fails; calls = 0; faults = 0; refused = []; sends = 0 } }
    {
        MemWorld {
            seed,
            left: VecDeque::from(events),
            trace: Vec::new(alloc),
            moment: 0,
            stopped: false,
            most,
            fails,
            calls: 0,
            faults: 0,
            refused: Members::new(alloc),
            sends: 0,
        }
    }

    /// Refuses memory to the calls of `send` with these numbers, which count from 1 and from the world's beginning, and to no
    /// other that was named before.
    pub fn refuse_memory(&mut self, sends: CallNos)
        ensures { self.new ≡ record self.old { refused = sends } }
    {
        self.refused = sends;
    }

    /// All that passed.
    pub fn trace(&self) -> &[Passed]
        ensures { result.now ≡ self.now.trace }
    {
        &self.trace
    }

    /// What it took, in order.
    pub fn into_received(self, alloc: Global) -> Result<SentList, OutOfMemory>
        ensures { IfOk result (λ sent. sent ≡ received self.trace) }
    {
        let MemWorld { trace, .. } = self;
        let mut list = Members::new(alloc);
        for step in trace {
            if let Some(sent) = sent_of(step) {
                list.push(sent)?;
            }
        }
        Ok(list)
    }
}

impl World for MemWorld {
    ghost use Rattle.std.specs.Prelude.{Some, refl};
    ghost use Rattle.gate_io.specs.MemoryWorld.{nature_of, last_in, no_fault_counted};
    ghost use Rattle.gate_io.specs.Scripts.{keeps_to};

    ghost trace = { λ w. Some w.trace };

    ghost last = { last_in };

    ghost nature = { nature_of };

    ghost faults = { λ w. w.faults };

    ghost faultless = { no_fault_counted };

    ghost ends_at_last = { λ w. refl };

    ghost keeps_to_script = { keeps_to };

    // The first clause of each method says all. The others repeat those of the trait's that it does not show by itself.
    fn next(&mut self, alloc: Global, wants: &Wants) -> Result<Event, WorldEnd>
        ensures answer { Answers self.old wants.now result self.new }
        ensures script { IfOk result (ComesNext (nature_of self.old).script (Some self.old.trace)) }
        ensures last { last_in self.new ≡ after_next (last_in self.old) result }
        ensures nature { nature_of self.new ≡ nature_of self.old }
        ensures faults { self.old.faults ≤ self.new.faults }
    {
        self.answer(alloc, wants)
    }

    fn send(
        &mut self,
        alloc: Global,
        line: LineNo,
        side: Side,
        bytes: &[u8],
    ) -> Result<usize, OutOfMemory>
        ensures offer { Offers self.old line side bytes.now result self.new }
        ensures last { last_in self.new ≡ last_in self.old }
        ensures nature { nature_of self.new ≡ nature_of self.old }
    {
        self.offer(alloc, line, side, bytes)
    }

    fn connect(&mut self, alloc: Global, line: LineNo) -> Result<(), OutOfMemory>
        ensures taken { Takes self.old (Connect line) result self.new }
        ensures last { last_in self.new ≡ last_in self.old }
        ensures nature { nature_of self.new ≡ nature_of self.old }
    {
        let _ = alloc;
        self.take(Sent::Connect { line })
    }

    fn close(&mut self, alloc: Global, line: LineNo, side: Side) -> Result<(), OutOfMemory>
        ensures taken { Takes self.old (Close line side) result self.new }
        ensures last { last_in self.new ≡ last_in self.old }
        ensures nature { nature_of self.new ≡ nature_of self.old }
    {
        let _ = alloc;
        self.take(Sent::Close { line, side })
    }

    fn log(&mut self, alloc: Global, level: Level, text: &[u8]) -> Result<(), OutOfMemory>
        ensures taken { Takes self.old (Log level text.now) result self.new }
        ensures last { last_in self.new ≡ last_in self.old }
        ensures nature { nature_of self.new ≡ nature_of self.old }
    {
        self.take_line(alloc, level, text)
    }

    fn seed(&self) -> [u8; 32] {
        self.seed
    }
}

impl MemWorld {
    /// Whether the next call is to fail.
    fn is_listed(&self) -> bool
        ensures { IsTrue result ↔ IsListed self.now }
    {
        self.fails
            .as_slice()
            .contains(&self.calls.saturating_add(1))
    }

    /// Goes on where this call is not listed, and else counts it.
    fn admit(&mut self) -> Result<(), OutOfMemory>
        ensures ok { OnOk result (self.new ≡ self.old) }
        ensures free { OnOk result (IsListed self.old → ⊥) }
        ensures err { OnErr result (self.new ≡ counted self.old) }
        ensures listed { OnErr result (IsListed self.old) }
    {
        if self.is_listed() {
            self.calls = self.calls.saturating_add(1);
            return Err(AllocError);
        }
        Ok(())
    }

    /// Whether the next call of `send` is refused memory.
    fn is_refused(&self) -> bool
        ensures { IsTrue result ↔ IsRefused self.now }
    {
        self.refused
            .as_slice()
            .contains(&self.sends.saturating_add(1))
    }

    /// Goes on where this call of `send` is listed nowhere, and else counts it.
    fn admit_piece(&mut self) -> Result<(), OutOfMemory>
        ensures ok { OnOk result (self.new ≡ self.old) }
        ensures free { OnOk result (IsListed self.old → ⊥) }
        ensures unrefused { OnOk result (IsRefused self.old → ⊥) }
        ensures err { OnErr result (self.new ≡ counted_send self.old) }
        ensures listed { OnErr result (IsListed self.old ⊎ IsRefused self.old) }
    {
        if self.is_listed() || self.is_refused() {
            self.calls = self.calls.saturating_add(1);
            self.sends = self.sends.saturating_add(1);
            return Err(AllocError);
        }
        Ok(())
    }

    /// Gives the next event, or fails where this call is listed.
    fn answer(&mut self, alloc: Global, wants: &Wants) -> Result<Event, WorldEnd>
        ensures answer { Answers self.old wants.now result self.new }
        ensures faults { self.old.faults ≤ self.new.faults }
    {
        let asked = wants.copy(alloc)?;
        if self.is_listed() {
            self.fail(asked)?;
            return Err(WorldEnd::Failed);
        }
        Ok(self.give(alloc, asked)?)
    }

    /// Notes a call that fails.
    fn fail(&mut self, asked: Wants) -> Result<(), OutOfMemory>
        ensures ok { OnOk result (self.new ≡ failed_once self.old asked) }
        ensures faults { self.old.faults ≤ self.new.faults }
        ensures err { OnErr result (self.new ≡ self.old) }
    {
        self.trace.push(Passed::Asked { wants: asked })?;
        self.calls = self.calls.saturating_add(1);
        self.faults = self.faults.saturating_add(1);
        Ok(())
    }

    /// Gives the next event.
    fn give(&mut self, alloc: Global, asked: Wants) -> Result<Event, OutOfMemory>
        ensures event { IfOk result (λ event. event ≡ next_of (last_in self.old).now self.old.left) }
        ensures follows { IfOk result (Follows (last_in self.old)) }
        ensures ok { IfOk result (λ event. self.new ≡ went_on self.old asked event) }
        ensures err { OnErr result (self.new ≡ self.old) }
    {
        let event = copy_next(alloc, &self.left, self.moment)?;
        // Room for both, so that nothing is refused once the event is taken.
        self.trace.reserve(2)?;
        let kept = take_next(&mut self.left, self.moment);
        self.moment = event.now;
        self.stopped = is_stop_event(&event.what);
        self.calls = self.calls.saturating_add(1);
        self.trace.push(Passed::Asked { wants: asked })?;
        self.trace.push(Passed::Gave { event: kept })?;
        Ok(event)
    }

    /// Takes as many bytes of a piece as it may, where this call is listed nowhere.
    fn offer(
        &mut self,
        alloc: Global,
        line: LineNo,
        side: Side,
        bytes: &[u8],
    ) -> Result<usize, OutOfMemory>
        ensures { Offers self.old line side bytes.now result self.new }
    {
        self.admit_piece()?;
        let n = self.most.unwrap_or(bytes.len()).min(bytes.len());
        note_front(alloc, &mut self.trace, line, side, bytes, n)?;
        self.calls = self.calls.saturating_add(1);
        self.sends = self.sends.saturating_add(1);
        Ok(n)
    }

    /// Takes a line of the log, where this call is not listed.
    fn take_line(&mut self, alloc: Global, level: Level, text: &[u8]) -> Result<(), OutOfMemory>
        ensures { Takes self.old (Log level text.now) result self.new }
    {
        self.admit()?;
        let text = Octets::from_slice(alloc, text)?;
        self.note(Sent::Log { level, text })
    }

    /// Takes something, where this call is not listed.
    fn take(&mut self, sent: Sent) -> Result<(), OutOfMemory>
        ensures { Takes self.old sent result self.new }
    {
        self.admit()?;
        self.note(sent)
    }

    /// Notes what it takes.
    fn note(&mut self, sent: Sent) -> Result<(), OutOfMemory>
        ensures ok { OnOk result (self.new ≡ took_more self.old (Took sent ∷ [])) }
        ensures err { OnErr result (self.new ≡ self.old) }
    {
        self.trace.push(Passed::Took { sent })?;
        self.calls = self.calls.saturating_add(1);
        Ok(())
    }
}

/// A copy of the next event, Stop at a moment where there is none.
fn copy_next(alloc: Global, left: &VecDeque<Event>, moment: u64) -> Result<Event, OutOfMemory>
    ensures { IfOk result (λ event. event ≡ next_of moment left.now.items) }
{
    match left.front() {
        Some(event) => event.copy(alloc),
        None => Ok(stop_at(moment)),
    }
}

/// Takes the next event, Stop at a moment where there is none.
fn take_next(left: &mut VecDeque<Event>, moment: u64) -> Event
    ensures event { result ≡ next_of moment left.old.items }
    ensures left { left.new.items ≡ drop 1 left.old.items }
{
    match left.pop_front() {
        Some(event) => event,
        None => stop_at(moment),
    }
}

/// Stop at a moment.
fn stop_at(moment: u64) -> Event
    ensures { result ≡ next_of moment [] }
{
    Event {
        now: moment,
        what: What::Stop,
    }
}

/// Notes that the first bytes of a piece were taken, and that these are less than all where they are.
fn note_front(
    alloc: Global,
    trace: &mut Vec<Passed>,
    line: LineNo,
    side: Side,
    bytes: &[u8],
    n: usize,
) -> Result<(), OutOfMemory>
    requires { n ≤ length bytes.now }
    ensures ok { OnOk result (trace.new.items ≡ trace.old.items ++ front line side bytes.now n) }
    ensures err { OnErr result (trace.new.items ≡ trace.old.items) }
{
    let taken = Octets::from_slice(alloc, &bytes[..n])?;
    // Room for both, so that a refusal leaves the trace as it was.
    trace.reserve(2)?;
    if n > 0 {
        trace.push(Passed::Took {
            sent: Sent::Bytes {
                line,
                side,
                bytes: taken,
            },
        })?;
    }
    if n < bytes.len() {
        trace.push(Passed::Short { line, side })?;
    }
    Ok(())
}

/// What was taken in a step.
fn sent_of(step: Passed) -> Option<Sent>
    ensures { result ≡ sent_in step }
{
    match step {
        Passed::Took { sent } => Some(sent),
        Passed::Asked { .. } | Passed::Gave { .. } | Passed::Short { .. } => None,
    }
}
