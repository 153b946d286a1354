// The world of a script.
ghost use Rattle.std.specs.Prelude.{◌≡◌, ◌∷◌, ◌++◌, [], Some, IfOk, OnErr, OnOk, Ok, drop, length};
ghost use Rattle.gate_io.specs.declared.event.Sent.TheVariants.{Connect, Close, Log};
ghost use Rattle.gate_io.specs.declared.passed.Passed.TheVariants.{Took};
ghost use Rattle.gate_io.specs.Events.{AreInOrder, Follows, after_next, nothing_given};
ghost use Rattle.gate_io.specs.Given.{ComesNext};
ghost use Rattle.gate_io.specs.MemoryWorld.{next_of};
ghost use Rattle.gate_io.specs.Passing.{front, sending, taking};
ghost use Rattle.gate_io.specs.Told.{Gains};
ghost use Rattle.replay_script.specs.ScriptWorld.{fresh, last, nature, taken_since, took_more, went_on};

use crate::trace::Trace;
use gate_base::{Level, LineNo, Octets, OutOfMemory};
use gate_io::{Event, Sent, Side, Wants, What, World, WorldEnd};
use std::alloc::Global;
use std::collections::VecDeque;
use std::marker::Model;

/// The world of a script: it gives stated events and then Stop for ever, takes all that it is sent, and fails no call. Of
/// what it took it keeps only what came since the last event.
#[derive(Drop)]
pub struct ScriptWorld {
    left: VecDeque<Event>,
    moment: u64,
    taken: Vec<Sent>,
    trace: Trace,
}

impl Model for ScriptWorld {
    ghost use Rattle.replay_script.specs.ScriptWorld.{Playing, IsInStep};

    ghost Value = { Playing };

    ghost view = { λ w. record { trace = w.trace.steps; left = w.left.items } };

    ghost invariant = { λ w. IsInStep w.moment w.taken.items w.trace.steps w.left.items };
}

impl ScriptWorld {
    /// A world that gives these events.
    pub fn new(alloc: Global, events: Vec<Event>) -> Self
        requires { AreInOrder nothing_given events.items }
        ensures { result ≡ fresh events.items }
    {
        ScriptWorld {
            left: VecDeque::from(events),
            moment: 0,
            taken: Vec::new(alloc),
            trace: Trace::new(),
        }
    }

    /// What it took since it gave the last event, in order.
    pub fn taken(&self) -> &[Sent]
        ensures { result.now ≡ taken_since self.now.trace }
    {
        &self.taken
    }
}

impl World for ScriptWorld {
    ghost use Rattle.std.specs.Prelude.{Some, refl};
    ghost use Rattle.gate_io.specs.Scripts.{keeps_to};
    ghost use Rattle.replay_script.specs.ScriptWorld.{in_memory, nature, last};

    ghost trace = { λ w. Some w.trace };

    ghost last = { last };

    ghost nature = { nature };

    ghost faults = { λ w. 0 };

    ghost faultless = { λ w h. refl };

    ghost ends_at_last = { λ w. refl };

    ghost keeps_to_script = { λ w. keeps_to (in_memory w) };

    fn next(&mut self, alloc: Global, wants: &Wants) -> Result<Event, WorldEnd> {
        let _ = alloc;
        Ok(self.give(wants))
    }

    fn send(
        &mut self,
        alloc: Global,
        line: LineNo,
        side: Side,
        bytes: &[u8],
    ) -> Result<usize, OutOfMemory> {
        if !bytes.is_empty() {
            let bytes = Octets::from_slice(alloc, bytes)?;
            self.take(Sent::Bytes { line, side, bytes })?;
        }
        Ok(bytes.len())
    }

    fn connect(&mut self, alloc: Global, line: LineNo) -> Result<(), OutOfMemory> {
        let _ = alloc;
        self.take(Sent::Connect { line })
    }

    fn close(&mut self, alloc: Global, line: LineNo, side: Side) -> Result<(), OutOfMemory> {
        let _ = alloc;
        self.take(Sent::Close { line, side })
    }

    fn log(&mut self, alloc: Global, level: Level, text: &[u8]) -> Result<(), OutOfMemory> {
        let text = Octets::from_slice(alloc, text)?;
        self.take(Sent::Log { level, text })
    }

    fn seed(&self) -> [u8; 32] {
        [0; 32]
    }
}

impl ScriptWorld {
    /// Gives the next event. What it took since the last one is kept no more.
    fn give(&mut self, wants: &Wants) -> Event
        ensures event { result ≡ next_of (last self.old).now self.old.left }
        ensures follows { Follows (last self.old) result }
        ensures new { self.new ≡ went_on self.old wants.now result }
        ensures nature { nature self.new ≡ nature self.old }
    {
        let event = take_next(&mut self.left, self.moment);
        self.moment = event.now;
        self.taken.clear();
        self.trace = self.trace.gave(wants, &event);
        event
    }

    /// Takes something.
    fn take(&mut self, sent: Sent) -> Result<(), OutOfMemory>
        ensures ok { OnOk result (self.new ≡ took_more self.old (Took sent ∷ [])) }
        ensures err { OnErr result (self.new ≡ self.old) }
        ensures nature { nature self.new ≡ nature self.old }
        ensures last { last self.new ≡ last self.old }
    {
        let trace = self.trace.took(&sent);
        self.taken.push(sent)?;
        self.trace = trace;
        Ok(())
    }
}

/// Takes the next event, Stop at a moment where there is none.
fn take_next(left: &mut VecDeque<Event>, moment: u64) -> Event
    ensures event { result ≡ next_of moment left.old.items }
    ensures left { left.new.items ≡ drop 1 left.old.items }
{
    match left.pop_front() {
        Some(event) => event,
        None => Event {
            now: moment,
            what: What::Stop,
        },
    }
}
