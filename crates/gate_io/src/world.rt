// The outside of a worker.
ghost use Rattle.std.specs.Prelude.{◌≡◌, ◌≤◌, ℕ, List, [], length, Option, IfOk, IsTrue};
ghost use Rattle.gate_io.specs.Told.{Gains, Rose};
ghost use Rattle.gate_io.specs.declared.event.Sent.TheVariants.{Connect, Close, Log};
ghost use Rattle.gate_io.specs.declared.passed.Passed.{Passed};
ghost use Rattle.gate_io.specs.Passing.{asking, sending, taking};
ghost use Rattle.gate_io.specs.Events.{Last, Follows, after_next, Obeys};
ghost use Rattle.gate_io.specs.Given.{ComesNext, KeepTo, EndsAt};
ghost use Rattle.gate_io.specs.Nature.{Nature};

use crate::{Event, Side, Wants, WorldEnd};
use gate_base::{Level, LineNo, OutOfMemory};
use std::alloc::Global;

/// The outside of one worker: what happens, and what takes what the worker sends.
pub trait World {
    /// All that passed so far, in order, where told.
    ghost trace: { Self → Option (List Passed) };

    /// The last event that was given.
    ghost last: { Self → Last };

    /// What never changes: the seed, all events that it ever gives, where told, and three promises.
    ghost nature: { Self → Nature };

    /// A count of failures, up to 2^64 - 1: it never falls, and rises in a call of `next` that answers Failed.
    ghost faults: { Self → ℕ };

    /// The next event: the script's next, where that is told. A refusal gives none.
    fn next(&mut self, alloc: Global, wants: &Wants) -> Result<Event, WorldEnd>
        ensures trace { Gains (trace self.old) (asking wants.now result) (trace self.new) }
        ensures event { IfOk result (Follows (last self.old)) }
        ensures script { IfOk result (ComesNext (nature self.old).script (trace self.old)) }
        ensures last { last self.new ≡ after_next (last self.old) result }
        ensures obeys { IsTrue (nature self.old).obeys → IfOk result (λ event. Obeys wants.now event.what) }
        ensures nature { nature self.new ≡ nature self.old }
        ensures faults { faults self.old ≤ faults self.new }
        ensures failed { result ≡ Err WorldEnd.Failed → Rose (faults self.old) (faults self.new) };

    /// Offers bytes to a peer, which takes some of them from the front: the answer is how many.
    fn send(
        &mut self,
        alloc: Global,
        line: LineNo,
        side: Side,
        bytes: &[u8],
    ) -> Result<usize, OutOfMemory>
        ensures bound { IfOk result (λ n. n ≤ length bytes.now) }
        ensures whole { IsTrue (nature self.old).takes_whole → IfOk result (λ n. n ≡ length bytes.now) }
        ensures trace { Gains (trace self.old) (sending line side bytes.now result) (trace self.new) }
        ensures last { last self.new ≡ last self.old }
        ensures nature { nature self.new ≡ nature self.old }
        ensures faults { faults self.old ≤ faults self.new };

    /// Opens the upstream connection of a line.
    fn connect(&mut self, alloc: Global, line: LineNo) -> Result<(), OutOfMemory>
        ensures trace { Gains (trace self.old) (taking (Connect line) result) (trace self.new) }
        ensures last { last self.new ≡ last self.old }
        ensures nature { nature self.new ≡ nature self.old }
        ensures faults { faults self.old ≤ faults self.new };

    /// Closes a connection.
    fn close(&mut self, alloc: Global, line: LineNo, side: Side) -> Result<(), OutOfMemory>
        ensures trace { Gains (trace self.old) (taking (Close line side) result) (trace self.new) }
        ensures last { last self.new ≡ last self.old }
        ensures nature { nature self.new ≡ nature self.old }
        ensures faults { faults self.old ≤ faults self.new };

    /// Writes a line of the log.
    fn log(&mut self, alloc: Global, level: Level, text: &[u8]) -> Result<(), OutOfMemory>
        ensures trace { Gains (trace self.old) (taking (Log level text.now) result) (trace self.new) }
        ensures last { last self.new ≡ last self.old }
        ensures nature { nature self.new ≡ nature self.old }
        ensures faults { faults self.old ≤ faults self.new };

    /// The 32 bytes from which the worker's random bytes come.
    fn seed(&self) -> [u8; 32]
        ensures { result ≡ (nature self.now).seed };

    /// A world that fails no call has counted no fault.
    ghost faultless: { (w : Self) → IsTrue (nature w).fails_no_call → faults w ≡ 0 };

    /// Where what passed is told, the last event is the last of it.
    ghost ends_at_last: { (w : Self) → EndsAt (trace w) (last w) };

    /// The events that were given so far are the first of the script, where both are told.
    ghost keeps_to_script: { (w : Self) → KeepTo (nature w).script (trace w) };
}
