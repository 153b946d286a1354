// A sink in memory.
ghost use Rattle.std.specs.Prelude.{◌≡◌, []};

use crate::{Failed, Sink};
use gate_base::{CallNos, Octets};
use std::marker::Model;

/// A sink that keeps what it took, and of which the calls with the listed numbers, from 1, fail. So does a call that is
/// refused memory.
#[derive(Drop)]
pub struct MemSink {
    taken: Octets,
    fails: CallNos,
    calls: u64,
    faults: u64,
}

impl Model for MemSink {
    ghost use Rattle.gate_io.specs.Memory.{MemorySink};

    ghost Value = { MemorySink };

    ghost view = { λ a. record { taken = a.taken; fails = a.fails; calls = a.calls; faults = a.faults } };
}

impl MemSink {
    /// A sink that took these bytes so far, and whose calls with these numbers, from 1, are to fail.
    pub fn new(taken: Octets, fails: CallNos) -> Self
        ensures { result ≡ record { taken = taken; fails = fails; calls = 0; faults = 0 } }
    {
        MemSink {
            taken,
            fails,
            calls: 0,
            faults: 0,
        }
    }

    /// The bytes that it took.
    pub fn as_slice(&self) -> &[u8]
        ensures { result.now ≡ self.now.taken }
    {
        self.taken.as_slice()
    }
}

impl Sink for MemSink {
    ghost use Rattle.std.specs.Prelude.{Some};
    ghost use Rattle.std.specs.Prelude.{◌≤◌};
    ghost use Rattle.gate_io.specs.MemoryCalls.{TakesPiece};

    ghost taken = { λ s. Some s.taken };

    ghost faults = { λ s. s.faults };

    // The first clause says all.
    fn write(&mut self, piece: &[u8]) -> Result<usize, Failed>
        ensures answer { TakesPiece self.old piece.now result self.new }
        ensures faults { self.old.faults ≤ self.new.faults }
    {
        self.calls = self.calls.saturating_add(1);
        if self.fails.as_slice().contains(&self.calls)
            || self.taken.extend_from_slice(piece).is_err()
        {
            self.faults = self.faults.saturating_add(1);
            return Err(Failed);
        }
        Ok(piece.len())
    }
}
