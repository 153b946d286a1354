// A source in memory.
ghost use Rattle.std.specs.Prelude.{◌≡◌, ◌-◌, ◌≤◌, ◌↔◌, [], IsTrue, length, take, drop, min};
ghost use Rattle.gate_io.specs.Calls.{IsNext};

use crate::{Failed, Source};
use gate_base::{CallNos, Octets};
use std::marker::Model;

/// A source of stated bytes, of which the calls with the listed numbers, from 1, fail.
#[derive(Drop)]
pub struct MemSource {
    bytes: Octets,
    at: usize,
    fails: CallNos,
    calls: u64,
    faults: u64,
}

impl Model for MemSource {
    ghost use Rattle.std.specs.Prelude.{drop, length, ◌≤◌};
    ghost use Rattle.gate_io.specs.Memory.{MemorySource};

    ghost Value = { MemorySource };

    ghost view = { λ a. record { left = drop a.at a.bytes; fails = a.fails; calls = a.calls; faults = a.faults } };

    ghost invariant = { λ a. a.at ≤ length a.bytes };
}

impl MemSource {
    /// A source of these bytes, whose calls with these numbers, from 1, are to fail.
    pub fn new(bytes: Octets, fails: CallNos) -> Self
        ensures { result ≡ record { left = bytes; fails = fails; calls = 0; faults = 0 } }
    {
        MemSource {
            bytes,
            at: 0,
            fails,
            calls: 0,
            faults: 0,
        }
    }

    /// Whether the next call is to fail.
    fn is_listed(&self) -> bool
        ensures { IsTrue result ↔ IsNext self.now.fails self.now.calls }
    {
        self.fails
            .as_slice()
            .contains(&self.calls.saturating_add(1))
    }
}

impl Source for MemSource {
    ghost use Rattle.std.specs.Prelude.{Some};
    ghost use Rattle.std.specs.Prelude.{◌≤◌};
    ghost use Rattle.gate_io.specs.MemoryCalls.{FillsRoom};

    ghost left = { λ s. Some s.left };

    ghost faults = { λ s. s.faults };

    // The first clause says all.
    fn read(&mut self, room: &mut [u8]) -> Result<usize, Failed>
        ensures answer { FillsRoom self.old room.new result self.new }
        ensures faults { self.old.faults ≤ self.new.faults }
    {
        let fails = self.is_listed();
        self.calls = self.calls.saturating_add(1);
        if fails {
            self.faults = self.faults.saturating_add(1);
            return Err(Failed);
        }
        let n = copy_front(self.bytes.as_slice(), self.at, room);
        self.at += n;
        Ok(n)
    }
}

/// Copies the bytes from a place on into the room, as many as it takes, and answers how many.
fn copy_front(bytes: &[u8], at: usize, room: &mut [u8]) -> usize
    requires { at ≤ length bytes.now }
    ensures count { result ≡ min (length bytes.now - at) (length room.old) }
    ensures copied { take result room.new ≡ take result (drop at bytes.now) }
{
    let left = &bytes[at..];
    let n = left.len().min(room.len());
    room[..n].copy_from_slice(&left[..n]);
    n
}
