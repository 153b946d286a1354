// The outside of all workers in memory.
ghost use Rattle.std.specs.Prelude.{◌≡◌, ◌≢◌, ◌⊎◌, ◌≤◌, ◌++◌, ◌↔◌, [], List, ℕ, false, IfOk, IsTrue, length, map};
ghost use Rattle.gate_io.specs.Calls.{IsNext};
ghost use Rattle.gate_io.specs.MemorySite.{seed_in};
ghost use Rattle.gate_io.specs.Sites.{AreFresh};

use crate::{MemWorld, Settings, Site, SiteEnd, World};
use gate_base::{CallNos, OutOfMemory};
use std::alloc::Global;
use std::marker::Model;
use std::mem;

/// A site with stated worlds, which it hands out at a start with as many workers. It fails a start with another number of
/// workers, and the starts with the listed numbers, from 1. A start that memory ran out in counts as none.
#[derive(Drop)]
pub struct MemSite {
    worlds: Vec<MemWorld>,
    started: Vec<Settings>,
    seeds: Vec<[u8; 32]>,
    returned: Vec<MemWorld>,
    out: usize,
    fails: CallNos,
    calls: u64,
    faults: u64,
}

impl Model for MemSite {
    ghost use Rattle.gate_io.specs.MemorySite.{MemorySite};
    ghost use Rattle.gate_io.specs.Sites.{AreFresh};

    ghost Value = { MemorySite };

    ghost view = { λ s. record {
      worlds = s.worlds.items;
      started = s.started.items;
      seeds = s.seeds.items;
      returned = s.returned.items;
      out = s.out;
      fails = s.fails;
      calls = s.calls;
      faults = s.faults;
    } };

    ghost invariant = { λ s. AreFresh s.worlds.items };
}

impl MemSite {
    /// A site that hands out these worlds, in which nothing has happened, and whose starts with these numbers, from 1, are to
    /// fail.
    pub fn new(alloc: Global, worlds: Vec<MemWorld>, fails: CallNos) -> Self
        requires { AreFresh worlds.items }
        ensures { result ≡ record { worlds = worlds.items; started = []; seeds = []; returned = []; out = 0; fails = fails; calls = 0; faults = 0 } }
    {
        MemSite {
            worlds,
            started: Vec::new(alloc),
            seeds: Vec::new(alloc),
            returned: Vec::new(alloc),
            out: 0,
            fails,
            calls: 0,
            faults: 0,
        }
    }

    /// With what it was started.
    pub fn started(&self) -> &[Settings]
        ensures { result.now ≡ self.now.started }
    {
        &self.started
    }

    /// The worlds that it was given back last.
    pub fn returned(&self) -> &[MemWorld]
        ensures { result.now ≡ self.now.returned }
    {
        &self.returned
    }

    /// Whether the next start is to fail.
    fn is_listed(&self) -> bool
        ensures { IsTrue result ↔ IsNext self.now.fails self.now.calls }
    {
        self.fails
            .as_slice()
            .contains(&self.calls.saturating_add(1))
    }

    /// Whether the next start, with so many workers, is to fail.
    fn fails_at(&self, workers: u8) -> bool
        ensures fails { IsTrue result → IsNext self.now.fails self.now.calls ⊎ (length self.now.worlds ≢ workers) }
        ensures unlisted { result ≡ false → IsNext self.now.fails self.now.calls → ⊥ }
        ensures as_many { result ≡ false → length self.now.worlds ≡ workers }
    {
        self.is_listed() || self.worlds.len() != usize::from(workers)
    }
}

impl Site for MemSite {
    type W = MemWorld;

    ghost use Rattle.std.specs.Prelude.{◌≡◌, ◌≤◌, ◌∷◌, ◌++◌, [], Some, length, All, IfOk, OnErr, map};
    ghost use Rattle.gate_io.specs.MemorySite.{Starts, seed_in};
    ghost use Rattle.gate_io.specs.MemoryWorld.{last_in};
    ghost use Rattle.gate_io.specs.Sites.{IsFresh, noted};
    ghost use Rattle.gate_io.specs.Told.{Gains, Rose};

    ghost started = { λ s. Some s.started };

    ghost seeds = { λ s. Some s.seeds };

    ghost returned = { λ s. s.returned };

    ghost out = { λ s. s.out };

    ghost faults = { λ s. s.faults };

    // The first clause says all. The others repeat the trait's.
    fn start(&mut self, alloc: Global, settings: &Settings) -> Result<Vec<MemWorld>, SiteEnd>
        ensures answer { Starts self.old settings.now result self.new }
        ensures count { IfOk result (λ worlds. length worlds.items ≡ settings.now.workers) }
        ensures fresh { IfOk result (λ worlds. All (λ w. IsFresh (Some w.trace) (last_in w) w.faults) worlds.items) }
        ensures started { Gains (Some self.old.started) (noted settings.now result) (Some self.new.started) }
        ensures seeds { IfOk result (λ worlds. Gains (Some self.old.seeds) (map seed_in worlds.items) (Some self.new.seeds)) }
        ensures no_seeds { OnErr result (self.new.seeds ≡ self.old.seeds) }
        ensures out { IfOk result (λ worlds. self.new.out ≡ length worlds.items) }
        ensures none_out { OnErr result (self.new.out ≡ self.old.out) }
        ensures returned { self.new.returned ≡ self.old.returned }
        ensures faults { self.old.faults ≤ self.new.faults }
        ensures failed { result ≡ Err SiteEnd.Failed → Rose self.old.faults self.new.faults }
    {
        let fails = self.fails_at(settings.workers);
        let noted = settings.copy(alloc)?;
        let seeds = with_seeds(alloc, self.seeds.as_slice(), self.worlds.as_slice())?;
        self.started.push(noted)?;
        self.calls = self.calls.saturating_add(1);
        if fails {
            self.faults = self.faults.saturating_add(1);
            return Err(SiteEnd::Failed);
        }
        self.seeds = seeds;
        self.out = self.worlds.len();
        Ok(mem::replace(&mut self.worlds, Vec::new(alloc)))
    }

    fn give_back(&mut self, worlds: Vec<MemWorld>)
        requires count { length worlds.items ≡ self.old.out }
        ensures { self.new ≡ record self.old { returned = worlds.items; out = 0 } }
    {
        self.returned = worlds;
        self.out = 0;
    }
}

/// These seeds, and those of the worlds behind them.
fn with_seeds(
    alloc: Global,
    seeds: &[[u8; 32]],
    worlds: &[MemWorld],
) -> Result<Vec<[u8; 32]>, OutOfMemory>
    ensures { IfOk result (λ all. all.items ≡ seeds.now ++ map seed_in worlds.now) }
{
    let mut all = Vec::from_slice(alloc, seeds)?;
    for world in worlds {
        all.push(world.seed())?;
    }
    Ok(all)
}
