// The outside of all workers.
ghost use Rattle.std.specs.Prelude.{◌≡◌, ◌≤◌, ℕ, List, length, All, Option, IfOk, OnErr, map};
ghost use Rattle.gate_io.specs.Sites.{IsFresh, noted};
ghost use Rattle.gate_io.specs.Told.{Gains, Rose};
ghost use Rattle.gate_io.specs.declared.settings.Settings.{Settings};

use crate::{Settings, SiteEnd, World};
use std::alloc::Global;

/// The outside of all workers, which hands out a world for each and takes them back.
pub trait Site {
    type W: World + Send + Drop;

    /// The settings that `start` was given, in order, where told.
    ghost started: { Self → Option (List Settings) };

    /// The seeds of the worlds that were handed out, in order, where told.
    ghost seeds: { Self → Option (List (List ℕ)) };

    /// The worlds that were given back last.
    ghost returned: { Self → List Self.W };

    /// How many worlds are out.
    ghost out: { Self → ℕ };

    /// A count of failures, up to 2^64 - 1: it never falls, and rises in a call that answers Failed.
    ghost faults: { Self → ℕ };

    /// Hands out a world for each worker, in which nothing has happened. A refusal hands out none.
    fn start(&mut self, alloc: Global, settings: &Settings) -> Result<Vec<Self::W>, SiteEnd>
        ensures count { IfOk result (λ worlds. length worlds.items ≡ settings.now.workers) }
        ensures fresh { IfOk result (λ worlds. All (λ w. IsFresh (Self.W.trace w) (Self.W.last w) (Self.W.faults w)) worlds.items) }
        ensures started { Gains (started self.old) (noted settings.now result) (started self.new) }
        ensures seeds { IfOk result (λ worlds. Gains (seeds self.old) (map (λ w. (Self.W.nature w).seed) worlds.items) (seeds self.new)) }
        ensures no_seeds { OnErr result (seeds self.new ≡ seeds self.old) }
        ensures out { IfOk result (λ worlds. out self.new ≡ length worlds.items) }
        ensures none_out { OnErr result (out self.new ≡ out self.old) }
        ensures returned { returned self.new ≡ returned self.old }
        ensures faults { faults self.old ≤ faults self.new }
        ensures failed { result ≡ Err SiteEnd.Failed → Rose (faults self.old) (faults self.new) };

    /// Takes back the worlds that are out, and keeps them. It takes no memory.
    fn give_back(&mut self, worlds: Vec<Self::W>)
        requires count { length worlds.items ≡ out self.old }
        ensures returned { returned self.new ≡ worlds.items }
        ensures out { out self.new ≡ 0 }
        ensures started { started self.new ≡ started self.old }
        ensures seeds { seeds self.new ≡ seeds self.old }
        ensures faults { faults self.new ≡ faults self.old };
}
