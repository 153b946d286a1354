// What passed, for proofs alone.
ghost use Rattle.std.specs.Prelude.{◌≡◌, ◌∷◌, ◌++◌, List, []};
ghost use Rattle.std.specs.Borrow.{ftrue};
ghost use Rattle.gate_io.specs.declared.passed.Passed.{Passed};
ghost use Rattle.gate_io.specs.declared.passed.Passed.TheVariants.{Asked, Gave, Took};

use gate_io::{Event, Sent, Wants};
use std::marker::Model;

/// All that passed between a world and its worker, as clauses read it. It takes no memory, and its methods do nothing when
/// they run.
#[derive(Drop)]
pub(crate) struct Trace {
    pub(crate) ghost steps: { List Passed },
}

impl Model for Trace {
    ghost also_owns = { λ _. ftrue };
}

impl Trace {
    /// Nothing passed.
    pub(crate) fn new() -> Trace
        ensures { result.steps ≡ [] }
    {
        Trace {}
    }

    /// After it an event was asked for, and given.
    pub(crate) fn gave(&self, _wants: &Wants, _event: &Event) -> Trace
        ensures { result.steps ≡ self.now.steps ++ Asked _wants.now ∷ Gave _event.entry.now ∷ [] }
    {
        Trace {}
    }

    /// After it something was taken.
    pub(crate) fn took(&self, _sent: &Sent) -> Trace
        ensures { result.steps ≡ self.now.steps ++ Took _sent.now ∷ [] }
    {
        Trace {}
    }
}
