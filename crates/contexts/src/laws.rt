// The laws of what a host call sees and changes. The functions have nothing to do: their contracts are the laws.
ghost use Rattle.contexts.specs.Isolation.{PutIsSeen, IsIsolated, AllElseStays, MapsAreShared};
ghost use Rattle.contexts.specs.CreatingLaws.{CreatesOne, DeletesOne, EndsOne};
ghost use Rattle.contexts.specs.Examples.{ContextExamples};
ghost use Rattle.contexts.specs.Holding.{HoldsItsOwn};

/// What was put is seen by the same context.
pub fn put_is_seen()
    ensures { PutIsSeen }
{}

/// Two hosts that look the same to a call do so afterwards.
pub fn calls_are_isolated()
    ensures { IsIsolated }
{}

/// All else stays as it was, and the contexts of an exchange share what it has.
pub fn all_else_stays()
    ensures stays { AllElseStays }
    ensures shared { MapsAreShared }
{}

/// A stage holds what it is given, and every other stage what it held.
pub fn stages_hold_their_own()
    ensures { HoldsItsOwn }
{}

/// A context that is made or deleted, and an exchange that ends, change nothing else.
pub fn lives_are_apart()
    ensures creates { CreatesOne }
    ensures deletes { DeletesOne }
    ensures ends { EndsOne }
{}

/// Two VMs with their contexts on two lines, worked.
pub fn worked_contexts()
    ensures { ContextExamples }
{}
