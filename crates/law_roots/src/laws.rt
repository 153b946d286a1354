// The functions have nothing to do: their contracts are the laws.
ghost use Rattle.law_roots.specs.Roots.{CallbacksKeepRoots, FiltersGetContexts, RootsAreMade, StartsHaveRoots, StreamsKeepRoots};

/// At the first event of a worker, the root context of each plug-in is among what the turn makes. The step that makes it does so; no callback and no new stream
/// context takes it away; and a filter of a plug-in that has its root gets a context, unless its VM is dead or has no id left.
pub fn roots_stand()
    ensures starts { StartsHaveRoots }
    ensures made { RootsAreMade }
    ensures callbacks { CallbacksKeepRoots }
    ensures streams { StreamsKeepRoots }
    ensures filters { FiltersGetContexts }
{}
