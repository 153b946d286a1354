// What holds of every chain. The functions have nothing to do: their contracts are the laws.
ghost use Rattle.filter_chain.specs.Examples.{ChainExamples};
ghost use Rattle.filter_chain.specs.Flow.{WhatPassesIsWhatCame};
ghost use Rattle.filter_chain.specs.Costs.{AskingFalls, GoingOnAddsNothing, StagesStay};

/// Each callback that is to come leaves less to do, and nothing else that a chain does leaves more but an item that comes.
pub fn asking_comes_to_an_end()
    ensures asking { AskingFalls }
    ensures going_on { GoingOnAddsNothing }
    ensures stages { StagesStay }
{}

/// The bytes that left a chain, and those that are in it, are those that were in it and that came, in order.
pub fn what_passes_is_what_came()
    ensures { WhatPassesIsWhatCame }
{}

/// Chains of two filters, worked: bodies gathered, heads held and continued, trailers, a filter that is let through.
pub fn worked_chains()
    ensures { ChainExamples }
{}
