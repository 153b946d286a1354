// What flows through one direction of an exchange. The functions have nothing to do: their contracts are the laws.
ghost use Rattle.law_body.specs.Apart.{ExchangesPassBy};
ghost use Rattle.law_body.specs.Deaths.{DeathsAreDeeds, DeathsPass, DroppingDrops};
ghost use Rattle.law_body.specs.Examples.{ExchangeExamples};
ghost use Rattle.law_body.specs.Exchanges.{ExchangesPassBodies};
ghost use Rattle.law_body.specs.Moved.{EffectsMoveOn};
ghost use Rattle.law_body.specs.Spent.{DeathExample, TheDeadAreAskedNothing, TheDeadAreSpared};

/// Of one direction of an exchange, whatever happens to it while it runs and is not answered, where callbacks for bodies and trailers answer Continue: what
/// left its chain, and what is after the last stage with a body callback then, is what those callbacks left, and where no buffer is changed what was read,
/// whole and in order; and by each deed of its own the exchange writes the items that leave, after what was sent before. A stage whose VM died is let through, and the law goes on.
pub fn exchanges_pass_bodies()
    ensures { ExchangesPassBodies }
{}

/// Where a VM dies, an exchange that has ended stays as it is. One with a filter of the VM that fails closed ends, with 503 where no head went down: no stage
/// is left, and what they held is dropped. In any other the stages of the VM are let through, those of the request first and the one nearest to the exit first, and pass everything then:
/// the deeds of the law on bodies.
pub fn deaths_cut_or_pass()
    ensures deaths { DeathsPass }
    ensures deeds { DeathsAreDeeds }
    ensures dropped { DroppingDrops }
{}

/// From the death of a VM on, while an exchange runs: each of its stages whose VM is dead passes everything, and nothing waits at it; that stays so whatever is done
/// to the exchange, whichever VMs die later; and so nothing is asked of it any more, in either direction.
pub fn the_dead_are_asked_nothing()
    ensures spared { TheDeadAreSpared }
    ensures asked { TheDeadAreAskedNothing }
    ensures worked { DeathExample }
{}

/// A callback may have the stage of its context go on, and with it what that holds: the stages of the same direction of the same exchange that come after may
/// have more wait at them then, of whatever VM they are, and nothing else moves: no stage in front, none of the other direction, and nothing that another stage
/// holds or another VM has among the contexts.
pub fn effects_move_what_comes_after()
    ensures { EffectsMoveOn }
{}

/// Whatever is done to an exchange passes by stages that are none of its own: they hold what they held.
pub fn exchanges_pass_by()
    ensures { ExchangesPassBy }
{}

/// An exchange, worked, whose filter changes the body of a request.
pub fn worked_exchange()
    ensures { ExchangeExamples }
{}
