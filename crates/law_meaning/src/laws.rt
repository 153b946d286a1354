// What holds of every meaning and of every turn. The functions have nothing to do: their contracts are the laws.
ghost use Rattle.law_meaning.specs.Examples.{TurnExamples};
ghost use Rattle.law_meaning.specs.Turns.{MeaningsAreTurns};
ghost use Rattle.law_meaning.specs.Walks.{TurnsAreWalks};

/// A meaning is turns, one after the other: they have its events, meet what it meets, come to its state and send what it sends.
pub fn meanings_are_turns<H>()
    ensures { MeaningsAreTurns H }
{}

/// A turn other than that of Stop, by a plan without streams of bytes, is a walk: steps, each the one that is next in the state before it, which meet what the turn meets and lead to where it comes.
pub fn turns_are_walks<H>()
    ensures { TurnsAreWalks H }
{}

/// Worked turns: Stop is one turn, which meets nothing, sends nothing and leaves the state; and the next step of a worker that is not at rest is a walk.
pub fn worked_turns<H>()
    ensures { TurnExamples H }
{}
