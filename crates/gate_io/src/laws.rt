// What the definitions say, as functions without a body.
ghost use Rattle.gate_io.specs.Examples.{PassingExamples, OrderExamples, ScriptExamples, CallExamples};
ghost use Rattle.gate_io.specs.Given.{KeepTo, EndsAt};
ghost use Rattle.gate_io.specs.Laws.{ReadsGoOn};
ghost use Rattle.gate_io.specs.Scripts.{GivesItsEvents};

use crate::World;

/// The lists of what happened, what was received, what was asked for and what fell short go on as the trace of a world goes on.
pub fn reads_go_on()
    ensures { ReadsGoOn }
{}

/// Of any world, at any moment: where what passed is told, the events in it are the first of the script, where that is
/// told too, and the last event is the last of them.
pub fn worlds_keep_to_their_scripts<W: World>(world: &W)
    ensures script { KeepTo (W.nature world.now).script (W.trace world.now) }
    ensures last { EndsAt (W.trace world.now) (W.last world.now) }
{
    let _ = world;
}

/// What a world in memory gives are the events that it was made of, in their order, and behind them Stop for ever,
/// whatever it takes and however often it fails meanwhile.
pub fn memory_worlds_give_their_events()
    ensures { GivesItsEvents }
{}

/// What passes between a world and its worker, the order of events, scripts, and calls of a world in memory, worked on
/// lists that are written out.
pub fn worked_worlds()
    ensures passing { PassingExamples }
    ensures order { OrderExamples }
    ensures scripts { ScriptExamples }
    ensures calls { CallExamples }
{}
