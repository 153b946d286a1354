// What holds of callouts in turns of HTTP. The functions have nothing to do: their contracts are the laws.
ghost use Rattle.law_callouts.specs.Calls.{CalloutTurns};
ghost use Rattle.law_callouts.specs.Ends.{CalloutsAreSoundInLives, CalloutsBeginNew, CalloutsEndOnce, ReportsHaveAnswers, TurnsAreLives};
ghost use Rattle.law_callouts.specs.GoingOut.{CalloutsGoOutOnce, WorkersGoOutOnce};
ghost use Rattle.law_callouts.specs.OneFate.{OneFateAtMost};
ghost use Rattle.law_callouts.specs.Sound.{CalloutsStaySound};
ghost use Rattle.law_callouts.specs.Workers.{WorkersBeginCalloutsNew, WorkersEndCalloutsOnce, WorkersStaySound};

use law_vms::callbacks_change_their_own;

/// Callouts that are answered, that fail, and of which nobody is told: at a response, at the deadline and on one moment with it, at a
/// refusal, after the client has gone, after the VM has died, and one after another.
pub fn worked_callout_turns()
    ensures { CalloutTurns }
{}

/// The ids of callouts under way rise up to the last that was drawn, and their number is told: each step of a callout keeps that. The next id
/// is new, and after its end none has it.
pub fn callouts_stay_sound()
    ensures { CalloutsStaySound }
{}

/// Each callout ends once, by its fate, which is read off the events after it began and not off what the worker keeps. So it is over whole turns of HTTP, whatever the
/// shared stores reply, lines bring and machines do that leave the counts of callouts. While the fate is open the callout is under way, and no step reports on it.
/// Once it is answered or has failed, one step has ended it. That step reports its end to its context, with the answer of the fate or with none, if the context is
/// there and its VM lives; else it reports nothing. The context has that answer then, so that the callback is given its counts. No other step reports on it, and no
/// later event of its line is a part of any turn. No step reports on an id that was not drawn. In the turn in which it is drawn its callout stays as it began, at the
/// moment of that turn's event. Callouts stay sound over whole turns. Any whole turns, one after another, by a plan without streams of bytes,
/// are such steps.
pub fn callouts_end_once<H>()
    ensures ends { CalloutsEndOnce H }
    ensures begins { CalloutsBeginNew H }
    ensures counts { ReportsHaveAnswers }
    ensures sound { CalloutsAreSoundInLives H }
    ensures turns { TurnsAreLives H }
{}

/// So it is of a worker of HTTP whose machines run modules, where each stands at the number of its contexts, as in every worker that was made: each callout ends once, by its
/// fate, whatever the modules do. No step reports on an id that was not drawn, and in the turn in which it is drawn its callout stays as it began. Over whole turns
/// the machines keep their places, and callouts stay sound.
pub fn workers_end_callouts_once()
    ensures ends { WorkersEndCalloutsOnce }
    ensures begins { WorkersBeginCalloutsNew }
    ensures sound { WorkersStaySound }
{
    callbacks_change_their_own();
}

/// A list of events has one fate of a callout at most. That it has one is not said here.
pub fn callouts_have_one_fate_at_most()
    ensures { OneFateAtMost }
{}

/// What is sent on the line of a callout, from 2^31 on, over the whole life of a worker, whatever its filters do, its stores reply and its lines bring, where its machines
/// write logs alone and leave the counts of callouts. Nothing, where the id of the line was not drawn. While its callout is under way, one connection up and all bytes of one
/// request, in one piece. Once that has ended, the same and then one close. So no second connection, no second request and no byte follows, nothing goes down, and the close comes
/// with the end of the callout: in the same turn, and not before. Which request it is of those that filters began is not said here.
pub fn callouts_go_out_once<H>()
    ensures { CalloutsGoOutOnce H }
{}

/// So it is of a worker whose machines run modules, where each stands at the number of its contexts, as in every worker that was made.
pub fn workers_send_callouts_once()
    ensures { WorkersGoOutOnce }
{
    callbacks_change_their_own();
}
