// What flows through one direction of an exchange. The functions have nothing to do: their contracts are the laws.
ghost use Rattle.law_flow.specs.Besides.{OtherLinesLeave, OtherDirectionLeaves, QuietStepsLeave};
ghost use Rattle.law_flow.specs.Contexts.{CallsAreRuns, ContextsLeave};
ghost use Rattle.law_flow.specs.Created.{ContextsAreOfTheirVms, CreatedExample, FiltersTellTheirVms};
ghost use Rattle.law_flow.specs.Dead.{TheDeadAreCalledNoMore, UncalledExample, VmsDie};
ghost use Rattle.law_flow.specs.Deaths.{AllLinesLeave, DeathsEndMoves, DeathsGoOn, DeathsReach};
ghost use Rattle.law_flow.specs.Dying.{DeathsAreKillings, DeathsHaveCauses, DyingExample};
ghost use Rattle.law_flow.specs.Effects.{AskingElsewhereLeaves, CallbacksAreRuns, MildEffectsAreOthers};
ghost use Rattle.law_flow.specs.Elsewhere.{OtherDirectionMoves, OtherLinesMove};
ghost use Rattle.law_flow.specs.Events.{EventsLeave};
ghost use Rattle.law_flow.specs.Jobs.{EndsDrop, JobsLeave, TellsAreRuns};
ghost use Rattle.law_flow.specs.Readings.{ReadingLeaves};
ghost use Rattle.law_flow.specs.RoomExamples.{RoomExample};
ghost use Rattle.law_flow.specs.Stepping.{StepsBeside};
ghost use Rattle.law_flow.specs.Steps.{MovesAreSteps, PutsAreSteps};
ghost use Rattle.law_flow.specs.TurnExamples.{TurnExample};
ghost use Rattle.law_flow.specs.Turns.{BuffersAreOne, TurnsGoOn, TurnsPassBodies};
ghost use Rattle.law_flow.specs.Workers.{LastStagesPass, MeanwhileRuns, OwnPartsSend, RunsGoOn, UnchangedPass, WorkersPassBodies};

/// Of one direction of the exchange on a line: what left its chain, and what is held and waits then, is what was to pass, whole and in order, whatever
/// the machines are and whatever its worker does meanwhile of moves of the direction, puts of what was read, and what else resumes a stage of the
/// direction or leaves that as it was. After each part of its own what the exchange sends is sent; of what else is sent nothing is said.
pub fn workers_pass_bodies<H>()
    ensures deeds { WorkersPassBodies H }
    ensures last_stage { LastStagesPass H }
    ensures unchanged { UnchangedPass H }
    ensures meanwhile { MeanwhileRuns H }
    ensures goes_on { RunsGoOn H }
    ensures sends { OwnPartsSend H }
{}

/// A worker's step that moves a direction comes to the end of a callback of the stage that is asked, and then to the room after that move; one
/// that puts what was read puts it. One that moves a line, and whose callback died, ends in what is done on all lines then.
pub fn moves_are_steps<H>()
    ensures moves { MovesAreSteps H }
    ensures puts { PutsAreSteps H }
    ensures deaths { DeathsEndMoves H }
{}

/// What a worker does on other lines, in the other direction of the exchange, and in steps that touch no line, leaves a direction as it was, where no
/// stage is in two chains.
pub fn directions_are_left()
    ensures lines { OtherLinesLeave }
    ensures direction { OtherDirectionLeaves }
    ensures steps { QuietStepsLeave }
{}

/// Callbacks of others are what the law takes a worker to do besides, where they leave what the direction's stages hold as it was, and their effects
/// neither close nor answer the exchange. So is asking on another line.
pub fn callbacks_of_others<H>()
    ensures effects { MildEffectsAreOthers }
    ensures callbacks { CallbacksAreRuns H }
    ensures asking { AskingElsewhereLeaves }
{}

/// A step that moves another line, or the other direction of the exchange, is what the law takes a worker to do besides.
pub fn others_move<H>()
    ensures lines { OtherLinesMove H }
    ensures direction { OtherDirectionMoves H }
{}

/// The next turn begins, a job is taken in hand, a notice was taken, a tick is due, or another exchange is at its end: that leaves a direction as it
/// was. A callback whose answer says nothing is what the law takes a worker to do besides. At the exchange's own end what its stages still hold is dropped.
pub fn jobs_leave_directions<H>()
    ensures quiet { JobsLeave }
    ensures telling { TellsAreRuns H }
    ensures drop { EndsDrop }
{}

/// What is done on all lines and does nothing to the exchange itself leaves a direction as it was; so the death of a VM that is none of its stages'.
/// Where a VM died the function that is called then reaches the exchange: it ends without stages or they are let through, as `deaths_cut_or_pass` of
/// `law_body` says, with what the direction's stages held before; and what is done on other lines leaves what they hold, and what was sent.
/// Where the exchange goes on, that is deeds of the law on exchanges, and the direction is sound after them.
pub fn deaths_on_lines()
    ensures others { AllLinesLeave }
    ensures reach { DeathsReach }
    ensures deeds { DeathsGoOn }
{}

/// Contexts of others come and go, and that leaves a direction as it was. A callback of no stage is what the law takes a worker to do besides, where
/// what comes after it leaves the direction as it was.
pub fn contexts_of_others<H>()
    ensures contexts { ContextsLeave }
    ensures calls { CallsAreRuns H }
{}

/// Lines come and go, texts grow, other exchanges begin, are refused and are answered for: that leaves a direction as it was.
pub fn events_leave_directions()
    ensures { EventsLeave }
{}

/// A reading step leaves a direction as it was, where no exchange begins by it on the line.
pub fn reading_leaves_directions<H>()
    ensures { ReadingLeaves H }
{}

/// A worker's step that is none of a direction resumes stages of it, or leaves it as it was; be it a move of another line or a job whose callback dies, or a
/// start or a configuration that answers 0, where the exchange has no stage of its VM and no filter that fails closed by it. So is what is done about a callout: what comes
/// of its line, what its reader says, and its end, of which its context is told.
pub fn steps_beside<H>()
    ensures { StepsBeside H }
{}

/// Over all steps of a worker, in turns one after the other, of one direction of an exchange: what left its chain, and what its stages hold and what waits at
/// them after the last stage with a body callback, is what the body callbacks of that stage left, or where no buffer is changed what was put; what left and
/// what is in the chain is the head, the pieces and the end or the trailers that were put, in order; once the end has left, all has. The deeds that
/// tell this are those of the steps, and by each of its own the exchange, which had not ended, writes each item that leaves. What the body callback of a step left is one
/// list of bytes, by what the step met (`one`). From any state between steps the same goes on (`goes_on`), with stages that were let through too. In each step
/// the callbacks of the exchange's stages return, those for bodies and trailers of the direction with Continue, and so do others, but such as `steps_beside` lets die; the
/// exchange is neither answered nor closed; no stage is in two chains, the contexts of the direction's stages are there, and callbacks of others leave what these hold as it was.
pub fn turns_pass_bodies<H>()
    ensures turns { TurnsPassBodies H }
    ensures goes_on { TurnsGoOn H }
    ensures one { BuffersAreOne H }
{}

/// A worker, worked, whose filter changes the body of a request.
pub fn worked_bodies()
    ensures { RoomExample }
{}

/// From after the step in which a VM died, by whatever cause, no callback of it comes: over any steps of any turns of a worker that began without lines, whatever its
/// machines do, stores reply and lines bring. Of the functions in which a callback ends: a VM is dead once one of it trapped or spent its fuel, its start or a configuration
/// answered 0, or no id was left for it. Worked without lines.
pub fn the_dead_are_called_no_more<H>()
    ensures uncalled { TheDeadAreCalledNoMore H }
    ensures causes { VmsDie }
    ensures worked { UncalledExample }
{}

/// Behind any step of a worker those are dead who were before it, and at most one VM more, which was killed in that step: the step's callback was of it and died, as by a trap or
/// spent fuel; its start, or the configuration of a plug-in of it, answered 0; or the root of such a plug-in, or the context of a filter of it, was to be made, and no id was left.
/// And a VM that is killed in a step is dead after it. Which callback a step calls is told by what is next and the room; where there is none, the machines are as they were behind
/// the step. So of any steps of any turns: a VM that is dead at their end and was not at their beginning was killed in one of them, before which it was not dead. Worked of a VM
/// whose start answers 0. That the step's line in the log names this cause is not said.
pub fn why_vms_die<H>()
    ensures step { DeathsHaveCauses H }
    ensures life { DeathsAreKillings H }
    ensures worked { DyingExample }
{}

/// A context that is made for a filter of an exchange is of the VM that the filter tells, which lives and has a root of the number of the plug-in's root, and under the
/// id that is next there. Where an exchange begins, each of its filters tells the VM of its plug-in's entry in the configuration.
pub fn contexts_are_of_their_vms()
    ensures made { ContextsAreOfTheirVms }
    ensures named { FiltersTellTheirVms }
    ensures worked { CreatedExample }
{}

/// Steps of a worker, worked, that meet the premises of `turns_pass_bodies`: the head of a request and two bytes of its body are put, one callback is called, and then the
/// filter holds the head. That law says of them that no byte left, and the two wait.
pub fn worked_turns()
    ensures { TurnExample }
{}
