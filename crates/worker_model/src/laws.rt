// What holds of every turn, as functions without a body.
ghost use Rattle.worker_model.specs.Examples.{EventExamples};
ghost use Rattle.worker_model.specs.Laws.{TurnsAreFunctions, MoreStepsChangeNothing};

/// A turn is a function of what the shared stores reply.
pub fn turns_are_functions()
    ensures { TurnsAreFunctions }
{}

/// Where so many steps come to rest, more of them change nothing.
pub fn more_steps_change_nothing()
    ensures { MoreStepsChangeNothing }
{}

/// Whose an event is, by its line: that of the lines of clients, that of a callout, or nobody's. Which callouts are due, and whose lines are read.
pub fn worked_events()
    ensures { EventExamples }
{}
