// What holds of every script, as functions without a body.
ghost use Rattle.std.specs.Prelude.{List};
ghost use Rattle.replay_script.specs.declared.command.Command.{Command};
ghost use Rattle.command_replay.specs.Delivered.{DeliveredExamples};
ghost use Rattle.command_replay.specs.Laws.{EachHasItsWorker, EachWorkerMeans, OneReplay, FrontsOfOne, ScriptsOfOneAreRuns, StopStandsForAll};

/// Each event of a script happens at its worker, and nothing else happens.
pub fn each_has_its_worker()
    ensures { (commands : List Command) → EachHasItsWorker commands }
{}

/// A script sends one list at most.
pub fn one_replay<H>()
    ensures { OneReplay H }
{}

/// What some first events of a script send is a front of what the script sends.
pub fn fronts_of_one<H>()
    ensures { FrontsOfOne H }
{}

/// Stop at further workers, after a script's end, sends nothing.
pub fn stop_stands_for_all<H>()
    ensures { StopStandsForAll H }
{}

/// Each worker of a script does what its events mean, with the replies of the stores that all share, what the script sends is what these turns
/// send, and what a worker sends is what its world receives.
pub fn each_worker_means<H>()
    ensures { EachWorkerMeans H }
{}

/// A script of one worker is one run of it, and any run of that worker at the same events, over such stores, sends the same.
pub fn scripts_of_one_are_runs<H>()
    ensures { ScriptsOfOneAreRuns H }
{}

/// What of a list is each worker's, and that a world in which no turn was taken, or Stop alone, receives nothing.
pub fn worked_deliveries<H>()
    ensures { DeliveredExamples H }
{}
