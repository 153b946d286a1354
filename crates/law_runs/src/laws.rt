// What is run of the machines of a worker. The functions have nothing to do: their contracts are the laws.
ghost use Rattle.law_runs.specs.Bare.{RunsAllItAsks};
ghost use Rattle.law_runs.specs.Denying.{DenyingExample};
ghost use Rattle.law_runs.specs.Fuel.{FuelExamples, RunsHaveTheirFuel};
ghost use Rattle.law_runs.specs.Gone.{GoneEndNext, GoneExamples};
ghost use Rattle.law_runs.specs.Homes.{BeginsAtHome, StaysAtHome, LiveVmsKeepMachines, RunsOverLives};
ghost use Rattle.law_runs.specs.Made.{MadeExample, VmsAreMadeWithMachines};
ghost use Rattle.law_runs.specs.Marks.{ChangesAreTold, DeathsDropMarks, MarkExamples, WorkersRaiseNone};
ghost use Rattle.law_runs.specs.Runs.{RunsWhatIsAsked};

use law_vms::{
    callbacks_are_apart, callbacks_change_their_own, lives_keep_places, made_vms_are_in_place,
    nothing_runs, vms_keep_their_bounds,
};

/// A callback of a VM whose machine lives, where there are contexts for each slot, is the run of its machine and nothing else: of the function that its module
/// exports for the callback, with the whole fuel of a run. It is not passed over.
pub fn runs_what_is_asked()
    ensures { RunsWhatIsAsked }
{}

/// A worker as it is made of a configuration, with the machines of that, has contexts for each of its slots and for no VM more, and each machine stands at the
/// number of its contexts.
pub fn begins_at_home()
    ensures { BeginsAtHome }
{
    made_vms_are_in_place();
}

/// So it stays step by step and turn by turn, whatever modules do, stores reply and lines bring.
pub fn stays_at_home()
    ensures { StaysAtHome }
{
    callbacks_are_apart();
    callbacks_change_their_own();
}

/// A VM that had its machine has it for as long as its worker does not hold it for dead.
pub fn live_vms_keep_machines()
    ensures { LiveVmsKeepMachines }
{
    callbacks_are_apart();
    callbacks_change_their_own();
}

/// The machines that are made of the VMs of a configuration: a VM whose entry holds the code of its module has its machine, on which nothing has run, at its
/// number and with the pages and the fuel that the entry tells. One whose entry holds none has none. Worked are two VMs, of which the second alone holds code.
pub fn vms_are_made_with_machines()
    ensures machines { VmsAreMadeWithMachines }
    ensures worked { MadeExample }
{}

/// Over the whole life of a worker that was made of a configuration without streams of bytes, each callback of a VM that was made with its machine (`vms_are_made_with_machines`)
/// and that is not held for dead is run, and where the module exports it, of the function that it exports.
pub fn runs_over_lives()
    ensures { RunsOverLives }
{
    callbacks_are_apart();
    callbacks_change_their_own();
    made_vms_are_in_place();
    lives_keep_places();
}

/// A worker whose machines are at home takes the same steps and turns as one that runs each machine that it asks, with no test in front of the run: in no step is
/// a machine that stands in its slot passed over. So it is in every state of a worker that was made of a configuration.
pub fn runs_all_it_asks()
    ensures { RunsAllItAsks }
{
    nothing_runs();
    callbacks_are_apart();
    callbacks_change_their_own();
    made_vms_are_in_place();
}

/// Two modules that are written out, asked for the head of a request by the function that a worker calls: one asks for an answer 403 to its stream and returns
/// Pause, and dies where fuel is short; the other returns Pause and asks for nothing. Contexts and fuel are written by hand: no worker's turn is run here, and
/// no answer is sent.
pub fn worked_runs()
    ensures { DenyingExample }
{}

/// The mark that an answer was asked for, by which host calls refuse a second one: where a callback died no exchange on a line has it, whatever the callback left; where
/// an effect, an action, what was read or a refusal was done to an exchange on a line, that has it not, and where its place is still taken, host calls are told of it
/// what is so: whether it was answered, has ended, and has its response head out. And of machines that never ask for an answer of an exchange, no step raises its mark:
/// of machines of which one may, that says nothing. Worked is the mark after the module that asks for 403, and that it falls once its exchange is answered.
pub fn marks_fall<H>()
    ensures deaths { DeathsDropMarks }
    ensures changes { ChangesAreTold }
    ensures raised { WorkersRaiseNone H }
    ensures worked { MarkExamples }
{}

/// Where a worker is at rest but for the parts of its turn, and the first of these is that the client of a line is gone, the end of that line's exchange comes next,
/// and no callback before it. What host calls are told meanwhile is not said.
pub fn gone_end_next<H>()
    ensures next { GoneEndNext H }
    ensures worked { GoneExamples }
{}

/// A VM whose entry of the configuration holds the code of its module is made with the program of that module, whose imports stand for the host calls that it names, and with as many pages and as much fuel
/// as the entry tells, and has these for its worker's whole life, where its lines are HTTP. Each callback of it, and its start function and then `_initialize` or else `_start` where it begins, is a run of one function with the whole
/// of that fuel, of its own, and no more. Worked are modules whose start function or `_initialize` has too little, and one that asks for more pages than its entry tells.
pub fn runs_have_their_fuel()
    ensures runs { RunsHaveTheirFuel }
    ensures worked { FuelExamples }
{
    vms_keep_their_bounds();
}
