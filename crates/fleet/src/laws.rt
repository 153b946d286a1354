// What holds of all lives and of all fleets, as functions without a body.
ghost use Rattle.fleet.specs.Alone.{AloneExamples, OneWorkerIsAlone, OneWorkerIsOfOneThread, RunsAloneAreOfOneThread};
ghost use Rattle.fleet.specs.Closing.{ClosingExamples};
ghost use Rattle.fleet.specs.Laws.{AllLivesAreMeant, EachVmHasOne, LivesAreMeant, SeatsGoOnByLives, two_vms_leave_two};
ghost use Rattle.fleet.specs.Run.{EndExamples};

use filter_host::Host;
use gate_io::World;

/// A worker's seats go on by the calls and asks that the turns of its lives made, one after the other.
pub fn seats_go_on_by_lives<H: Host>()
    ensures { SeatsGoOnByLives H.calling }
{}

/// The turns of a life are those that its events mean, from where it began, with the replies of the worker's seats. Their calls are those of that
/// meaning; and however the life ended, all that it called is what the meaning of its events calls first.
pub fn lives_are_meant<H: Host>()
    ensures { LivesAreMeant H.calling }
{}

/// A worker's calls are, one life after the other, what the meanings of the events of each of its lives call first. In a world that tells what passed, the
/// events that it told of giving are those of the lives, one after the other.
pub fn all_lives_are_meant<H: Host>()
    ensures { AllLivesAreMeant H.calling }
{}

/// However the workers of a fleet ended, each VM of the configuration came to one store, with one history of the calls of all workers, and
/// to one set of metrics, with one history of their definitions. So as many tables count as there are VMs.
pub fn each_vm_has_one_history<H: Host, W: World>()
    ensures one { EachVmHasOne W.trace W.nature W.faults H.calling }
    ensures two { two_vms_leave_two W.trace W.nature W.faults H.calling }
{}

/// Which closes stand between two lives: one of each connection that stood, and of no other; lines rise, and the server of each comes before its client.
pub fn worked_closes()
    ensures { ClosingExamples }
{}

/// Why a fleet did not end well, by how its workers ended: a world that failed counts before want of memory.
pub fn worked_ends<W: World>()
    ensures { EndExamples W }
{}

/// A run over seats whose calls are legal by themselves on each store, and which asks no metrics, is one over the stores of one thread, as that of a
/// script is.
pub fn runs_alone_are_of_one_thread<H: Host>()
    ensures { RunsAloneAreOfOneThread H.calling }
{}

/// In a fleet of one worker its calls on each VM's store are legal by themselves.
pub fn one_worker_is_alone<H: Host, W: World>()
    ensures { OneWorkerIsAlone W.trace W.nature W.faults H.calling }
{}

/// In a fleet of one worker, which had one life that ended with Stop, called stores that are there and asked no metrics, it came to its last standing, at the
/// events of this life and with its calls, as their meaning says over the stores of one thread; and in a world that tells what passed, what it told is what
/// passes in this run.
pub fn one_worker_is_of_one_thread<H: Host, W: World>()
    ensures { OneWorkerIsOfOneThread W.trace W.nature W.faults H.calling }
{}

/// Which calls are alone.
pub fn worked_alone()
    ensures { AloneExamples }
{}
