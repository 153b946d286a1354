// The laws are of workers whose lines are HTTP: whose configuration has no streams of bytes. The functions call the laws that theirs rest on, and do nothing else: their
// contracts are the laws.
ghost use Rattle.law_filters.specs.Ended.{DeadFiltersEndExchanges, EndedExamples};
ghost use Rattle.law_filters.specs.Every.{ClosedLetsNothingPass, EveryFilterIsAsked};
ghost use Rattle.law_filters.specs.EveryExamples.{EveryExamples};
ghost use Rattle.law_filters.specs.Examples.{HeadExamples};
ghost use Rattle.law_filters.specs.Heads.{AllHeadsWait, HeadsComeToWait, StagesAwait};
ghost use Rattle.law_filters.specs.Onward.{StagesAreAskedFirst};
ghost use Rattle.law_filters.specs.Roots.{FiltersGetContextsForLife, RootsStandAfterTurns, RootsStandForLife};

use law_lines::machines_write_logs;
use law_roots::roots_stand;
use law_vms::{callbacks_change_their_own, made_vms_are_in_place};

/// Over the whole life of a worker of HTTP, step by step: the VM of each plug-in is dead, or the plug-in's root context stands, or it is to come; and where one is to
/// come no line is open. So it is after each whole turn, where turns come to rest.
pub fn roots_stand_for_life()
    ensures steps { RootsStandForLife }
    ensures turns { RootsStandAfterTurns }
{
    callbacks_change_their_own();
    made_vms_are_in_place();
    machines_write_logs();
    roots_stand();
}

/// So, wherever a line is open, the step that makes the context of a filter makes a stream context of its plug-in's root, where the plug-in's VM lives and has an id left.
pub fn filters_get_contexts_for_life()
    ensures { FiltersGetContextsForLife }
{
    roots_stand();
    roots_stand_for_life();
}

/// The head of a request waits for each stage of its exchange: whatever is done to the exchange, whatever callbacks return and ask for and whichever other VM
/// dies, the head is not past a stage that was not asked it, and no connection to the server is opened. Or nothing more of the request goes up. So
/// it begins where stages are made: each filter that has its context, of a VM that lives, has its stage, to which nothing came, and waits for the head once that is put.
pub fn heads_wait()
    ensures made { StagesAwait }
    ensures begun { HeadsComeToWait }
    ensures stays { AllHeadsWait }
{}

/// Over the whole life of a worker of HTTP: from any state where the head of a request waits for a stage of its exchange, by any steps up to one that opens a connection
/// for the line, one of them asked the stage the head, or the stage's VM died. That a request comes to such a state is said by `every_filter_is_asked`.
pub fn stages_are_asked_first()
    ensures { StagesAreAskedFirst }
{
    callbacks_change_their_own();
    made_vms_are_in_place();
    machines_write_logs();
    roots_stand();
}

/// Worked: where the head of a request waits for a stage in a chain of two, and where it is past one.
pub fn worked_heads()
    ensures { HeadExamples }
{}

/// Every filter is asked. Over the whole life of a worker of HTTP, from the step that reads the head of a request on a line to one that opens the connection to its server: each
/// plug-in of the route that takes the request was asked the head before, with a context of its own that was made for this exchange. Only a plug-in that fails
/// open, and whose VM died, was passed over.
pub fn every_filter_is_asked()
    ensures { EveryFilterIsAsked }
{
    callbacks_change_their_own();
    made_vms_are_in_place();
    machines_write_logs();
    roots_stand();
}

/// What fails closed lets nothing pass on lines of HTTP. From the step that reads the head of a request on: once the VM of a plug-in of its route is dead that fails closed, no later step
/// opens a connection to the server for it, and after each of them the exchange has ended, was answered, or is refused with 503 before any filter sees it.
pub fn closed_lets_nothing_pass()
    ensures { ClosedLetsNothingPass }
{
    callbacks_change_their_own();
    made_vms_are_in_place();
    machines_write_logs();
    roots_stand();
}

/// Worked: what begins an exchange, who is passed over, what counts as asked, and which exchanges are barred.
pub fn worked_filters()
    ensures { EveryExamples }
{}

/// Once the VM of a filter that fails closed is dead, each exchange in which the filter has a part has ended: at each moment of a worker's life, whatever callbacks return
/// and ask for, and whichever other filter answered. A filter has a part where its stage is there, for the request or for the response, or where stages are still to be made.
/// After each turn there is no such exchange on any line, so that nothing more of its response goes down in a later turn.
pub fn dead_filters_end_exchanges()
    ensures { DeadFiltersEndExchanges }
{
    callbacks_change_their_own();
    made_vms_are_in_place();
    machines_write_logs();
}

/// Worked: which filters have a part in an exchange, and one whose filter for the response dies.
pub fn worked_endings()
    ensures { EndedExamples }
{}
