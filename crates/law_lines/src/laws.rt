// What holds of lines over turns. The functions have nothing to do: their contracts are the laws.
ghost use Rattle.law_lines.specs.Alike.{StepsDependOnTheLine};
ghost use Rattle.law_lines.specs.Examples.{LineExamples};
ghost use Rattle.law_lines.specs.Isolation.{OthersLeaveTheLine, OwnStepsCallNothing, TurnsOfOthersLeaveTheLine};
ghost use Rattle.law_lines.specs.IsolationExamples.{IsolationExample};
ghost use Rattle.law_lines.specs.Laws.{ExchangesLive, RequestsGoUpOneByOne, RequestsOfTheProductGoUp, WorkersGoUpOneByOne};
ghost use Rattle.law_lines.specs.Logs.{WriteLogs};
ghost use Rattle.law_lines.specs.Turns.{WorkersBeginSo};
ghost use Rattle.vm_host.specs.Slots.{calling};

use store_model::Shared;

/// A worker of any configuration begins as the laws of lines say.
pub fn workers_begin_so()
    ensures { WorkersBeginSo }
{}

/// Whatever turns a new worker has had, whose machines send nothing but logs by themselves, an exchange without filters that is on a line began as
/// exchanges begin, with a head that was judged, and has lived by what the laws of exchanges allow to happen to one, with the place and the request, but
/// for whether that was read whole, of its begin.
pub fn exchanges_live<H>()
    ensures { ExchangesLive H }
{}

/// Over the turns of a new worker, as they are defined: all that goes up on a line of a client can be cut into what exchanges sent, one after the other. Of each,
/// whatever filters it has, nothing goes up, or one connection is opened with the whole head of one request and items of a body as far as they went,
/// framed as the exchange frames it, and then that connection is closed; so no close comes without a connection. What came of it to its chain is a front
/// of what a reader handed on where its head was due: of the one that is open, the reader of the line's client, as it reads now. Where its last item
/// came, it was neither answered nor has ended and no stage has anything of it, the whole message went up. Which fields and which bytes filters make is
/// not said. Of one without filters it is the request of the head that was judged, exactly, with the pieces that came, which a reader takes as that one
/// request where its last item came; and while it is open and was neither answered nor has ended, all that came.
pub fn requests_go_up_one_by_one<H>()
    ensures { RequestsGoUpOneByOne H }
{}

/// So it is of a worker that was made of a configuration without streams of bytes, as `Worker::new` makes it, by the whole turns that its code takes, over shared stores.
pub fn workers_go_up_one_by_one<H, S: Shared>()
    ensures { WorkersGoUpOneByOne H S S.performs }
{}

/// The machines of VMs send nothing but logs by themselves, whatever their modules do.
pub fn machines_write_logs()
    ensures { WriteLogs calling }
{}

/// And of one with the machines of its VMs, whatever their modules do.
pub fn requests_of_the_product_go_up<S: Shared>()
    ensures { RequestsOfTheProductGoUp S S.performs }
{}

/// A GET goes up and its response comes down; two that come at once go up one after the other, each over a connection of its own. And what the
/// definitions of what goes up refuse.
pub fn worked_lines()
    ensures { LineExamples }
{}

/// Isolation of lines without filters. A line is free where the exchange on it, if there is one, has neither filters nor stages. Whatever machines do but that
/// they send nothing but logs, whatever stores reply and whatever is read, a step that is not of a free line (a callback of any VM, whether it answers, closes,
/// goes on or dies, a tick, a notice, a start, the end of a context, whatever comes of callouts, and whatever happens on other lines) leaves the line as it was,
/// sends nothing on it, where it is a line of a client, and puts nothing of it in hand. A step of the line calls no machine and no store, is the same whatever the machines are, and leaves it free where no request
/// for a route with filters comes. And a whole turn at the event of another line, from a room at rest, sends nothing on a free line of a client whose response is
/// not due, and leaves that as it was.
pub fn lines_without_filters_are_isolated<H>()
    ensures others { OthersLeaveTheLine H }
    ensures own { OwnStepsCallNothing H }
    ensures turns { TurnsOfOthersLeaveTheLine H }
{}

/// What a step of a line without filters does on it depends on the line, the maps of its exchange, the moment and what is read: two workers of one
/// configuration that agree on these, where no head is read whose route has filters, whatever their other lines, their machines and what they send besides are, send the same by the same step and agree on the line afterwards, but for the place of
/// the exchange's maps. Whether a line that is opened finds room is asked for besides; and of the job that answers late responses, which is of all lines, nothing is said.
pub fn steps_depend_on_their_line<H, K>()
    ensures { StepsDependOnTheLine H K }
{}

/// Two lines, of which the second is free: the filter of the first answers, or traps, which is sent on the first line alone.
pub fn worked_free_lines()
    ensures { IsolationExample }
{}
