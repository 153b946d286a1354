// What the definitions say, as functions without a body.
ghost use Rattle.send_queue.specs.Examples.{PlaceExamples, ClearedExamples, JoinedExamples, DeliveryExamples, TurnExamples};
ghost use Rattle.send_queue.specs.Laws.{ClearsOnePlace, EmptyPiecesAreNothing, JoinsNeighbours, LogNeverWaits, ShortIsNoted, AddsUp, RanksKeepApart};

/// An event that a connection is gone or was refused drops what waits for it, and nothing else.
pub fn clearing_drops_one_place()
    ensures { ClearsOnePlace }
{}

/// Joining neighbours changes nothing of what each side of a line and the log get.
pub fn joining_keeps_marks()
    ensures { JoinsNeighbours }
{}

/// A piece without bytes is nothing to anybody, so a list of things that are sent may be read without them.
pub fn empty_pieces_are_nothing()
    ensures { EmptyPiecesAreNothing }
{}

/// What turns deliver, one after another, adds up: all is received in order, or waits.
pub fn deliveries_add_up()
    ensures turns { AddsUp }
    ensures log { LogNeverWaits }
    ensures short { ShortIsNoted }
{}

/// No two places have one rank, and what is sorted by ranks has all that waits for a place together.
pub fn ranks_keep_places_apart()
    ensures { RanksKeepApart }
{}

/// Places, what an event drops, what is joined, and deliveries, worked on lists that are written out.
pub fn worked_deliveries()
    ensures places { PlaceExamples }
    ensures cleared { ClearedExamples }
    ensures joined { JoinedExamples }
    ensures delivered { DeliveryExamples }
    ensures turns { TurnExamples }
{}
