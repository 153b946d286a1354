// What holds of every exchange. The functions have nothing to do: their contracts are the laws.
ghost use Rattle.exchange.specs.Laws.{NothingFollowsAnAnswer, NoBodyGoesDown, NoListedTrailerGoesOut};
ghost use Rattle.exchange.specs.Examples.{TooMuchExamples, NoStageExamples, NoBodyExamples, TrailerExamples};

/// Once a request was answered, nothing becomes of what more is read of it.
pub fn nothing_follows_an_answer()
    ensures { NothingFollowsAnAnswer }
{}

/// No bytes of a body go to a client that sent HEAD, or after a status that allows none, whatever the head tells.
pub fn no_body_goes_down()
    ensures { NoBodyGoesDown }
{}

/// No trailer goes out, up or down, that a Connection field of its head lists, as the head stood when it was written; all others do that go out at all.
pub fn no_listed_trailer_goes_out()
    ensures { NoListedTrailerGoesOut }
{}

/// Exchanges worked: a batch of which one item is too much, an answer and a close while a filter holds bytes, a body that a client must not
/// see, trailers that the head's Connection lists.
pub fn worked_exchanges()
    ensures too_much { TooMuchExamples }
    ensures no_stage { NoStageExamples }
    ensures no_body { NoBodyExamples }
    ensures trailers { TrailerExamples }
{}
