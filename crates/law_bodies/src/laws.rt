// What goes on through an exchange, of single steps. The functions have nothing to do: their contracts are the laws.
ghost use Rattle.law_bodies.specs.Bodies.{BodiesGoOnAsTheyCame};
ghost use Rattle.law_bodies.specs.Bounds.{ContextsBeginAndEnd, LinesAreTakenAndStay, StagesHoldAMegabyte, TimesAreKept};
ghost use Rattle.law_bodies.specs.Lives.{LivesExamples, ResponsesGoDownAsTheyCame};
ghost use Rattle.law_bodies.specs.Steps.{ContextsHaveTheirLastWords, FiltersStandInOrder, InterimHeadsGoDown, StaleSetsAreRefused, WhatIsPausedIsHeld, WhatIsReadComesOn};

/// Where a whole body is put to a chain without stages, and suits its framing (it has as many bytes as are told, say), what goes out of it is read as that body: the
/// bytes that came, in order, and its end or the trailers that are left. So it is of responses and of requests. How it came in batches does not matter.
pub fn bodies_go_on_as_they_came()
    ensures { BodiesGoOnAsTheyCame }
{}

/// Over any deeds that happen to a new exchange without filters, but that an interim head is handed on, where what is read of its response is a front of one message: what
/// goes down is nothing; or an answer; or one head and the items of the response's body as they came, each piece with its bytes, as far as they went, and all that came
/// while the exchange runs. The fields of that head are those that the response's map had when the head came to the chain; the date follows where they have none. That a worker's
/// exchange lives by such deeds is not said here.
pub fn responses_go_down_as_they_came()
    ensures { ResponsesGoDownAsTheyCame }
{}

/// The filters of a route are its plug-ins in their order. So stand the stages of the request, of those that live and have their context, and those of the response
/// in reverse.
pub fn filters_stand_in_order()
    ensures { FiltersStandInOrder }
{}

/// Where the callback of a stage answers anything but Continue, nothing is sent, and the exchange stays as it is. A callback that lets the other direction of its
/// stream go on, or another stream, does so at once; of its own direction the action that it returns decides.
pub fn what_is_paused_is_held()
    ensures { WhatIsPausedIsHeld }
{}

/// Bytes that come from a server are read next. The head of a response that a reader hands on is kept as the response's map. What it hands on of a response's body joins what was
/// read before it, and is put to the chain of the response with it, in order. By single steps; of requests nothing is said here.
pub fn what_is_read_comes_on()
    ensures { WhatIsReadComesOn }
{}

/// An interim head that a server sends goes down at once, but not to a client of HTTP/1.0.
pub fn interim_heads_go_down()
    ensures { InterimHeadsGoDown }
{}

/// After the callback `done` of a context, its log and its deletion are put in hand, in this order: at once, or, where it asked to wait, once it is released.
pub fn contexts_have_their_last_words()
    ensures { ContextsHaveTheirLastWords }
{}

/// A Set with a number other than 0 that is not the key's is refused, and changes no key.
pub fn stale_sets_are_refused()
    ensures { StaleSetsAreRefused }
{}

/// Bytes that come to a stage are not too many where they are at most 1,048,576 with those that it has.
pub fn stages_hold_a_megabyte()
    ensures { StagesHoldAMegabyte }
{}

/// A connection of a client is taken while fewer than 128 lines are open. After its exchange a line stays where that said so, and else is closed.
pub fn lines_are_taken_and_stay()
    ensures { LinesAreTakenAndStay }
{}

/// A response is due so many milliseconds after its request as are configured, and a tick one period after the moment of the turn that did the one before.
pub fn times_are_kept()
    ensures { TimesAreKept }
{}

/// Among the jobs that follow the making of a root is its configuration, and among those that follow the end of an exchange is the end of each context that was made
/// for a filter of it.
pub fn contexts_begin_and_end()
    ensures { ContextsBeginAndEnd }
{}

/// Worked: what says which head of a response came, and that bytes in another order are not those that came.
pub fn worked_responses()
    ensures { LivesExamples }
{}
