// What holds of an exchange whatever happens to it. The functions have nothing to do: their contracts are the laws.
ghost use Rattle.law_exchange.specs.Ends.{NothingFollowsTheEnd};
ghost use Rattle.law_exchange.specs.Framings.{RequestsKeepTheirLength, ResponsesStayInStep};
ghost use Rattle.law_exchange.specs.Laws.{OneRequestGoesUp, NothingElseGoesUp};
ghost use Rattle.law_exchange.specs.Own.{ExchangesSendOnTheirLine};
ghost use Rattle.law_exchange.specs.Responses.{OneResponseGoesDown};

/// Of an exchange without request filters, whatever happens to it, no server sees two messages: where what is read in that is a front of one
/// request, what goes up in that is a front of one connection and that request's bytes, and all that was read where the exchange was neither
/// answered nor has ended. A reader with room for its head reads those bytes back as that request. Nothing but what is read of the request goes
/// up.
pub fn one_request_goes_up()
    ensures once { OneRequestGoesUp }
    ensures alone { NothingElseGoesUp }
{}

/// A request goes up with the length that it was received with, or in chunks where a filter may change its body. A response goes down so that the
/// client's line stays in step, whatever method filters sent up and whatever status they send down.
pub fn lines_stay_in_step()
    ensures requests { RequestsKeepTheirLength }
    ensures responses { ResponsesStayInStep }
{}

/// Whatever filters an exchange has, nothing follows its end: neither for the client nor for the server. What is held for its stages among the
/// contexts may still change.
pub fn nothing_follows_the_end()
    ensures { NothingFollowsTheEnd }
{}

/// Of a new exchange without filters, no client sees two responses, whatever happens to it but that an interim head is handed on: lives with one,
/// such as `100 Continue`, are left out. What goes down is nothing, one answer, or one response that is framed as its client awaits it. The line
/// stays open only after an answer that tells so, or after a response whose head tells so and that is whole: its last item went down, or its
/// head has an end flag, which it has only where no body is awaited or one of no bytes is told. That the pieces of a body with a length have that
/// many bytes is not said here.
pub fn one_response_goes_down()
    ensures { OneResponseGoesDown }
{}

/// Whatever filters an exchange has, it sends on its own line alone and closes no connection itself.
pub fn exchanges_send_on_their_line()
    ensures { ExchangesSendOnTheirLine }
{}
