// What each stage of a chain is asked. The functions have nothing to do: their contracts are the laws.
ghost use Rattle.law_asked.specs.Begins.{ExchangesBeginInOrder};
ghost use Rattle.law_asked.specs.Directions.{DirectionsAsk, RequestsGoUp, TurnsAsk};
ghost use Rattle.law_asked.specs.Examples.{AskedExamples};
ghost use Rattle.law_asked.specs.FilterExamples.{FilterExamples};
ghost use Rattle.law_asked.specs.Filters.{ExchangesHaveTheirFilters, ExchangesHaveTheirStages};
ghost use Rattle.law_asked.specs.Laws.{EachIsAsked, HeadsAreAsked};
ghost use Rattle.law_asked.specs.LineExamples.{LineExample};

/// Whatever is done to a chain through which nothing passed yet, each stage that is not let through is asked: of what came, in order; what it lets go on, by a
/// Continue of its own or where it is resumed, is of what it was asked, and what left the chain is of that; and so is what any later stage was asked.
pub fn each_stage_is_asked()
    ensures items { EachIsAsked }
    ensures heads { HeadsAreAsked }
{}

/// An exchange has the filters of its route, all of them and in the order of the configuration, but for those whose VM is dead: where one of these fails closed it is
/// refused with 503. Its stages are those of its filters, for the response in reverse, but where the VM is dead or no context was made; nothing passed them yet.
/// After the head of its request a context is made for each of them, in order, and then the stages; where it is refused, none of it.
pub fn routes_have_their_stages()
    ensures filters { ExchangesHaveTheirFilters }
    ensures stages { ExchangesHaveTheirStages }
    ensures begins { ExchangesBeginInOrder }
{}

/// Of one direction of an exchange whose stages were made, while it runs and is not answered and nothing is too much, whatever callbacks leave and return: what
/// leaves its chain was asked of each stage that is not let through. What leaves the chain of the request goes up, each item by the deed by which it leaves.
pub fn directions_ask()
    ensures asked { DirectionsAsk }
    ensures up { RequestsGoUp }
{}

/// Over the turns of a worker, by the deeds of its steps that the law on bodies finds, of which each callback is one that a step called: what leaves the chain of the
/// direction was asked of each stage.
pub fn turns_ask<H>()
    ensures { TurnsAsk H }
{}

/// The head of a request and four filters, worked: each lets it go on; the second holds it and is resumed later; the VM of the third dies.
pub fn worked_filters()
    ensures { AskedExamples }
{}

/// A route with four filters, worked: which filters an exchange has, and which stages.
pub fn worked_routes()
    ensures { FilterExamples }
{}

/// An exchange with four filters, worked, of which the second holds the head of the request and is resumed later: it goes up after the fourth.
pub fn worked_exchange()
    ensures { LineExample }
{}
