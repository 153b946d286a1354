// What passes one chain of filters. The functions have nothing to do: their contracts are the laws.
ghost use Rattle.law_chain.specs.Examples.{PassThroughExamples};
ghost use Rattle.law_chain.specs.Laws.{BodiesPassThrough};

/// Where the callbacks for bodies and trailers of one direction all answer Continue: the bytes that left its chain, and then those that are held, wait or are
/// to go on after its last such stage, are what the body callbacks of that stage left, joined, and where no buffer is changed what came. What left and what is
/// in the chain is the head, the pieces and the end or the trailers that came, in order, but that pieces are joined and empty ones dropped. Once the end has
/// left, all has.
pub fn bodies_pass_through()
    ensures { BodiesPassThrough }
{}

/// Two filters, worked: three pieces of which the second filter changes one, and a head that the first filter holds.
pub fn worked_chains()
    ensures { PassThroughExamples }
{}
