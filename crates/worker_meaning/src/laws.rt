// What holds of every meaning. The functions have nothing to do: their contracts are the laws.
ghost use Rattle.worker_meaning.specs.Laws.{MeaningExamples, MeaningGoesOn, MeaningIsAFunction};

/// What a run comes to is a function of its worker, of its events and of what the shared stores reply.
pub fn meaning_is_a_function<H>()
    ensures { MeaningIsAFunction H }
{}

/// With one more event it is the same run, and then the turn at that event.
pub fn meaning_goes_on<H>()
    ensures { MeaningGoesOn H }
{}

/// The meaning of no event, and of Stop.
pub fn worked_meanings<H>()
    ensures { MeaningExamples H }
{}
