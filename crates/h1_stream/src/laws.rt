// At each place of each text something is unread next, as a function without a body.
ghost use Rattle.h1_stream.specs.Laws.{SomeNext, NextWhereJudged, JudgedUnlessWhole};

/// From each place of each text on, whatever is due there, something is unread next: it cannot be that no answer is right. Which one is
/// right is given by proof wherever it is known what a whole head, or a whole trailer section, gives; and that is known where none has come.
pub fn each_next()
    ensures some { SomeNext }
    ensures judged { NextWhereJudged }
    ensures unless_whole { JudgedUnlessWhole }
{}
