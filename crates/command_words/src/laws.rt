// What the definition of the forms says, as a function without a body.
ghost use Rattle.command_words.specs.Examples.{WordExamples};

/// Lists of words and what they ask for, worked out by hand.
pub fn worked_words()
    ensures { WordExamples }
{}
