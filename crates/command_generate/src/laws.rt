//! What the definitions say, as functions without a body.

ghost use Rattle.command_generate.specs.Examples.{LineExamples};

/// Lines of the summary, worked out by hand.
pub fn worked_lines()
    ensures { LineExamples }
{}
