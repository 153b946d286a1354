//! What the definitions say, as functions without a body.

ghost use Rattle.commands.specs.Examples.{PathExamples, RefusalExamples};

/// Which files commands read, in their order.
pub fn worked_paths()
    ensures { PathExamples }
{}

/// What is not read after a refusal, and that a file which is not there is neither played, nor called, nor loaded.
pub fn worked_refusals()
    ensures { RefusalExamples }
{}
