// What holds of the operations on bodies, each as the contract of a function.
ghost use Rattle.body_buffers.specs.Examples.{BodyExamples};
ghost use Rattle.body_buffers.specs.Laws.{SplicePutsInPlace};

/// A splice puts the given bytes in place of those of its range, and every other byte stays, in order.
pub fn nothing_else_moves()
    ensures { SplicePutsInPlace }
{}

/// The operations, worked on bodies that are written out.
pub fn worked_bodies()
    ensures { BodyExamples }
{}
