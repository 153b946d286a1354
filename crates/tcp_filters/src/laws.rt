// What holds of every line of bytes. The functions have nothing to do: their contracts are the laws.
ghost use Rattle.tcp_filters.specs.Examples.{LineExamples, LimitExamples};
ghost use Rattle.tcp_filters.specs.Passing.{StreamsPass};
ghost use Rattle.tcp_filters.specs.Laws.{OverChangesNothing, WhatLeavesIsSent};

/// What leaves the stages is sent: its bytes in order, to their side alone. A connection is opened where New leaves, and no end closes one.
pub fn what_leaves_is_sent()
    ensures { WhatLeavesIsSent }
{}

/// What is too much for a stage leaves the line and the contexts as they were, but that an answered callback has returned.
pub fn over_changes_nothing()
    ensures { OverChangesNothing }
{}

/// The bytes that are sent of a direction, and those that are with its stages, are those that were with them and that came, in order, whatever else
/// happens: where no callback changes a buffer of it, and no stage is let through.
pub fn streams_pass()
    ensures { StreamsPass }
{}

/// Lines of two filters, worked: New paused and continued, bytes that wait behind it, ends, both directions, and the most that a stage may hold.
pub fn worked_lines()
    ensures lines { LineExamples }
    ensures limits { LimitExamples }
{}
