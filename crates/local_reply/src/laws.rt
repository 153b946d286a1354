// What the definitions say, as functions without a body.
ghost use Rattle.local_reply.specs.Examples.{MomentExamples, ReplyExamples};
ghost use Rattle.local_reply.specs.FramingExamples.{FramingExamples, OutExamples};
ghost use Rattle.local_reply.specs.Laws.{MomentsHaveTexts, ReplyIsWire, HeadIsWire};

/// Every moment, to the last of 64 bits, has a date: a day of the calendar with a time of day, of the second in which it falls.
pub fn moments_have_texts()
    ensures { MomentsHaveTexts }
{}

/// A reply has the bytes of a message that is framed as every other is: of its head, and its body as one piece.
pub fn reply_is_wire()
    ensures { ReplyIsWire }
{}

/// A request head without a framing field, with `via` and `connection: close` for its tail, has the bytes of a request that is
/// sent up without a body.
pub fn head_is_wire()
    ensures { HeadIsWire }
{}

/// The definitions, worked on replies that are written out.
pub fn worked_examples()
    ensures moments { MomentExamples }
    ensures replies { ReplyExamples }
{}

/// The choice of a framing, and the bytes of messages on their way out, worked on messages that are written out.
pub fn framing_examples()
    ensures framings { FramingExamples }
    ensures wires { OutExamples }
{}
