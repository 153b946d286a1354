// Worked turns of lines that are streams of bytes. The function has nothing to do: its contract is the example.
ghost use Rattle.law_streams.specs.Streams.{StreamExamples, StreamWants};

/// Streams of bytes that pass filters, how they end, and what a worker of them wants.
pub fn worked_streams()
    ensures turns { StreamExamples }
    ensures wants { StreamWants }
{}
