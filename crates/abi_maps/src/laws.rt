// What the calls answer, worked on values that are written out.
ghost use Rattle.abi_maps.specs.Examples.{BufferExamples, MapExamples, StreamExamples};

/// Buffers, maps and streams, worked on values that are written out.
pub fn worked_calls()
    ensures buffers { BufferExamples }
    ensures maps { MapExamples }
    ensures streams { StreamExamples }
{}
