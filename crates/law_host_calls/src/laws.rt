// What each host call answers, changes and hands over, over a guest of 24 bytes and arguments that differ. The rows are worked from the rules.
ghost use Rattle.law_host_calls.specs.Giving.{GivingExamples};
ghost use Rattle.law_host_calls.specs.Buffers.{BufferReads, BufferSizes, BufferWrites};
ghost use Rattle.law_host_calls.specs.MapRows.{MapReads, MapWrites, MapChanges};
ghost use Rattle.law_host_calls.specs.Streams.{StreamExamples, ResponseExamples};
ghost use Rattle.law_host_calls.specs.Callouts.{AnswerExamples};
ghost use Rattle.law_host_calls.specs.HttpCalls.{CallsMade, CallsRefused, CallBounds};
ghost use Rattle.law_host_calls.specs.Connections.{ConnectionBuffers, ConnectionPaths, ConnectionStreams};
ghost use Rattle.law_host_calls.specs.Stores.{DataExamples, QueueExamples, ItemExamples};
ghost use Rattle.law_host_calls.specs.Metrics.{MetricNames, MetricWords};
ghost use Rattle.law_host_calls.specs.Services.{LocalExamples, ContextExamples, PropertyExamples, PathExamples};
ghost use Rattle.law_host_calls.specs.Wasi.{WasiExamples, NoArguments, RandomExamples};
ghost use Rattle.law_host_calls.specs.Bare.{NoAllocator};

/// Bytes and numbers handed over: place, size, the place 0, places outside, no allocator, a trap, fuel.
pub fn worked_giving()
    ensures { GivingExamples }
{}

/// Calls that give bytes to a guest without an allocator.
pub fn worked_no_allocator()
    ensures { NoAllocator }
{}

/// Parts of buffers.
pub fn worked_buffer_reads()
    ensures { BufferReads }
{}

/// Sizes of buffers, and whether the end came with them.
pub fn worked_buffer_sizes()
    ensures { BufferSizes }
{}

/// Bytes put in place of a part of a buffer.
pub fn worked_buffer_writes()
    ensures { BufferWrites }
{}

/// Values, pairs and sizes of maps.
pub fn worked_map_reads()
    ensures { MapReads }
{}

/// Fields added and replaced.
pub fn worked_map_writes()
    ensures { MapWrites }
{}

/// Fields removed, and all fields set.
pub fn worked_map_changes()
    ensures { MapChanges }
{}

/// Streams that continue and close.
pub fn worked_stream()
    ensures { StreamExamples }
{}

/// Local responses.
pub fn worked_response()
    ensures { ResponseExamples }
{}

/// What came back for a callout: read while it is told, and never written.
pub fn worked_answer()
    ensures { AnswerExamples }
{}

/// The call for a callout: its id, and what it asks for.
pub fn worked_http_call()
    ensures { CallsMade }
{}

/// Why there is no callout.
pub fn worked_refusals()
    ensures { CallsRefused }
{}

/// How many fields and bytes a callout may have.
pub fn worked_call_bounds()
    ensures { CallBounds }
{}

/// Buffers where lines are streams of bytes.
pub fn worked_connection_buffers()
    ensures { ConnectionBuffers }
{}

/// Streams that continue and close where lines are streams of bytes, and the local response that they have not.
pub fn worked_connection()
    ensures { ConnectionStreams }
{}

/// Properties of a request where lines are streams of bytes.
pub fn worked_connection_paths()
    ensures { ConnectionPaths }
{}

/// Shared data: what is asked of the store, and what is made of its reply.
pub fn worked_data()
    ensures { DataExamples }
{}

/// Shared queues registered and resolved.
pub fn worked_queue()
    ensures { QueueExamples }
{}

/// Items taken from shared queues and put into them.
pub fn worked_item()
    ensures { ItemExamples }
{}

/// Metrics defined.
pub fn worked_metric_names()
    ensures { MetricNames }
{}

/// Metrics incremented, recorded and read.
pub fn worked_metric_words()
    ensures { MetricWords }
{}

/// The log, its level and the clock.
pub fn worked_local()
    ensures { LocalExamples }
{}

/// Ticks, the effective context, and contexts that have ended.
pub fn worked_context()
    ensures { ContextExamples }
{}

/// Properties that are set and read.
pub fn worked_property()
    ensures { PropertyExamples }
{}

/// Properties of fixed paths.
pub fn worked_path()
    ensures { PathExamples }
{}

/// The calls of WASI on files and clocks.
pub fn worked_wasi()
    ensures { WasiExamples }
{}

/// The calls of WASI on arguments and the environment, and the exit.
pub fn worked_no_arguments()
    ensures { NoArguments }
{}

/// Random bytes: which word is drawn, where its bytes go, and which comes next.
pub fn worked_random()
    ensures { RandomExamples }
{}
