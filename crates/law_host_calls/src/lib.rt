//! Host calls and WASI calls, worked one by one: nothing but laws, which have nothing to do when they run.
#![tactic(auto)]

mod laws;

pub use laws::{
    worked_answer, worked_buffer_reads, worked_buffer_sizes, worked_buffer_writes,
    worked_call_bounds, worked_connection, worked_connection_buffers, worked_connection_paths,
    worked_context, worked_data, worked_giving, worked_http_call, worked_item, worked_local,
    worked_map_changes, worked_map_reads, worked_map_writes, worked_metric_names,
    worked_metric_words, worked_no_allocator, worked_no_arguments, worked_path, worked_property,
    worked_queue, worked_random, worked_refusals, worked_response, worked_stream, worked_wasi,
};
