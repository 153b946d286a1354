//! The host calls on maps, buffers and streams, and the local response.
#![tactic(auto)]

mod buffers;
mod changing;
mod given;
mod laws;
mod maps;
mod reached;
mod streams;

pub use buffers::{proxy_get_buffer_bytes, proxy_get_buffer_status, proxy_set_buffer_bytes};
pub use changing::{
    proxy_add_header_map_value, proxy_remove_header_map_value, proxy_replace_header_map_value,
    proxy_set_header_map_pairs,
};
pub use laws::worked_calls;
pub use maps::{proxy_get_header_map_pairs, proxy_get_header_map_size, proxy_get_header_map_value};
pub use streams::{proxy_close_stream, proxy_continue_stream, proxy_send_local_response};
