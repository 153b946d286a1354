//! Messages on their way out: how they are framed, and from an item to its bytes.
#![tactic(auto)]

mod body;
mod framing;
mod head;
mod laws;
mod start;
mod write;

pub use body::push_trailers;
pub use framing::{Framing, framing_of};
pub use laws::{
    body_read_back, lines_read_back, message_read_back, pieces_read_back, requests_read_back,
    responses_read_back, round_examples, trailers_read_back, written_lines_read_back,
};
pub use start::{push_framing, push_start};
pub use write::write_item;
