//! One side of a line: from the bytes that come, in whatever pieces, to the items of its messages.
#![tactic(auto)]

mod body;
mod laws;
mod next;
mod reader;
mod unread;

pub use laws::each_next;
pub use reader::{MessageReader, Step};
