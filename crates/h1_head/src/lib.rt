//! Heads of HTTP/1.1 messages: from a line's bytes to a head, and the lines of a head on its way out.
#![tactic(auto)]

mod fields;
mod head;
mod item;
mod length;
mod lengths;
mod lines;
mod listed;
mod parts;
mod read;
mod request;
mod response;
mod target;
mod write;

pub use head::{Head, HeadStep, Kind, Length, TargetForm};
pub use item::Item;
pub use lines::{head_cut, skip_empty_lines};
pub use listed::without_listed;
pub use read::read_head;
pub use write::{is_left_out, pseudo_of, push_field, push_fields, push_request_line};
