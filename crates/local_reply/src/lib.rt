//! Responses that a gateway answers by itself: from a status, fields and a body to the bytes that go down.
#![tactic(auto)]

mod date;
mod fields;
mod laws;
mod reply;

pub use date::moment_text;
pub use fields::has_date;
pub use laws::{
    framing_examples, head_is_wire, moments_have_texts, reply_is_wire, worked_examples,
};
pub use reply::local;
