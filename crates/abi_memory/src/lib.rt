//! Bytes and numbers out of a guest's memory and into it.
#![tactic(auto)]

mod give;

pub use give::{GiveEnd, Place, give_bytes, give_number, is_within, place_for, put_at, take_bytes};
