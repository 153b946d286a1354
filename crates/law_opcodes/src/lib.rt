//! Laws of the bytes of opcodes.
#![tactic(auto)]

mod laws;

pub use laws::{
    conversions_by_their_bytes, divisions_without_quotient, floats_by_their_bytes,
    i32_comparisons_by_their_bytes, i32_operations_by_their_bytes, i64_comparisons_by_their_bytes,
    i64_operations_by_their_bytes, loads_by_their_bytes, shifts_by_the_width,
    stores_by_their_bytes,
};
