//! What the text of a configuration means, said again without the definition by which it is read.
#![tactic(auto)]

mod laws;

pub use laws::{
    documents_say_one_configuration, first_refusals, texts_say_their_configuration, worked_bounds,
    worked_order, worked_text,
};
