//! Laws of what flows through one direction of an exchange.
#![tactic(auto)]

mod laws;

pub use laws::{
    deaths_cut_or_pass, effects_move_what_comes_after, exchanges_pass_bodies, exchanges_pass_by,
    the_dead_are_asked_nothing, worked_exchange,
};
