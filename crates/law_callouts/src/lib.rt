//! Laws of callouts: worked turns, what their steps keep, that each goes out once, and that each ends once, by its fate.
#![tactic(auto)]

mod laws;

pub use laws::{
    callouts_end_once, callouts_go_out_once, callouts_have_one_fate_at_most, callouts_stay_sound,
    worked_callout_turns, workers_end_callouts_once, workers_send_callouts_once,
};
