//! Laws of all VMs of a worker, and of what a callback of one leaves of the others.
#![tactic(auto)]

mod laws;

pub use laws::{
    callbacks_are_apart, callbacks_ask_their_own, callbacks_change_their_own,
    callbacks_see_their_own, calls_have_room, effects_are_own, frames_count_together, ids_run_out,
    lives_keep_places, made_vms_are_in_place, nothing_runs, vms_keep_their_bounds, worked_fits,
    worked_isolation, worked_levels, worked_numbers,
};
