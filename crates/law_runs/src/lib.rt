//! Laws of what is run: a callback that a worker asks of a live machine is its run.
#![tactic(auto)]

mod laws;

pub use laws::{
    begins_at_home, gone_end_next, live_vms_keep_machines, marks_fall, runs_all_it_asks,
    runs_have_their_fuel, runs_over_lives, runs_what_is_asked, stays_at_home,
    vms_are_made_with_machines, worked_runs,
};
