//! Laws of what flows through one direction of an exchange.
#![tactic(auto)]

mod laws;

pub use laws::{
    callbacks_of_others, contexts_are_of_their_vms, contexts_of_others, deaths_on_lines,
    directions_are_left, events_leave_directions, jobs_leave_directions, moves_are_steps,
    others_move, reading_leaves_directions, steps_beside, the_dead_are_called_no_more,
    turns_pass_bodies, why_vms_die, worked_bodies, worked_turns, workers_pass_bodies,
};
