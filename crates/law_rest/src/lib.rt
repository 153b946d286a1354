//! A turn comes to rest, whatever the machines do.
#![tactic(auto)]

mod laws;

pub use laws::{
    bounds_change_nothing, limits_are_small, lives_are_paid, readings_use_bytes, rest_is_rest,
    rooms_come_to_rest, steps_are_paid, steps_come_to_rest, steps_leave_less, turns_come_to_rest,
    whole_turns_come_to_rest, worked_rooms, workers_come_to_rest,
};
