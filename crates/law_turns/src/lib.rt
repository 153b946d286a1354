//! Laws of turns over any machines, and worked turns with and without filters.
#![tactic(auto)]

mod laws;

pub use laws::{
    backlog_is_bounded, events_come_first, exchanges_begin_new, interim_heads_keep_lines,
    more_steps_change_nothing_over, notes_are_fair, nothing_is_due_before,
    nothing_is_held_behind_an_end, steps_in_order, turn_is_function_over, turns_keep_backlog,
    worked_answer, worked_closing, worked_death, worked_death_lines, worked_due, worked_effects,
    worked_filtering, worked_late_response, worked_leaving, worked_order, worked_passage,
    worked_pipeline, worked_routes, worked_starts, worked_targets, worked_texts, worked_uploads,
    worked_waiting, worked_wants,
};
