//! What goes on through an exchange goes on as it came, and in order. No code stands here.
#![tactic(auto)]

mod laws;

pub use laws::{
    bodies_go_on_as_they_came, contexts_begin_and_end, contexts_have_their_last_words,
    filters_stand_in_order, interim_heads_go_down, lines_are_taken_and_stay,
    responses_go_down_as_they_came, stages_hold_a_megabyte, stale_sets_are_refused, times_are_kept,
    what_is_paused_is_held, what_is_read_comes_on, worked_responses,
};
