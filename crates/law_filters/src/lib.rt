//! Every filter of a request is asked before anything goes up. No code stands here.
#![tactic(auto)]

mod laws;

pub use laws::{
    closed_lets_nothing_pass, dead_filters_end_exchanges, every_filter_is_asked,
    filters_get_contexts_for_life, heads_wait, roots_stand_for_life, stages_are_asked_first,
    worked_endings, worked_filters, worked_heads,
};
