//! The shared store: what a VM asks of it, what it answers, and the trait through which everything above makes shared calls.
#![tactic(auto)]

mod call;
mod entry;
mod law;
mod metric;
mod shared;
mod used;

pub use call::{Call, Reply};
pub use entry::Entry;
pub use law::{
    counters_are_sums, definitions_are_calls, dequeued_is_what_was_enqueued,
    each_store_has_its_history, full_comes_past_a_limit, get_gives_the_last_set, ids_are_stable,
    limits_from_both_sides, limits_hold, notice_goes_to_the_registrant, numbers_rise_by_one,
    parts_are_the_whole, programs_are_functions, refused_asks_change_nothing,
    refused_calls_change_nothing, stale_set_changes_nothing, worked_metrics, worked_rows,
};
pub use metric::{Metric, MetricAsk, MetricKind, MetricName, MetricReply, Share};
pub use shared::Shared;
pub use used::{MOST_BYTES, MOST_ITEMS, MOST_METRICS, MOST_NAMES, MOST_NOTICES, MOST_NUMBER, Used};
