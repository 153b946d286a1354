//! The words of the metrics of one VM name: one word for each worker, kind and id, which its worker alone changes and every worker reads.
#![tactic(auto)]

mod law;
mod plays;
mod rule;
mod seat;
mod totals;
mod view;
mod words;

pub use law::{each_word_is_apart, worked_words};
pub use seat::MetricSeat;
pub use totals::MetricTotals;
pub use view::{Ended, Look, View};
pub use words::MetricWords;
