//! What is read of the lines of a worker over its turns: the joined bytes of their events, however they were cut.
#![tactic(auto)]

mod laws;

pub use laws::{
    cuts_do_not_matter, fronts_at_any_moment, lines_keep_limits, lines_read_what_came,
    numbers_read_once, servers_read_since, servers_read_what_came, unread_stays_short,
    worked_readings, workers_leave_little_unread, workers_read_what_came,
};
