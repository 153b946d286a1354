//! What holds of the lines of a worker over its turns, whatever its machines do.
#![tactic(auto)]

mod laws;

pub use laws::{
    exchanges_live, lines_without_filters_are_isolated, machines_write_logs,
    requests_go_up_one_by_one, requests_of_the_product_go_up, steps_depend_on_their_line,
    worked_free_lines, worked_lines, workers_begin_so, workers_go_up_one_by_one,
};
