//! What goes down on the lines of a worker over its turns, whatever its machines do.
#![tactic(auto)]

mod laws;

pub use laws::{
    callouts_go_up_alone, connections_end, connections_go_in_order,
    connections_of_the_product_go_in_order, how_connections_end, responses_go_down_one_by_one,
    responses_of_the_product_go_down, what_is_in_order, what_is_refused, workers_answer_one_by_one,
    workers_go_in_order,
};
