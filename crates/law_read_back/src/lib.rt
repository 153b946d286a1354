//! What goes up on a connection to the server is read as one request at most by a reader like the gateway's own, where the fields of its head are a list of a
//! request and its body is such as its framing carries.
#![tactic(auto)]

mod laws;

pub use laws::{
    filters_keep_lists, fronts_are_read_as_one, heads_end_where_written, machines_keep_lists,
    maps_of_the_product_stay_lists, maps_of_workers_stay_lists, maps_stay_lists,
    requests_are_read_as_one, requests_of_the_product_are_read_as_one,
    requests_of_workers_are_read_as_one, worked_maps, worked_readings, worked_turns,
};
