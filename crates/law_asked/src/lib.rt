//! Laws of what each filter of a message is asked.
#![tactic(auto)]

mod laws;

pub use laws::{
    directions_ask, each_stage_is_asked, routes_have_their_stages, turns_ask, worked_exchange,
    worked_filters, worked_routes,
};
