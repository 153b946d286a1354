//! Laws of exchanges over their whole lives.
#![tactic(auto)]

mod laws;

pub use laws::{
    exchanges_send_on_their_line, lines_stay_in_step, nothing_follows_the_end, one_request_goes_up,
    one_response_goes_down,
};
