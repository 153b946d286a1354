//! One exchange: a request of a client and its response, which pass the chains of the filters of a route.
#![tactic(auto)]

mod answering;
mod heads;
mod laws;
mod leaving;
mod maps;
mod passing;
mod types;
mod writing;

pub use answering::{answer, drop_stages};
pub use heads::{is_bare, is_due, is_final, path_route, request_of, response_of};
pub use laws::{
    no_body_goes_down, no_listed_trailer_goes_out, nothing_follows_an_answer, worked_exchanges,
};
pub use leaving::send;
pub use maps::{
    fields_map, mark, pair_count, put_request, put_request_trailers, put_response,
    put_response_trailers,
};
pub use passing::{act, close, die, expire, pass_on, put_in, refuse, resume};
pub use types::{Exchange, Filter, Hub, Request, Response};
pub use writing::interim_bytes;
