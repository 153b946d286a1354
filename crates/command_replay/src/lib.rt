//! A script, played over the workers of a configuration: each of its events is a turn of its worker, and what the turns send is printed.
#![tactic(auto)]

mod crew;
mod laws;
mod playing;

pub use laws::{
    each_has_its_worker, each_worker_means, fronts_of_one, one_replay, scripts_of_one_are_runs,
    stop_stands_for_all, worked_deliveries,
};
pub use playing::{PlayEnd, play};
