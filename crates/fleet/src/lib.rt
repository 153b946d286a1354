//! The workers of a configuration, each in a thread of its own, and the lives of each.
#![tactic(auto)]

mod laws;
mod lives;
mod moves;
mod post;
mod run;
mod watched;

pub use laws::{
    all_lives_are_meant, each_vm_has_one_history, lives_are_meant, one_worker_is_alone,
    one_worker_is_of_one_thread, runs_alone_are_of_one_thread, seats_go_on_by_lives, worked_alone,
    worked_closes, worked_ends,
};
pub use lives::live;
pub use moves::{hand_back, post_all};
pub use post::{Post, work, work_all, work_posts};
pub use run::{FleetEnd, run_fleet};
pub use watched::{Connection, Watched};
