//! What a worker sends: how it is handed to its world, and what waits.
#![tactic(auto)]

mod held;
mod joining;
mod laws;
mod member;
mod offer;
mod outbox;
mod place;
mod sorted;

pub use held::Unsent;
pub use joining::joined;
pub use laws::{
    clearing_drops_one_place, deliveries_add_up, empty_pieces_are_nothing, joining_keeps_marks,
    ranks_keep_places_apart, worked_deliveries,
};
pub use outbox::Outbox;
pub use place::{Destination, ended_by, place_of};
