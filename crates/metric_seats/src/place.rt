// A worker's place at the metrics of a VM name.
use crate::Known;
use metric_table::MetricSeat;
use std::marker::Model;
use turn_table::Seat;

/// A worker's place at the metrics of a VM name: its seats at the names and at the words, and the ids that it knows. Clauses see the two seats.
#[derive(Drop)]
pub struct MetricPlace {
    pub(crate) names: Seat,
    pub(crate) words: MetricSeat,
    pub(crate) known: Known,
}

impl Model for MetricPlace {
    ghost use Rattle.std.specs.Prelude.{◌≡◌};
    ghost use Rattle.store_model.specs.History.{own};
    ghost use Rattle.metric_seats.specs.Knowing.{known_by};
    ghost use Rattle.metric_seats.specs.Places.{AreOne, Metered};

    ghost Value = { Metered };

    ghost view = { λ p. record { names = p.names; words = p.words } };

    ghost invariant = { λ p. (p.known.kinds ≡ known_by (own p.names.number p.names.seen)) × AreOne p.names p.words };
}
