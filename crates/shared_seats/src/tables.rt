// The tables of all stores and metrics.
use crate::metrics::MetricTables;
use std::marker::Model;

/// The tables of the stores and those of the metrics, in the order of the VM names. Clauses see which tables they are.
#[derive(Drop)]
pub struct Tables {
    pub(crate) stores: shared_store::Tables,
    pub(crate) metrics: MetricTables,
}

impl Model for Tables {
    ghost use Rattle.std.specs.Prelude.{◌≡◌, length};
    ghost use Rattle.shared_seats.specs.Seats.{TablesOf};

    ghost Value = { TablesOf };

    ghost view = { λ t. record { stores = t.stores; metrics = t.metrics } };

    ghost invariant = { λ t. length t.metrics ≡ length t.stores };
}
