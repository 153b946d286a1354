// The words that were left where a table of metrics was closed.
ghost use Rattle.std.specs.Prelude.{◌≡◌, ◌≤◌, slice_index};
ghost use Rattle.metric_table.specs.Places.{place_of};

use crate::words::place;
use gate_base::WorkerNo;
use std::marker::Model;
use store_model::MetricKind;

/// The words of all workers at the end. Clauses see the list of them.
#[derive(Drop)]
pub struct MetricTotals {
    pub(crate) words: Vec<u64>,
}

impl Model for MetricTotals {
    ghost use Rattle.std.specs.Prelude.{ℕ, List, ◌≡◌, length};

    ghost Value = { List ℕ };

    ghost view = { λ t. t.words.items };

    ghost invariant = { λ t. length t.words.items ≡ 1024 };
}

impl MetricTotals {
    /// The word of a worker, a kind and an id.
    pub fn word(&self, who: WorkerNo, kind: MetricKind, id: u32) -> u64
        requires { (1 ≤ id) × (id ≤ 64) }
        ensures { result ≡ slice_index self.now (place_of who kind id) }
    {
        self.words[place(who, kind, id)]
    }
}
