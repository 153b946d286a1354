// Worked examples of the definitions, and laws above them. Nothing here does anything when it runs.
ghost use Rattle.std.specs.Prelude.{ℕ, ◌≤◌};
ghost use Rattle.metric_table.specs.Laws.{IsOnlyPlace, worked_looks, worked_places};
ghost use Rattle.store_model.specs.declared.metric.MetricKind.{MetricKind};

/// Worked examples of where words stand, and of what was seen of them.
pub fn worked_words()
    ensures places { worked_places }
    ensures looks { worked_looks }
{}

/// Each of the 8 workers has a word of its own for each kind and each of the 64 ids.
pub fn each_word_is_apart()
    ensures { (who other : ℕ) (kind another : MetricKind) (id further : ℕ) → (1 ≤ who) × (who ≤ 8) → (1 ≤ other) × (other ≤ 8) → (1 ≤ id) × (id ≤ 64) → (1 ≤ further) × (further ≤ 64)
        → IsOnlyPlace who other kind another id further }
{}
