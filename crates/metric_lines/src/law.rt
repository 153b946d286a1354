// Worked examples of the definitions, and laws above them. Nothing here does anything when it runs.
ghost use Rattle.std.specs.Prelude.{List, IsPermutation};
ghost use Rattle.std.specs.List.Sorted.{IsSortedBy};
ghost use Rattle.metric_lines.specs.Rows.{bounds_told, counter_and_gauge_told, no_metrics_told, told_in_order};
ghost use Rattle.metric_lines.specs.Totals.{comes_before, in_order};
ghost use Rattle.metric_lines.specs.declared.totals.MetricTotal.{MetricTotal};

/// Worked examples of the lines and of their order.
pub fn worked_lines()
    ensures counter_and_gauge_told { counter_and_gauge_told }
    ensures told_in_order { told_in_order }
    ensures no_metrics_told { no_metrics_told }
    ensures bounds_told { bounds_told }
{}

/// All metrics are told, each once, and none before one that it comes after.
pub fn metrics_are_told_in_order()
    ensures all { (ms : List MetricTotal) → IsPermutation ms (in_order ms) }
    ensures order { (ms : List MetricTotal) → IsSortedBy comes_before (in_order ms) }
{}
