// Worked examples of the definitions, and laws above them. Nothing here does anything when it runs.
ghost use Rattle.std.specs.Prelude.{◌≡◌, ◌<◌, ◌+◌, ℕ, List, length, slice_index};
ghost use Rattle.metric_seats.specs.Measuring.{asks_on};
ghost use Rattle.metric_seats.specs.Totals.{total_in};
ghost use Rattle.metric_seats.specs.declared.table.MetricsClosed.{MetricsClosed};
ghost use Rattle.metric_table.specs.Places.{place_of};
ghost use Rattle.shared_seats.specs.Asked.{AllMade, AreMerged, asks_from, definitions_by};
ghost use Rattle.shared_seats.specs.Rows.{names_of_two, second_id, totals_of_two, word_of_nobody, word_told_twice};
ghost use Rattle.shared_seats.specs.Seats.{SeatsOf, TablesOf};
ghost use Rattle.shared_seats.specs.Workers.{AreAll, HasMetrics, HasOneHistory, ListsGoOn};
ghost use Rattle.shared_store.specs.declared.closed.ClosedStore.{ClosedStore};
ghost use Rattle.store_model.specs.History.{own};
ghost use Rattle.store_model.specs.Made.{Made, entries_on};
ghost use Rattle.store_model.specs.MetricLaws.{AskEntry, totals_of, word_of};
ghost use Rattle.store_model.specs.declared.metric.MetricName.{MetricName};
ghost use lib.ListN.{get_elem?};
ghost use mathlib.Core.Option.{some};

/// Worked examples of what two workers' asks come to, and of what they do not.
pub fn worked_metrics()
    ensures totals_of_two { totals_of_two }
    ensures names_of_two { names_of_two }
    ensures second_id { second_id }
    ensures word_of_nobody { word_of_nobody }
    ensures word_told_twice { word_told_twice }
{}

/// All seats are still there after calls and asks of each worker.
pub fn no_seat_gets_lost()
    ensures { (tables : TablesOf) (old new : List SeatsOf) → AreAll tables old → ListsGoOn old new → AreAll tables new }
{}

/// What each worker made from new seats stands once, and in order, in what is left where the tables are shut: its calls on a store in the
/// one history of that store, and its definitions in the one history of that VM name's metrics.
pub fn each_call_and_definition_stands_once()
    ensures calls { (tables : TablesOf) (workers vm w : ℕ) (made : ℕ → List Made) (old new : List SeatsOf) (c : ClosedStore) → AllMade tables workers made old new → vm < length tables.stores → w < workers → (h : HasOneHistory vm new c) →
        own (w + 1) h.history ≡ entries_on (w + 1) vm (made (w + 1)) }
    ensures definitions { (tables : TablesOf) (workers vm w : ℕ) (made : ℕ → List Made) (old new : List SeatsOf) (c : MetricsClosed) → AllMade tables workers made old new → vm < length tables.metrics → w < workers → (h : HasMetrics vm new c) →
        own (w + 1) h.history ≡ definitions_by (w + 1) (asks_on vm (made (w + 1))) }
{}

/// Where the tables are shut, each worker's word of a metric is what its Adds and Puts of it that were done came to, in order, and the
/// total is that of the asks of all workers.
pub fn words_are_what_workers_asked()
    ensures words { (tables : TablesOf) (workers vm w k : ℕ) (made : ℕ → List Made) (old new : List SeatsOf) (c : MetricsClosed) (n : MetricName) → AllMade tables workers made old new → vm < length tables.metrics → w < workers → HasMetrics vm new c → get_elem? c.names.names k ≡ some n →
        slice_index c.totals (place_of (w + 1) n.kind (k + 1)) ≡ word_of n.kind (k + 1) (asks_from (w + 1) vm (made (w + 1))) }
    ensures totals { (tables : TablesOf) (workers vm k : ℕ) (made : ℕ → List Made) (old new : List SeatsOf) (c : MetricsClosed) (n : MetricName) (asks : List AskEntry) → AllMade tables workers made old new → vm < length tables.metrics → HasMetrics vm new c → get_elem? c.names.names k ≡ some n → AreMerged workers vm made asks →
        total_in c.totals n.kind (k + 1) ≡ totals_of n.kind (k + 1) asks }
{}
