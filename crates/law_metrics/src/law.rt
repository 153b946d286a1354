// Laws over histories of asks. Nothing here does anything when it runs.
ghost use Rattle.std.specs.Prelude.{◌≡◌, ℕ, ◌+◌, ◌<◌, ◌≤◌, List, [], length, All};
ghost use Rattle.law_metrics.specs.Histories.{AreAnswered, metrics_after, word_at};
ghost use Rattle.store_model.specs.MetricLaws.{AskEntry, asks_by, totals_of, word_of};
ghost use Rattle.store_model.specs.Metrics.{metric_in, total};

/// After any asks, a worker's word of each metric is what its own Adds and Puts of it that were done came to, in order, and what a Sum answers is their total over all workers.
pub fn words_are_what_was_asked()
    ensures words { (asks : List AskEntry) (k who : ℕ) → 1 ≤ who → All (λ (a : AskEntry). 1 ≤ a.who) asks → AreAnswered [] asks → k < length (metrics_after [] asks) →
        word_at (metrics_after [] asks) k who ≡ word_of (metric_in (metrics_after [] asks) k).kind (k + 1) (asks_by who asks) }
    ensures totals { (asks : List AskEntry) (k : ℕ) → All (λ (a : AskEntry). 1 ≤ a.who) asks → AreAnswered [] asks → k < length (metrics_after [] asks) →
        total (metric_in (metrics_after [] asks) k) ≡ totals_of (metric_in (metrics_after [] asks) k).kind (k + 1) asks }
{}
