// Worked examples of the definitions, and laws above them. Nothing here does anything when it runs.
ghost use Rattle.std.specs.Prelude.{◌≡◌, ◌⊎◌, ◌↔◌, ℕ, ◌<◌, ◌≤◌, List, ◌++◌, length, true, false, All, None, Some};
ghost use Rattle.store_model.specs.Bounds.{items_of_a_queue, notices_of_a_queue, numbers_of_a_store, names_of_a_store, bytes_of_a_store};
ghost use Rattle.store_model.specs.Followed.{followed, replies_in, sums_in, calls_in, asks_in, end_of};
ghost use Rattle.store_model.specs.History.{IsLegal, IsLegalFrom, store_acts, store_after, value_from};
ghost use Rattle.store_model.specs.KeyLaws.{last_set, drawn, rising};
ghost use Rattle.store_model.specs.Keys.{accepts, held_at, put, used_by_keys};
ghost use Rattle.store_model.specs.Made.{Made, entries_on};
ghost use Rattle.store_model.specs.Parts.{IsKeyCall, IsQueueCall, keys_after, keys_reply, queues_after, queues_reply};
ghost use Rattle.store_model.specs.Program.{Program, Reaches, Runs, done};
ghost use Rattle.store_model.specs.QueueLaws.{enqueued, dequeued, items_of, TakesOldest};
ghost use Rattle.store_model.specs.Queues.{index_of, is_for, named, queue_in, queue_with, used_by_queues, with_item, with_new};
ghost use Rattle.store_model.specs.Rows.{compare_and_set, set_of_no_key, empty_value, two_keys, first_in_first_out, registrant_now};
ghost use Rattle.store_model.specs.Sequential.{Stores, Performs, played, store_at};
ghost use Rattle.store_model.specs.Store.{Store, Answer, applied};
ghost use Rattle.store_model.specs.StoreLaws.{IsInLimits, IsRefusal, MayBeFull, PassesLimit, name_of};
ghost use Rattle.store_model.specs.MetricLaws.{AskEntry, IsRefusedAsk, as_metric_reply, names_of, rise_in_all, word_of};
ghost use Rattle.store_model.specs.MetricNames.{define_after, define_reply, defining, definition_in};
ghost use Rattle.store_model.specs.MetricRows.{counter_and_gauge, counters_end, gauges_wrap, sixty_four_metrics, unknown_ids};
ghost use Rattle.store_model.specs.Metrics.{applied_ask};
ghost use Rattle.store_model.specs.declared.metric.Metric.{Metric};
ghost use Rattle.store_model.specs.declared.metric.MetricAsk.{MetricAsk};
ghost use Rattle.store_model.specs.declared.metric.MetricKind.{MetricKind};
ghost use Rattle.store_model.specs.declared.metric.MetricKind.TheVariants.{Counter};
ghost use Rattle.store_model.specs.declared.call.Call.{Call};
ghost use Rattle.store_model.specs.declared.entry.Entry.{Entry};

use crate::{Call, MOST_ITEMS, MOST_NUMBER, Reply};

/// Worked examples: the answers to some calls on an empty store.
pub fn worked_rows()
    ensures compare_and_set { compare_and_set }
    ensures set_of_no_key { set_of_no_key }
    ensures empty_value { empty_value }
    ensures two_keys { two_keys }
    ensures first_in_first_out { first_in_first_out }
    ensures registrant_now { registrant_now }
{}

/// Worked examples: each limit of a store from both sides.
pub fn limits_from_both_sides()
    ensures items { items_of_a_queue }
    ensures notices { notices_of_a_queue }
    ensures numbers { numbers_of_a_store }
    ensures names { names_of_a_store }
    ensures bytes { bytes_of_a_store }
{}

/// A Set under a stale number changes nothing, the number that the next Set draws included.
pub fn stale_set_changes_nothing()
    ensures { (s : Store) (who : ℕ) (key value : List ℕ) (number : ℕ) → accepts s.keys key number ≡ false →
        applied s who (Call.Set key value number) ≡ record { store = s; reply = Reply.CasMismatch } }
{}

/// A key has what the last Set of it that was done gave it, under the number that this Set drew.
pub fn get_gives_the_last_set()
    ensures { (vm : ℕ) (h : List Entry) (key : List ℕ) → IsLegal vm h → held_at (store_after vm h).keys key ≡ last_set key None h }
{}

/// The Sets of a store draw the numbers from 1 on, each once and in order.
pub fn numbers_rise_by_one()
    ensures { (vm : ℕ) (h : List Entry) → IsLegal vm h → drawn h ≡ rising 1 (length (drawn h)) }
{}

/// What was put into a queue is what was handed out, each item once and in order, and then what is still there.
pub fn dequeued_is_what_was_enqueued()
    ensures { (vm : ℕ) (h : List Entry) (id : ℕ) → IsLegal vm h → enqueued id h ≡ dequeued id h ++ items_of (store_after vm h).queues id }
{}

/// A notice goes to the worker that is the registrant at that moment, and is the oldest one for it; where there is none, none is owed to it.
pub fn notice_goes_to_the_registrant()
    ensures oldest { (s : Store) (who root id : ℕ) → (applied s who Call.Notice).reply ≡ Reply.Owed root id →
        TakesOldest s.queues who id (applied s who Call.Notice).store.queues.owed × (root ≡ (queue_with s.queues id).root) }
    ensures none { (s : Store) (who : ℕ) → (applied s who Call.Notice).reply ≡ Reply.NoneOwed →
        All (λ x. is_for s.queues who x ≡ false) s.queues.owed × ((applied s who Call.Notice).store ≡ s) }
{}

/// A program that comes to some end by its calls is a function of their replies, and over stores of one thread a function of the stores.
pub fn programs_are_functions()
    ensures replies { (p q : Program Answer) (calls : List Made) → Reaches p calls q → followed p (replies_in calls) (sums_in calls) ≡ record { calls = calls_in calls; asks = asks_in calls; end = end_of q } }
    ensures stores { (p : Program Answer) (s t : Stores) (a : Answer) → Runs Performs s p (done a) t → played p s ≡ record { stores = t; end = a } }
{}

/// A call is met by its part of the store alone, from what the other part uses.
pub fn parts_are_the_whole()
    ensures keys { (s : Store) (who : ℕ) (call : Call) → IsKeyCall call →
        applied s who call ≡ record { store = record s { keys = keys_after (used_by_queues s.queues) s.keys call }; reply = keys_reply (used_by_queues s.queues) s.keys call } }
    ensures queues { (s : Store) (who : ℕ) (call : Call) → IsQueueCall call →
        applied s who call ≡ record { store = record s { queues = queues_after (used_by_keys s.keys) s.queues who call }; reply = queues_reply (used_by_keys s.keys) s.queues who call } }
{}

/// Calls that the stores of one thread perform are, for each store, a legal history that leaves it as it is.
pub fn each_store_has_its_history()
    ensures { (calls : List Made) (s t : Stores) (v : ℕ) → v < length s.stores → Performs s calls t →
        IsLegalFrom store_acts (store_at s v) (entries_on s.who v calls) × (store_at t v ≡ value_from store_acts (store_at s v) (entries_on s.who v calls)) }
{}

/// Whatever is called on a store, its keys and queues, its bytes, the numbers of its keys, the items of each queue and the notices owed for each are within their limits.
pub fn limits_hold()
    ensures { (vm : ℕ) (h : List Entry) → IsInLimits (store_after vm h) }
{}

/// Full comes exactly where a Set whose number was accepted, a Register of a new name or an Enqueue would pass a limit.
pub fn full_comes_past_a_limit()
    ensures set { (s : Store) (who number : ℕ) (key value : List ℕ) → accepts s.keys key number ≡ true →
        ((applied s who (Call.Set key value number)).reply ≡ Reply.Full) ↔ ((MOST_NUMBER < s.keys.next) ⊎ PassesLimit (used_by_keys (put s.keys key value)) (used_by_queues s.queues)) }
    ensures register { (s : Store) (who root : ℕ) (name : List ℕ) → named s.queues name ≡ None →
        ((applied s who (Call.Register name root)).reply ≡ Reply.Full) ↔ PassesLimit (used_by_queues (with_new s.queues who root name)) (used_by_keys s.keys) }
    ensures enqueue { (s : Store) (who queue k : ℕ) (item : List ℕ) → index_of s.queues queue ≡ Some k →
        ((applied s who (Call.Enqueue queue item)).reply ≡ Reply.Full) ↔ ((MOST_ITEMS ≤ length (queue_in s.queues k).items) ⊎ PassesLimit (used_by_queues (with_item s.queues k item)) (used_by_keys s.keys)) }
    ensures only { (s : Store) (who : ℕ) (call : Call) → (applied s who call).reply ≡ Reply.Full → MayBeFull s call }
{}

/// A call that is answered Absent, CasMismatch, Full, Empty or NoneOwed changes nothing.
pub fn refused_calls_change_nothing()
    ensures { (s : Store) (who : ℕ) (call : Call) → IsRefusal (applied s who call).reply → (applied s who call).store ≡ s }
{}

/// The id that a Register gave is the one that a Resolve of the name gives, after any further calls, and the queue of an id keeps its name.
pub fn ids_are_stable()
    ensures given { (s : Store) (who later root id : ℕ) (name : List ℕ) → (applied s who (Call.Register name root)).reply ≡ Reply.Id id →
        (applied (applied s who (Call.Register name root)).store later (Call.Resolve name)).reply ≡ Reply.Id id }
    ensures resolved { (s : Store) (h : List Entry) (who later id : ℕ) (name : List ℕ) → (applied s who (Call.Resolve name)).reply ≡ Reply.Id id →
        (applied (value_from store_acts s h) later (Call.Resolve name)).reply ≡ Reply.Id id }
    ensures named { (s : Store) (h : List Entry) (id : ℕ) (name : List ℕ) → name_of s.queues id ≡ Some name → name_of (value_from store_acts s h).queues id ≡ Some name }
{}

/// Worked examples: the answers to some asks of metrics, and each of their bounds from both sides.
pub fn worked_metrics()
    ensures counter_and_gauge { counter_and_gauge }
    ensures unknown_ids { unknown_ids }
    ensures sixty_four_metrics { sixty_four_metrics }
    ensures counters_end { counters_end }
    ensures gauges_wrap { gauges_wrap }
{}

/// A Define is answered as the names answer the call that defines this kind and name, and leaves the names that such a call leaves.
pub fn definitions_are_calls()
    ensures { (ms : List Metric) (who : ℕ) (kind : MetricKind) (name : List ℕ) →
        ((applied_ask ms who (MetricAsk.Define kind name)).reply ≡ as_metric_reply (define_reply (names_of ms) (definition_in (defining kind name))))
        × (names_of (applied_ask ms who (MetricAsk.Define kind name)).metrics ≡ define_after (names_of ms) (definition_in (defining kind name))) }
{}

/// A worker's word of a counter is the sum of all that its Adds and Puts that were done came to.
pub fn counters_are_sums()
    ensures { (id : ℕ) (asks : List AskEntry) → word_of Counter id asks ≡ rise_in_all id asks }
{}

/// An ask that is answered Unknown, BadKind or Full changes nothing.
pub fn refused_asks_change_nothing()
    ensures { (ms : List Metric) (who : ℕ) (ask : MetricAsk) → IsRefusedAsk (applied_ask ms who ask).reply → (applied_ask ms who ask).metrics ≡ ms }
{}
