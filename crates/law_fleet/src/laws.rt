// Functions without a body, whose clauses hold of each fleet.
ghost use Rattle.std.specs.Prelude.{◌≡◌, ℕ, ℤ, List, [], Some, None, true, false};
ghost use Rattle.law_fleet.specs.Calls.{CallsExamples, EachCallStandsOnce};
ghost use Rattle.law_fleet.specs.Lives.{BeginsWithout, EarlyLivesTookEvents};
ghost use Rattle.metric_seats.specs.Places.{IsCount};
ghost use Rattle.store_model.specs.Keys.{accepts, held_at};
ghost use Rattle.store_model.specs.Metrics.{ask_takes_no_memory};
ghost use Rattle.store_model.specs.Store.{Store, takes_no_memory};
ghost use Rattle.store_model.specs.declared.metric.Metric.{Metric};

use filter_host::Host;
use fleet::{all_lives_are_meant, each_vm_has_one_history, seats_go_on_by_lives};
use gate_io::World;
use shared_seats::each_call_and_definition_stands_once;
use store_model::{Call, MetricAsk};

/// However the workers of a fleet ended: each VM of the configuration came to one store with one legal history, in which stand the calls that each worker's
/// turns made on it, each once and in the worker's order, and nobody else's; and to one set of metrics, of whose one history of definitions the same holds.
/// A worker's calls are those that the meanings of the events of its lives call first; and in a world that tells what passed, these events are those that it
/// told of giving.
pub fn each_call_of_a_fleet_stands_once<H: Host, W: World>()
    ensures { EachCallStandsOnce W.trace W.nature W.faults H.calling }
{
    seats_go_on_by_lives::<H>();
    all_lives_are_meant::<H>();
    each_vm_has_one_history::<H, W>();
    each_call_and_definition_stands_once();
}

/// Whose calls are whose, and whose events.
pub fn worked_calls<H: Host, W: World>()
    ensures { CallsExamples W.trace W.nature W.faults H.calling }
{}

/// Each life of a worker after which another one began was given an event, since a life begins with none. So a worker that has no memory to take one does
/// not begin again for ever.
pub fn early_lives_took_events<H: Host>()
    ensures took { EarlyLivesTookEvents H.calling }
    ensures begins { BeginsWithout H.exported H.registering }
{}

/// Which calls and asks are answered whatever memory there is: a Resolve, a Dequeue and a Notice, a Set under a number that is not the key's, a Get of no key
/// or of an empty value, and an Add, a Put and a Sum.
pub fn worked_memory()
    ensures resolve { (s : Store) (name : List ℕ) → takes_no_memory (Call.Resolve name) s ≡ true }
    ensures dequeue { (s : Store) (queue : ℕ) → takes_no_memory (Call.Dequeue queue) s ≡ true }
    ensures notice { (s : Store) → takes_no_memory Call.Notice s ≡ true }
    ensures stale { (s : Store) (key value : List ℕ) (number : ℕ) → accepts s.keys key number ≡ false → takes_no_memory (Call.Set key value number) s ≡ true }
    ensures absent { (s : Store) (key : List ℕ) → held_at s.keys key ≡ None → takes_no_memory (Call.Get key) s ≡ true }
    ensures empty { (s : Store) (key : List ℕ) (number : ℕ) → held_at s.keys key ≡ Some (record { value = []; number = number }) → takes_no_memory (Call.Get key) s ≡ true }
    ensures add { (ms : List Metric) (id : ℕ) (by : ℤ) → (ask_takes_no_memory (MetricAsk.Add id by) ms ≡ true) × IsCount (MetricAsk.Add id by) }
    ensures put { (ms : List Metric) (id value : ℕ) → (ask_takes_no_memory (MetricAsk.Put id value) ms ≡ true) × IsCount (MetricAsk.Put id value) }
    ensures sum { (ms : List Metric) (id : ℕ) → (ask_takes_no_memory (MetricAsk.Sum id) ms ≡ true) × IsCount (MetricAsk.Sum id) }
{}
