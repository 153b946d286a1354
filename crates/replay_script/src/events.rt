// The events of a script.
ghost use Rattle.std.specs.Prelude.{◌≡◌, ◌≤◌, ℕ, All, IfOk};
ghost use Rattle.gate_io.specs.Events.{AreInOrder, nothing_given};
ghost use Rattle.replay_script.specs.Scripts.{AreLines, at_start, events_of, workers_of};

use crate::Command;
use gate_base::{OutOfMemory, WorkerNo};
use gate_io::{Event, What};
use std::alloc::Global;

/// The events of a script, with Stop at its end. A world may give them in this order.
pub fn events_of(alloc: Global, commands: Vec<Command>) -> Result<Vec<Event>, OutOfMemory>
    ensures events { IfOk result (λ events. events.items ≡ events_of commands.items) }
    ensures order { (workers : ℕ) → AreLines (at_start workers) commands.items → IfOk result (λ events. AreInOrder nothing_given events.items) }
{
    let mut events = Vec::new(alloc);
    let mut now = 0;
    for command in commands {
        now = command.moment_behind(now);
        if let Some(what) = command.into_what() {
            events.push(Event { now, what })?;
        }
    }
    events.push(Event {
        now,
        what: What::Stop,
    })?;
    Ok(events)
}

/// The workers of a script's events, one for each. Each of them is there.
pub fn workers_of(alloc: Global, commands: &[Command]) -> Result<Vec<WorkerNo>, OutOfMemory>
    ensures workers { IfOk result (λ whose. whose.items ≡ workers_of commands.now) }
    ensures there { (workers : ℕ) → 1 ≤ workers → AreLines (at_start workers) commands.now → IfOk result (λ whose. All (λ who. (1 ≤ who) × (who ≤ workers)) whose.items) }
{
    let mut workers = Vec::new(alloc);
    let mut who = WorkerNo::new(1).unwrap();
    for command in commands {
        who = command.worker_behind(who);
        if command.happens() {
            workers.push(who)?;
        }
    }
    workers.push(who)?;
    Ok(workers)
}
