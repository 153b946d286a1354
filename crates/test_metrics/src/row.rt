// Rows of calls and asks by three of eight workers.
ghost use Rattle.std.specs.Prelude.{◌≡◌, ◌≤◌, length};
ghost use Rattle.shared_seats.specs.Workers.{AreAll};

use crate::asks::{Asked, ask, ask_by, lines, vm_of};
use crate::watch::Watch;
use gate_base::{ContextId, Octets, OutOfMemory, QueueId, WorkerNo};
use gate_io::{Gate, NoGate};
use shared_seats::{ClosedTables, SeatList, Tables};
use shared_store::Alone;
use std::alloc::Global;
use std::sync::Wait;
use store_model::{Call, MetricAsk, MetricKind};

/// A call or an ask, spelled short. A name, a value and an item are one byte. The key is `k`, and the queue is the first one of the second VM.
#[derive(Clone, Copy)]
pub(crate) enum Ask {
    Define(MetricKind, u8),
    Add(u32, i64),
    Put(u32, u64),
    Sum(u32),
    Get,
    Set(u8, u32),
    Register(u8),
    Enqueue(u8),
    Dequeue,
    Notice,
}

use Ask::*;

/// Which worker asks: worker 1, 2 or 8.
#[derive(Clone, Copy)]
pub(crate) enum Who {
    First,
    Second,
    Last,
}

use Who::*;

/// The number of a worker.
fn number_of(who: Who) -> u8
    ensures low { 1 ≤ result }
    ensures high { result ≤ 8 }
{
    match who {
        First => 1,
        Second => 2,
        Last => 8,
    }
}

/// Workers 1 and 2 define a counter, worker 2 a gauge of the same name, and both count. Then ids are asked for that nobody got, the gauge's words
/// are more than 2^64 together, and so are the counter's, of which worker 1 has 2^64 - 1. In the end worker 8 asks for the counter before it knows it, and then counts too.
const ROW: [(Who, u8, Ask); 27] = [
    (First, 0, Define(MetricKind::Counter, b'n')),
    (Second, 0, Define(MetricKind::Counter, b'n')),
    (Second, 0, Define(MetricKind::Gauge, b'n')),
    (First, 0, Add(1, 5)),
    (Second, 0, Add(1, 7)),
    (First, 0, Sum(1)),
    (Second, 0, Add(1, -1)),
    (First, 0, Put(2, 3)),
    (Second, 0, Put(2, 9)),
    (First, 0, Define(MetricKind::Gauge, b'n')),
    (First, 0, Put(2, 30)),
    (Second, 0, Sum(2)),
    (First, 0, Sum(2)),
    (First, 0, Sum(3)),
    (First, 0, Sum(0)),
    (First, 0, Add(3, 1)),
    (First, 0, Add(2, -31)),
    (Second, 0, Sum(2)),
    (First, 0, Put(1, u64::MAX - 5)),
    (Second, 0, Add(1, 1)),
    (Second, 0, Sum(1)),
    (First, 0, Add(1, 1)),
    (Last, 0, Sum(1)),
    (Last, 0, Define(MetricKind::Counter, b'n')),
    (Last, 0, Add(1, 100)),
    (First, 0, Sum(1)),
    (Last, 0, Sum(1)),
];

/// Worker 1 defines the 64th gauge and one more, and asks for both.
const PAST_64: [(Who, u8, Ask); 6] = [
    (First, 0, Define(MetricKind::Gauge, 63)),
    (First, 0, Define(MetricKind::Gauge, 64)),
    (First, 0, Put(64, 7)),
    (First, 0, Sum(64)),
    (First, 0, Put(65, 1)),
    (First, 0, Sum(65)),
];

/// Calls of two workers on two stores: the same key and the same queue are others in the other store, a Set with a stale number changes nothing, and
/// a notice goes to the worker that registered.
const CALLS: [(Who, u8, Ask); 14] = [
    (First, 0, Set(b'1', 0)),
    (Second, 0, Get),
    (First, 0, Set(b'2', 1)),
    (Second, 0, Set(b'3', 1)),
    (Second, 1, Get),
    (Second, 0, Set(b'3', 2)),
    (First, 1, Register(b'q')),
    (First, 0, Enqueue(b'a')),
    (Second, 1, Enqueue(b'a')),
    (Second, 1, Notice),
    (First, 0, Notice),
    (First, 1, Notice),
    (First, 1, Enqueue(b'b')),
    (Second, 1, Dequeue),
];

/// The id of the first queue of the second VM.
const QUEUE: u32 = 16_777_217;

/// Worker 1 defines 63 gauges.
fn gauges(alloc: Global) -> Result<Vec<(Who, u8, Ask)>, OutOfMemory> {
    let mut row = Vec::new(alloc);
    for name in 0..63u8 {
        row.push((First, 0, Define(MetricKind::Gauge, name)))?;
    }
    Ok(row)
}

/// One byte.
fn byte(alloc: Global, byte: u8) -> Result<Octets, OutOfMemory> {
    Octets::from_slice(alloc, &[byte])
}

/// A call on a store.
fn call_of(alloc: Global, asked: Ask) -> Result<Call, OutOfMemory> {
    let queue = QueueId::new(QUEUE);
    Ok(match asked {
        Get => Call::Get {
            key: byte(alloc, b'k')?,
        },
        Set(value, number) => Call::Set {
            key: byte(alloc, b'k')?,
            value: byte(alloc, value)?,
            number,
        },
        Register(name) => Call::Register {
            name: byte(alloc, name)?,
            root: ContextId::new(7),
        },
        Enqueue(item) => Call::Enqueue {
            queue,
            item: byte(alloc, item)?,
        },
        Dequeue => Call::Dequeue { queue },
        _ => Call::Notice,
    })
}

/// A call, or an ask of the metrics.
pub(crate) fn spelled(alloc: Global, asked: Ask) -> Result<Asked, OutOfMemory> {
    Ok(Asked::Metric(match asked {
        Define(kind, name) => MetricAsk::Define {
            kind,
            name: byte(alloc, name)?,
        },
        Add(id, by) => MetricAsk::Add { id, by },
        Put(id, value) => MetricAsk::Put { id, value },
        Sum(id) => MetricAsk::Sum { id },
        call => return Ok(Asked::Call(call_of(alloc, call)?)),
    }))
}

/// Asks a row by the seats of eight workers, and puts each reply on a line.
fn play<R: Wait, G: Gate>(
    rt: &R,
    alloc: Global,
    tables: &Tables,
    lists: &mut Vec<SeatList>,
    row: &[(Who, u8, Ask)],
    gate: &G,
    out: &mut String,
) -> Result<(), OutOfMemory>
    requires tables { AreAll tables.now lists.old.items × (length tables.now.stores ≡ 2) }
    requires eight { 8 ≤ length lists.old.items }
    ensures all { AreAll tables.now lists.new.items }
    ensures as_many { length lists.new.items ≡ length lists.old.items }
{
    for (who, vm, asked) in row {
        let asked = spelled(alloc, *asked)?;
        let place = number_of(*who) as usize - 1;
        let reply = ask_by(rt, alloc, tables, lists, place, vm_of(*vm), &asked, gate)?;
        out.push_str(reply.as_str())?;
        out.push_str("\n")?;
    }
    Ok(())
}

/// The replies over eight workers' seats, and then the lines of their metrics.
pub(crate) fn over_seats<R: Wait>(rt: &R, alloc: Global) -> Result<String, OutOfMemory> {
    let mut out = String::new(alloc);
    let (tables, mut lists) = Tables::make(alloc, 2, 8)?;
    play(rt, alloc, &tables, &mut lists, &ROW, &NoGate, &mut out)?;
    let closed = tables.shut(lists);
    let told = lines(alloc, closed.metrics(vm_of(0)))?;
    out.push_str(told.as_str())?;
    Ok(out)
}

/// Puts how many calls a store had, how many keys and items it has, and how many items are in the queue, on a line.
pub(crate) fn tell_store(
    alloc: Global,
    closed: &ClosedTables,
    place: u8,
    out: &mut String,
) -> Result<(), OutOfMemory>
    requires { length closed.now.stores ≡ 2 }
{
    let (keys, items) = closed.counts(vm_of(place));
    let calls = closed.calls(vm_of(place));
    let line = format!(in alloc; "store {place} calls {calls} keys {keys} items {items}\n")?;
    out.push_str(line.as_str())
}

/// The replies to the calls over eight workers' seats, what passed the gate, what the stores came to, and how many items the queue has.
pub(crate) fn calls_over_seats<R: Wait>(rt: &R, alloc: Global) -> Result<String, OutOfMemory> {
    let mut out = String::new(alloc);
    let watch = Watch::new(false);
    let (tables, mut lists) = Tables::make(alloc, 2, 8)?;
    play(rt, alloc, &tables, &mut lists, &CALLS, &watch, &mut out)?;
    let closed = tables.shut(lists);
    tell_store(alloc, &closed, 0, &mut out)?;
    tell_store(alloc, &closed, 1, &mut out)?;
    let queue = closed.items(alloc, QueueId::new(QUEUE))?.len();
    let none = closed.items(alloc, QueueId::new(1))?.len();
    let line = format!(in alloc; "queues {queue} {none} gate {}\n", watch.sum())?;
    out.push_str(line.as_str())?;
    Ok(out)
}

/// The replies over seats to asks of the 64th metric, and of one more.
pub(crate) fn past_64<R: Wait>(rt: &R, alloc: Global) -> Result<String, OutOfMemory> {
    let mut out = String::new(alloc);
    let mut before = String::new(alloc);
    let row = gauges(alloc)?;
    let (tables, mut lists) = Tables::make(alloc, 2, 8)?;
    play(
        rt,
        alloc,
        &tables,
        &mut lists,
        row.as_slice(),
        &NoGate,
        &mut before,
    )?;
    play(rt, alloc, &tables, &mut lists, &PAST_64, &NoGate, &mut out)?;
    Ok(out)
}

/// Puts the replies to a row over one thread on lines.
fn play_alone(
    alloc: Global,
    alone: &mut Alone,
    row: &[(Who, u8, Ask)],
    out: &mut String,
) -> Result<(), OutOfMemory>
    requires { length alone.old.stores ≡ 2 }
    ensures { length alone.new.stores ≡ 2 }
{
    for (who, vm, asked) in row {
        let asked = spelled(alloc, *asked)?;
        alone.as_worker(WorkerNo::new(number_of(*who)).unwrap());
        let reply = ask(alloc, alone, vm_of(*vm), &asked)?;
        out.push_str(reply.as_str())?;
        out.push_str("\n")?;
    }
    Ok(())
}

/// The replies over the metrics of one thread.
pub(crate) fn over_one_thread(alloc: Global) -> Result<String, OutOfMemory> {
    let mut out = String::new(alloc);
    let mut alone = Alone::new(alloc, 2)?;
    play_alone(alloc, &mut alone, &ROW, &mut out)?;
    Ok(out)
}

/// The replies over the stores of one thread, and what the stores came to.
pub(crate) fn calls_over_one_thread(alloc: Global) -> Result<String, OutOfMemory> {
    let mut out = String::new(alloc);
    let mut alone = Alone::new(alloc, 2)?;
    play_alone(alloc, &mut alone, &CALLS, &mut out)?;
    let (keys, items) = alone.counts(vm_of(0));
    let (more_keys, more_items) = alone.counts(vm_of(1));
    let queue = alone.items(alloc, QueueId::new(QUEUE))?.len();
    let none = alone.items(alloc, QueueId::new(1))?.len();
    let line = format!(in alloc;
        "keys {keys} {more_keys} items {items} {more_items} queues {queue} {none}\n"
    )?;
    out.push_str(line.as_str())?;
    Ok(out)
}
