// Eight workers, each in a thread of its own: they count, they raise one number, and they wait for one turn.
ghost use Rattle.std.specs.Prelude.{◌≡◌, ◌<◌, ℕ, List, All, IfOk, length, slice_index_or};
ghost use Rattle.shared_seats.specs.Seats.{AreAt};
ghost use Rattle.shared_seats.specs.Workers.{AreAll, WentOn};
ghost use Rattle.store_model.specs.Made.{Made};

use crate::asks::{ask_by, lines, measure, vm_of};
use crate::row::{Ask, spelled, tell_store};
use crate::watch::Watch;
use gate_base::{Octets, OutOfMemory};
use gate_io::NoGate;
use shared_seats::{SeatList, StoreSeat, Tables};
use std::alloc::Global;
use std::sync::Wait;
use std::sync::atomic::Ordering;
use std::thread;
use std::thread::Threads;
use store_model::{Call, MetricAsk, MetricKind, MetricReply, Reply, Shared};

/// How many are added by each worker, one at a time.
const TIMES: u32 = 100_000;

/// How many are added between two sums.
const BETWEEN: u32 = 1_000;

/// How often each worker raises the number.
const RAISES: u32 = 10_000;

/// What each thread does.
#[derive(Clone, Copy)]
enum Task {
    Count,
    Raise,
    Come,
}

/// The sum of the counter, or 0 where there is none.
fn sum<S: Shared>(alloc: Global, shared: &mut S) -> u64
    requires { 0 < S.stores shared.old }
    ensures stores { S.stores shared.new ≡ S.stores shared.old }
    ensures made { (made : List Made) × S.performs shared.old made shared.new }
{
    match measure(alloc, shared, &MetricAsk::Sum { id: 1 }) {
        MetricReply::Total { value } => value,
        _ => 0,
    }
}

/// Defines the counter.
fn define<S: Shared>(alloc: Global, shared: &mut S)
    requires { 0 < S.stores shared.old }
    ensures stores { S.stores shared.new ≡ S.stores shared.old }
    ensures made { (made : List Made) × S.performs shared.old made shared.new }
{
    let Ok(name) = Octets::from_slice(alloc, b"n") else {
        return;
    };
    let kind = MetricKind::Counter;
    measure(alloc, shared, &MetricAsk::Define { kind, name });
}

/// Defines the counter, adds so many, and notes where a sum fell below one that the same seat had seen.
fn count<S: Shared>(alloc: Global, shared: &mut S, seen: &Watch)
    requires { 0 < S.stores shared.old }
    ensures { (made : List Made) × S.performs shared.old made shared.new }
{
    define(alloc, shared);
    let mut last = 0;
    for turn in 0..TIMES {
        measure(alloc, shared, &MetricAsk::Add { id: 1, by: 1 });
        if turn % BETWEEN == 0 {
            let now = sum(alloc, shared);
            if now <= last {
                seen.fell.store(1, Ordering::SeqCst);
            }
            last = now;
        }
    }
}

/// The number in a key of big-endian bytes, and the number under which the key may be set.
fn number_in(reply: &Reply) -> Option<(u32, u32)> {
    match reply {
        Reply::Value { value, number } => {
            let mut read = 0u32;
            for byte in value.as_slice() {
                read = read.wrapping_mul(256).wrapping_add(u32::from(*byte));
            }
            Some((read, *number))
        }
        _ => None,
    }
}

/// Whether a Set was done.
fn is_done(reply: &Reply) -> bool {
    matches!(reply, Reply::Done { .. })
}

/// A Set of the key `k` to a number in big-endian bytes.
fn set(alloc: Global, to: u32, number: u32) -> Result<Call, OutOfMemory> {
    Ok(Call::Set {
        key: Octets::from_slice(alloc, b"k")?,
        value: Octets::from_slice(alloc, &to.to_be_bytes())?,
        number,
    })
}

/// Reads the number in the key `k` of the second store, and sets the key to the next one, unless it was set since: whether it was done.
fn raise_once<S: Shared>(alloc: Global, shared: &mut S, get: &Call) -> Result<bool, OutOfMemory>
    requires { 1 < S.stores shared.old }
    ensures stores { S.stores shared.new ≡ S.stores shared.old }
    ensures made { (made : List Made) × S.performs shared.old made shared.new }
{
    let vm = vm_of(1);
    let Some((read, number)) = number_in(&shared.call(alloc, vm, get)?) else {
        return Ok(false);
    };
    let set = set(alloc, read.wrapping_add(1), number)?;
    Ok(is_done(&shared.call(alloc, vm, &set)?))
}

/// Raises the number in the key so many times; it gives up at want of memory.
fn raise<S: Shared>(alloc: Global, shared: &mut S, get: &Call)
    requires { 1 < S.stores shared.old }
    ensures { (made : List Made) × S.performs shared.old made shared.new }
{
    let mut left = RAISES;
    for _ in 0..10_000_000u32 {
        if left == 0 {
            break;
        }
        match raise_once(alloc, shared, get) {
            Ok(true) => left -= 1,
            Ok(false) => {}
            Err(_) => left = 0,
        }
    }
}

/// Comes, asks the second store for a notice, and notes that it was answered.
fn come<S: Shared>(alloc: Global, shared: &mut S, seen: &Watch)
    requires { 1 < S.stores shared.old }
    ensures { (made : List Made) × S.performs shared.old made shared.new }
{
    seen.come.fetch_add(1, Ordering::SeqCst);
    if shared.call(alloc, vm_of(1), &Call::Notice).is_ok() {
        seen.answered.fetch_add(1, Ordering::SeqCst);
    }
}

/// Does a thread's work.
fn work<S: Shared>(alloc: Global, shared: &mut S, what: Task, seen: &Watch, get: &Call)
    requires { 1 < S.stores shared.old }
    ensures { (made : List Made) × S.performs shared.old made shared.new }
{
    match what {
        Task::Count => count(alloc, shared, seen),
        Task::Raise => raise(alloc, shared, get),
        Task::Come => come(alloc, shared, seen),
    }
}

/// Does it by a worker's seats.
fn work_over<R: Wait>(
    rt: &R,
    alloc: Global,
    tables: &Tables,
    what: Task,
    seen: &Watch,
    get: &Call,
    seats: SeatList,
) -> SeatList
    requires { AreAt tables.now seats × (length tables.now.stores ≡ 2) }
    ensures { WentOn seats result }
{
    let mut shared = StoreSeat::over(rt, tables, seats, seen);
    work(alloc, &mut shared, what, seen, get);
    shared.give_back()
}

/// Does it by each worker's seats, each in a thread of its own.
fn work_lists<R: Threads + Wait + Sync>(
    rt: &R,
    alloc: Global,
    tables: &Tables,
    what: Task,
    seen: &Watch,
    get: &Call,
    lists: Vec<SeatList>,
) -> Result<Vec<SeatList>, OutOfMemory>
    requires { All (λ l. AreAt tables.now l × (length tables.now.stores ≡ 2)) lists.items }
    ensures len { IfOk result (λ now. length now.items ≡ length lists.items) }
    ensures each { IfOk result (λ now. (w : ℕ) (d : _) → w < length lists.items → WentOn (slice_index_or lists.items w d) (slice_index_or now.items w d)) }
{
    thread::map_vec(
        rt,
        lists,
        &|seats| work_over(rt, alloc, tables, what, seen, get, seats),
    )
}

/// Does it by all workers, after which all seats are still there.
fn work_all<R: Threads + Wait + Sync>(
    rt: &R,
    alloc: Global,
    tables: &Tables,
    what: Task,
    seen: &Watch,
    lists: Vec<SeatList>,
) -> Result<Vec<SeatList>, OutOfMemory>
    requires { AreAll tables.now lists.items × (length tables.now.stores ≡ 2) }
    ensures len { IfOk result (λ now. length now.items ≡ length lists.items) }
    ensures all { IfOk result (λ now. AreAll tables.now now.items) }
{
    let key = Octets::from_slice(alloc, b"k")?;
    let get = Call::Get { key };
    let now = work_lists(rt, alloc, tables, what, seen, &get, lists)?;
    Ok(now)
}

/// The line of the counter where eight workers counted, and whether a sum fell.
pub(crate) fn counted<R: Threads + Wait + Sync>(
    rt: &R,
    alloc: Global,
) -> Result<String, OutOfMemory> {
    let seen = Watch::new(false);
    let (tables, lists) = Tables::make(alloc, 2, 8)?;
    let lists = work_all(rt, alloc, &tables, Task::Count, &seen, lists)?;
    let closed = tables.shut(lists);
    let told = lines(alloc, closed.metrics(vm_of(0)))?;
    let fell = seen.fell.load(Ordering::SeqCst);
    format!(in alloc; "{}fell {fell}\n", told.as_str())
}

/// Asks the second store by the seats of worker 1, without a gate.
fn ask_first<R: Wait>(
    rt: &R,
    alloc: Global,
    tables: &Tables,
    lists: &mut Vec<SeatList>,
    asked: Ask,
) -> Result<String, OutOfMemory>
    requires { AreAll tables.now lists.old.items × (length tables.now.stores ≡ 2) × (0 < length lists.old.items) }
    ensures all { AreAll tables.now lists.new.items }
    ensures as_many { length lists.new.items ≡ length lists.old.items }
{
    let asked = spelled(alloc, asked)?;
    ask_by(rt, alloc, tables, lists, 0, vm_of(1), &asked, &NoGate)
}

/// What the key has where eight workers raised the number in it, whether each call passed the gate by itself, and the first store, which nobody called.
pub(crate) fn raised<R: Threads + Wait + Sync>(
    rt: &R,
    alloc: Global,
) -> Result<String, OutOfMemory> {
    let seen = Watch::new(false);
    let (tables, mut lists) = Tables::make(alloc, 2, 8)?;
    ask_first(rt, alloc, &tables, &mut lists, Ask::Set(0, 0))?;
    let mut lists = work_all(rt, alloc, &tables, Task::Raise, &seen, lists)?;
    let mut out = ask_first(rt, alloc, &tables, &mut lists, Ask::Get)?;
    let closed = tables.shut(lists);
    let calls = closed.calls(vm_of(1));
    let (keys, items) = closed.counts(vm_of(1));
    let is_each = calls >= 160_002 && seen.passed() == calls.wrapping_sub(2);
    let overlaps = seen.overlaps();
    let line = format!(in alloc;
        "\neach {is_each} overlaps {overlaps} keys {keys} items {items}\n"
    )?;
    out.push_str(line.as_str())?;
    tell_store(alloc, &closed, 0, &mut out)?;
    Ok(out)
}

/// How many of eight workers are answered where the first one inside its turn stays there until the others have come, and sleep.
pub(crate) fn woken<R: Threads + Wait + Sync>(
    rt: &R,
    alloc: Global,
) -> Result<String, OutOfMemory> {
    let seen = Watch::new(true);
    let (tables, lists) = Tables::make(alloc, 2, 8)?;
    let lists = work_all(rt, alloc, &tables, Task::Come, &seen, lists)?;
    let mut out = String::new(alloc);
    let closed = tables.shut(lists);
    tell_store(alloc, &closed, 1, &mut out)?;
    let answered = seen.answered.load(Ordering::SeqCst);
    let line = format!(in alloc; "answered {answered} overlaps {}\n", seen.overlaps())?;
    out.push_str(line.as_str())?;
    Ok(out)
}
