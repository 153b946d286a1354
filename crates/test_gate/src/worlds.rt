//! Worlds in memory, and the points at which a worker may be held.

use crate::files::{calls, push_told};
use crate::things::what_word;
use gate_base::{CallNos, Level, LineNo, Members, OutOfMemory, VmNo, WorkerNo};
use gate_io::{
    Event, Gate, MemWorld, NoGate, Point, Side, Wants, What, World, WorldEnd, are_in_order,
};
use std::alloc::Global;
use std::sync::atomic::{AtomicU64, Ordering};
use test_rows::{from_text, hex, number, word};

/// What an event is: its moment and its word.
pub fn event_told(alloc: Global, event: &Event) -> Result<String, OutOfMemory> {
    format!(in alloc; "{} {}", event.now, what_word(&event.what))
}

/// The word of an end.
fn end_word(end: WorldEnd) -> &'static str {
    match end {
        WorldEnd::Failed => "failed",
        WorldEnd::OutOfMemory => "out of memory",
    }
}

/// What a world gives next, where nothing is wanted.
pub fn next_told<W: World>(alloc: Global, world: &mut W) -> Result<String, OutOfMemory> {
    let wants = Wants {
        down: Members::new(alloc),
        up: Members::new(alloc),
        due: None,
    };
    match world.next(alloc, &wants) {
        Ok(event) => event_told(alloc, &event),
        Err(end) => String::from_str(alloc, end_word(end)),
    }
}

/// The event of a word: `5` has time pass at moment 5, and `5!` is Stop.
fn event_of(word: &str) -> Event {
    match word.split_once('!') {
        Some((moment, _)) => Event {
            now: number(moment),
            what: What::Stop,
        },
        None => Event {
            now: number(word),
            what: What::Clock,
        },
    }
}

/// The events of words.
fn events_of(alloc: Global, words: &str) -> Result<Vec<Event>, OutOfMemory> {
    let mut events = Vec::new(alloc);
    if words.is_empty() {
        return Ok(events);
    }
    for word in words.split(' ') {
        events.push(event_of(word))?;
    }
    Ok(events)
}

/// What four calls of a world give, and its seed.
fn four(alloc: Global, world: &mut MemWorld) -> Result<String, OutOfMemory> {
    let mut told = String::new(alloc);
    for _ in 0..4 {
        let one = next_told(alloc, world)?;
        push_told(&mut told, one.as_str())?;
    }
    let seed = hex(alloc, &world.seed())?;
    format!(in alloc; "{told}; seed {seed}")
}

/// `gives FAIL MOMENT MOMENT ..`: what four calls of a world of these events give, of which one fails, and its seed; or that the events
/// are in no order of a world. A moment with `!` after it is one of Stop.
pub fn given(alloc: Global, words: &str) -> Result<String, OutOfMemory> {
    let (fail, rest) = word(words);
    let fails = calls(alloc, fail)?;
    let events = events_of(alloc, rest)?;
    if !are_in_order(&events) {
        return String::from_str(alloc, "out of order");
    }
    let mut world = MemWorld::new(alloc, events, [7; 32], None, fails);
    four(alloc, &mut world)
}

/// A world without events, which takes so many bytes of a piece at most, or all for `-`.
pub fn world_of(alloc: Global, most: &str, fails: CallNos) -> MemWorld {
    let most = match most {
        "-" => None,
        n => Some(number(n).min(67_108_864) as usize),
    };
    MemWorld::new(alloc, Vec::new(alloc), [0; 32], most, fails)
}

/// Opens a connection, logs a line, sends a piece up and closes the client's connection. How many bytes of the piece were taken.
fn offer(alloc: Global, world: &mut MemWorld, piece: &[u8]) -> Result<usize, OutOfMemory> {
    let line = LineNo::new(1).unwrap();
    world.connect(alloc, line)?;
    world.log(alloc, Level::Info, b"x")?;
    let n = world.send(alloc, line, Side::Up, piece)?;
    world.close(alloc, line, Side::Down)?;
    Ok(n)
}

/// How many bytes of a piece were taken, and how many steps passed.
fn steps(alloc: Global, world: &mut MemWorld, piece: &str) -> Result<String, OutOfMemory> {
    let piece = from_text(alloc, piece)?;
    let n = offer(alloc, world, piece.as_slice())?;
    format!(in alloc; "{n} bytes, {} steps", world.trace().len())
}

/// How many things a world took.
fn things(alloc: Global, world: MemWorld) -> Result<usize, OutOfMemory> {
    Ok(world.into_received(alloc)?.len())
}

/// `takes MOST PIECE`: how many bytes of a piece a world takes that takes so many at most, how many steps passed, and how many things it
/// took.
pub fn taken(alloc: Global, words: &str) -> Result<String, OutOfMemory> {
    let (most, piece) = word(words);
    let mut world = world_of(alloc, most, Members::new(alloc));
    let told = steps(alloc, &mut world, piece)?;
    let things = things(alloc, world)?;
    format!(in alloc; "{told}, {things} things")
}

/// `refuses FAIL`: whether a connection, a line of the log, a piece and a close are all taken where one call fails, and how many steps
/// passed.
pub fn refused(alloc: Global, words: &str) -> Result<String, OutOfMemory> {
    let fails = calls(alloc, words)?;
    let mut world = world_of(alloc, "-", fails);
    let end = match offer(alloc, &mut world, b"ab") {
        Ok(_) => "all taken",
        Err(_) => "refused",
    };
    format!(in alloc; "{end}, {} steps", world.trace().len())
}

/// What three pieces are answered, and how many steps passed.
fn three(alloc: Global, world: &mut MemWorld) -> Result<String, OutOfMemory> {
    let mut told = String::new(alloc);
    for _ in 0..3 {
        let line = LineNo::new(1).unwrap();
        let end = match world.send(alloc, line, Side::Down, b"ab") {
            Ok(_) => "taken",
            Err(_) => "refused",
        };
        push_told(&mut told, end)?;
    }
    format!(in alloc; "{told}; {} steps", world.trace().len())
}

/// `no-memory SEND`: what three pieces are answered where one of them is refused memory, and how many steps passed.
pub fn without_memory(alloc: Global, words: &str) -> Result<String, OutOfMemory> {
    let sends = calls(alloc, words)?;
    let mut world = world_of(alloc, "-", Members::new(alloc));
    world.refuse_memory(sends);
    three(alloc, &mut world)
}

/// A gate that adds up what it is told: a worker's number, times 10 and the VM's number where it is inside a turn.
#[derive(Drop)]
struct Sums {
    points: AtomicU64,
}

impl Gate for Sums {
    fn at(&self, worker: WorkerNo, point: Point) {
        let weight = match point {
            Point::BeforeTurn => 1,
            Point::InsideTurn(vm) => 10 * u64::from(vm.get()),
        };
        let more = weight * u64::from(worker.get());
        self.points.fetch_add(more, Ordering::SeqCst);
    }
}

/// Passes both points.
fn pass<G: Gate>(gate: &G, worker: WorkerNo, vm: VmNo) {
    gate.at(worker, Point::BeforeTurn);
    gate.at(worker, Point::InsideTurn(vm));
}

/// `gate WORKER VM`: what such a gate adds up where this worker passes both points; the gate that holds nobody is passed too.
pub fn passed(alloc: Global, words: &str) -> Result<String, OutOfMemory> {
    let (worker, vm) = word(words);
    let worker = WorkerNo::new(number(worker).min(255) as u8);
    let vm = VmNo::new(number(vm).min(255) as u8);
    let (Some(worker), Some(vm)) = (worker, vm) else {
        return String::from_str(alloc, "no such worker or VM");
    };
    let gate = Sums {
        points: AtomicU64::new(0),
    };
    pass(&gate, worker, vm);
    pass(&NoGate, worker, vm);
    format!(in alloc; "{}", gate.points.load(Ordering::SeqCst))
}
