//! What is sent over worlds in memory, what waits, and when a side is full.

use crate::files::{calls, push_told};
use crate::worlds::world_of;
use gate_base::{Level, LineNo, Octets, OutOfMemory};
use gate_io::{MemWorld, Sent, Side, What};
use send_queue::{Outbox, joined};
use std::alloc::Global;
use test_rows::{number, word};

/// The line that all is about.
fn line() -> LineNo {
    LineNo::new(1).unwrap()
}

/// So many bytes for a side.
fn bytes(alloc: Global, side: Side, count: u64) -> Result<Sent, OutOfMemory> {
    let mut bytes = Octets::new(alloc);
    for _ in 0..count {
        bytes.push(9)?;
    }
    Ok(Sent::Bytes {
        line: line(),
        side,
        bytes,
    })
}

/// Puts a piece of so many bytes, in two parts, and a line of the log at the end.
fn push_up(alloc: Global, sent: &mut Vec<Sent>, count: u64) -> Result<(), OutOfMemory> {
    let middle = count / 2;
    sent.push(bytes(alloc, Side::Up, middle)?)?;
    sent.push(bytes(alloc, Side::Up, count - middle)?)?;
    let text = Octets::from_slice(alloc, b"x")?;
    let level = Level::Info;
    sent.push(Sent::Log { level, text })?;
    Ok(())
}

/// Puts the close of a side at the end.
fn push_close(sent: &mut Vec<Sent>, side: Side) -> Result<(), OutOfMemory> {
    sent.push(Sent::Close { line: line(), side })?;
    Ok(())
}

/// A connection is opened, a piece of so many bytes goes up in two parts, a line is logged, ten bytes go down, and both sides are
/// closed.
fn both_sides(alloc: Global, count: u64) -> Result<Vec<Sent>, OutOfMemory> {
    let mut sent = Vec::new(alloc);
    sent.push(Sent::Connect { line: line() })?;
    push_up(alloc, &mut sent, count)?;
    sent.push(bytes(alloc, Side::Down, 10)?)?;
    push_close(&mut sent, Side::Down)?;
    push_close(&mut sent, Side::Up)?;
    Ok(sent)
}

/// Delivers both sides.
fn deliver(
    alloc: Global,
    world: &mut MemWorld,
    outbox: &mut Outbox,
    count: u64,
) -> Result<(), OutOfMemory> {
    let sent = both_sides(alloc, count)?;
    outbox.deliver(alloc, world, &What::Clock, sent)
}

/// How many members wait at first, and after how many rounds, a hundred at most, none.
fn rounds(
    alloc: Global,
    world: &mut MemWorld,
    outbox: &mut Outbox,
    count: u64,
) -> Result<String, OutOfMemory> {
    deliver(alloc, world, outbox, count)?;
    let first = outbox.waiting().len();
    let mut n = 1u32;
    for _ in 0..100 {
        if outbox.waiting().is_empty() {
            break;
        }
        outbox.hand_over(alloc, world)?;
        n = n.saturating_add(1);
    }
    format!(in alloc; "{first} wait, {n} rounds")
}

/// How many members wait at first, and after how many rounds none.
fn waits(alloc: Global, world: &mut MemWorld, count: u64) -> Result<String, OutOfMemory> {
    let mut outbox = Outbox::new(alloc);
    rounds(alloc, world, &mut outbox, count)
}

/// How many bytes were received for a side.
fn total(received: &[Sent], wanted: Side) -> usize {
    let mut total = 0usize;
    for thing in received {
        let n = match thing {
            Sent::Bytes { side, bytes, .. } if *side == wanted => bytes.len(),
            _ => 0,
        };
        total = total.saturating_add(n);
    }
    total
}

/// How many things that are no bytes were received.
fn others(received: &[Sent]) -> usize {
    let mut others = 0usize;
    for thing in received {
        if !matches!(thing, Sent::Bytes { .. }) {
            others = others.saturating_add(1);
        }
    }
    others
}

/// How many bytes were received for each side, and how many other things.
fn counts(alloc: Global, received: &[Sent]) -> Result<String, OutOfMemory> {
    let up = total(received, Side::Up);
    let down = total(received, Side::Down);
    let others = others(received);
    format!(in alloc; "up {up}, down {down}, others {others}")
}

/// What a world received.
fn received(alloc: Global, world: MemWorld) -> Result<String, OutOfMemory> {
    let received = world.into_received(alloc)?;
    counts(alloc, received.as_slice())
}

/// `offers MOST UP`: both sides are delivered, with so many bytes for the upstream server, to a world that takes so many bytes of a piece
/// at most, or all for `-`. How many members wait at first, after how many rounds none, and what the world received.
pub fn offered(alloc: Global, words: &str) -> Result<String, OutOfMemory> {
    let (most, count) = word(words);
    let fails = calls(alloc, "0")?;
    let mut world = world_of(alloc, most, fails);
    let told = waits(alloc, &mut world, number(count))?;
    let received = received(alloc, world)?;
    format!(in alloc; "{told}; {received}")
}

/// Whether all is delivered, and how many members wait.
fn end(alloc: Global, world: &mut MemWorld) -> Result<String, OutOfMemory> {
    let mut outbox = Outbox::new(alloc);
    let end = match deliver(alloc, world, &mut outbox, 4) {
        Ok(()) => "delivered",
        Err(_) => "failed",
    };
    format!(in alloc; "{end}, {} wait", outbox.waiting().len())
}

/// `delivers FAIL`: both sides are delivered, with four bytes for the upstream server, and one call fails. Whether all is delivered,
/// how many members wait, and how many steps passed.
pub fn ended(alloc: Global, words: &str) -> Result<String, OutOfMemory> {
    let fails = calls(alloc, words)?;
    let mut world = world_of(alloc, "-", fails);
    let told = end(alloc, &mut world)?;
    format!(in alloc; "{told}, {} steps", world.trace().len())
}

/// A list of one piece of so many bytes for the upstream server.
fn one_up(alloc: Global, count: u64) -> Result<Vec<Sent>, OutOfMemory> {
    let mut sent = Vec::new(alloc);
    sent.push(bytes(alloc, Side::Up, count)?)?;
    Ok(sent)
}

/// Puts both sides, joined, after what waits, so many times, with 4,096 bytes for the upstream server each time.
fn fill(alloc: Global, outbox: &mut Outbox, times: u64) -> Result<(), OutOfMemory> {
    for _ in 0..times {
        let sent = both_sides(alloc, 4096)?;
        outbox.append(joined(alloc, sent)?)?;
    }
    Ok(())
}

/// Delivers so many bytes more for the upstream server to a world that takes none.
fn deliver_up(alloc: Global, outbox: &mut Outbox, count: u64) -> Result<(), OutOfMemory> {
    let fails = calls(alloc, "0")?;
    let mut world = world_of(alloc, "0", fails);
    let sent = one_up(alloc, count)?;
    outbox.deliver(alloc, &mut world, &What::Clock, sent)
}

/// Whether the client's side and the server's are full, looked for from a place on.
fn full_near(outbox: &Outbox, at: usize) -> (bool, bool) {
    let mut near = at;
    let down = outbox.is_full_near(line(), Side::Down, &mut near);
    let up = outbox.is_full_near(line(), Side::Up, &mut near);
    (up, down)
}

/// Puts at the end which sides are full, looked for from the first place on, or that the answer is another from the second, or from one after all.
fn push_full(told: &mut String, outbox: &Outbox) -> Result<(), OutOfMemory> {
    let (up, down) = full_near(outbox, 0);
    for at in [1, usize::MAX] {
        if full_near(outbox, at) != (up, down) {
            return push_told(told, "another");
        }
    }
    push_told(
        told,
        match (up, down) {
            (true, true) => "both",
            (true, false) => "up",
            (false, true) => "down",
            (false, false) => "neither",
        },
    )
}

/// Which sides are full once the bytes are put behind, once the client is gone, and once the upstream server refused.
fn push_steps(
    alloc: Global,
    told: &mut String,
    outbox: &mut Outbox,
    more: u64,
) -> Result<(), OutOfMemory> {
    push_full(told, outbox)?;
    outbox.append(one_up(alloc, more)?)?;
    push_full(told, outbox)?;
    let side = Side::Down;
    outbox.clear(&What::Gone { line: line(), side });
    push_full(told, outbox)?;
    outbox.clear(&What::Refused { line: line() });
    push_full(told, outbox)
}

/// `full TIMES LAST MORE`: both sides wait so many times with 4,096 bytes for the upstream server, and so many last bytes. Which sides are
/// full then, once more bytes are put behind, once the client is gone, and once the upstream server refused; and how many members wait
/// in the end.
pub fn filled(alloc: Global, words: &str) -> Result<String, OutOfMemory> {
    let (times, rest) = word(words);
    let (last, more) = word(rest);
    let mut outbox = Outbox::new(alloc);
    let mut told = String::new(alloc);
    fill(alloc, &mut outbox, number(times))?;
    deliver_up(alloc, &mut outbox, number(last))?;
    push_steps(alloc, &mut told, &mut outbox, number(more))?;
    format!(in alloc; "{told}; {} wait", outbox.waiting().len())
}
