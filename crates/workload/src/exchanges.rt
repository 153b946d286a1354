// The events of a worker.
ghost use Rattle.std.specs.Prelude.{◌≡◌, ◌≤◌, ◌<◌, ◌++◌, ◌∷◌, [], IfOk, OnOk, decimal};
ghost use Rattle.gate_io.specs.Events.{AreInOrder, nothing_given};
ghost use Rattle.workload.specs.Events.{at_start, events_of, exchange, head, request, share};

use gate_base::{LineNo, Octets, OutOfMemory, WorkerNo};
use gate_io::{Event, Side, What};
use itoa::Buffer;
use std::alloc::Global;

/// How many requests there are, of all workers together.
const REQUESTS: u32 = 1024;

/// What the upstream server answers.
const ANSWER: &[u8] = b"HTTP/1.1 204 No Content\r\n\r\n";

/// Puts a text and a number at the end.
fn put_number(text: &mut Octets, word: &[u8], number: u64) -> Result<(), OutOfMemory>
    ensures { OnOk result (text.new ≡ text.old ++ (word.now ++ decimal number)) }
{
    text.extend_from_slice(word)?;
    text.extend_from_slice(Buffer::new().format(number).as_bytes())
}

/// Puts the head of the request of a number at the end.
fn put_head(text: &mut Octets, number: u64) -> Result<(), OutOfMemory>
    ensures { OnOk result (text.new ≡ text.old ++ head number) }
{
    put_number(text, b"POST /k", number % 8)?;
    put_number(
        text,
        b" HTTP/1.1\r\nHost: a\r\nContent-Length: ",
        number % 1024,
    )?;
    text.extend_from_slice(b"\r\n\r\n")?;
    Ok(())
}

/// The request of a number.
fn request(alloc: Global, number: u64) -> Result<Octets, OutOfMemory>
    ensures { IfOk result (λ text. text ≡ request number) }
{
    let body = Vec::from_elem(alloc, b'x', (number % 1024) as usize)?;
    let mut text = Octets::new(alloc);
    put_head(&mut text, number)?;
    text.extend_from_slice(body.as_slice())?;
    Ok(text)
}

/// Puts something that happens at moment 0 at the end.
fn put(events: &mut Vec<Event>, what: What) -> Result<(), OutOfMemory>
    ensures { OnOk result (events.new.items ≡ events.old.items ++ at_start what ∷ []) }
{
    events.push(Event { now: 0, what })?;
    Ok(())
}

/// Puts the events of a line at the end: it is opened, sends the request of a number, is answered, and sends nothing more.
fn put_exchange(
    alloc: Global,
    events: &mut Vec<Event>,
    line: LineNo,
    number: u64,
) -> Result<(), OutOfMemory>
    ensures { OnOk result (events.new.items ≡ events.old.items ++ exchange line number) }
{
    let request = request(alloc, number)?;
    let answer = Octets::from_slice(alloc, ANSWER)?;
    put(events, What::Opened { line })?;
    put(
        events,
        What::Bytes {
            line,
            side: Side::Down,
            bytes: request,
        },
    )?;
    put(
        events,
        What::Bytes {
            line,
            side: Side::Up,
            bytes: answer,
        },
    )?;
    put(
        events,
        What::End {
            line,
            side: Side::Down,
        },
    )?;
    Ok(())
}

/// Puts what a worker is given of request i at the end.
fn put_share(
    alloc: Global,
    events: &mut Vec<Event>,
    n: u32,
    who: WorkerNo,
    i: u32,
) -> Result<(), OutOfMemory>
    requires { i < 1024 }
    ensures { OnOk result (events.new.items ≡ events.old.items ++ share n who i) }
{
    if 1 + i % 4 != u32::from(who.get()) {
        return Ok(());
    }
    let Some(line) = LineNo::new(i + 1) else {
        unreachable!()
    };
    put_exchange(alloc, events, line, u64::from(i) + u64::from(n))?;
    Ok(())
}

/// What one of the four workers is given by the generator of a number. A world may give it in this order.
pub fn events(alloc: Global, n: u32, who: WorkerNo) -> Result<Vec<Event>, OutOfMemory>
    requires { who ≤ 4 }
    ensures events { IfOk result (λ events. events.items ≡ events_of n who) }
    ensures order { IfOk result (λ events. AreInOrder nothing_given events.items) }
{
    let mut events = Vec::new(alloc);
    for i in 0..REQUESTS {
        put_share(alloc, &mut events, n, who, i)?;
    }
    put(&mut events, What::Stop)?;
    Ok(events)
}
