// What one line wants, and what lines ask of the world together.
ghost use Rattle.std.specs.Prelude.{◌≡◌, ◌≤◌, [], true, false, None, Some, OnOk, option_copied, if◌then◌else◌, length, take, ◌+◌, ◌++◌, ◌∷◌};
ghost use Rattle.std.specs.Option.{option_map};
ghost use Rattle.worker_model.specs.Steps.{line_reading};
ghost use Rattle.gate_io.specs.declared.event.Side.TheVariants.{Down, Up};
ghost use Rattle.worker_model.specs.Wants.{earlier, has_room, reads_more, is_wanted, wanted_of, due_on, with_lines};
ghost use Rattle.worker_lines.specs.Wishes.{takes_more, takes_up, falls_due, wish_of, lines_with, with_wishes};

use crate::lines::Lines;
use exchange::Exchange;
use gate_base::{LineList, LineNo, OutOfMemory};
use gate_io::{Side, Wants};
use h1_stream::MessageReader;
use send_queue::Outbox;
use worker_model::{Line, Wish};

/// So many bytes of a side's text that are unread are enough.
const ENOUGH: usize = 65_536;

/// Whether less than 65,536 bytes wait on a side of a line, looked for near the place of the last one.
fn has_room(outbox: &Outbox, side: Side, line: &Line, near: &mut usize) -> bool
    ensures { result ≡ has_room outbox.now side line.now }
{
    !outbox.is_full_near(line.number, side, near)
}

/// Whether less than 65,536 bytes of a text are unread.
fn reads_more(reader: Option<&MessageReader>) -> bool
    ensures { result ≡ reads_more (option_copied reader.entry) }
{
    match reader {
        None => false,
        Some(reader) => reader.unread_len() < ENOUGH,
    }
}

/// The reader of a side of a line.
fn reader_of(line: &Line, up: bool) -> Option<&MessageReader>
    ensures { option_copied result ≡ line_reading up (Some line.now) }
{
    if !up {
        return Some(&line.requests);
    }
    match &line.exchange {
        None => None,
        Some(x) => match &x.reader {
            None => None,
            Some(reader) => Some(reader),
        },
    }
}

/// Whether bytes of the sides of a line are taken, its client's and its server's. What waits for it is looked for near that of the last one.
fn are_wanted(outbox: &Outbox, line: &Line, near: &mut usize) -> (bool, bool)
    ensures down { result.0 ≡ is_wanted Down outbox.now line.now }
    ensures up { result.1 ≡ is_wanted Up outbox.now line.now }
{
    let is_open = has_room(outbox, Side::Down, line, near);
    let down = (is_open && has_room(outbox, Side::Up, line, near))
        && reads_more(reader_of(line, false));
    (down, is_open && reads_more(reader_of(line, true)))
}

/// The earlier of two moments, of which each may be none.
pub fn earlier(a: Option<u64>, b: Option<u64>) -> Option<u64>
    ensures { result ≡ earlier a b }
{
    match a {
        None => b,
        Some(x) => match b {
            None => Some(x),
            Some(y) => { if x <= y { Some(x) } else { Some(y) } }
        },
    }
}

/// When the response of an exchange is due.
fn due_on(x: &Option<Exchange>) -> Option<u64>
    ensures of_world { result ≡ due_on x.now }
    ensures of_line { result ≡ falls_due x.now }
{
    match x {
        None => None,
        Some(x) => {
            if x.is_headed || x.is_answered {
                None
            } else {
                x.due
            }
        }
    }
}

/// Whether less than 65,536 bytes of a reader's text are unread.
fn takes_more(reader: &MessageReader) -> bool
    ensures { result ≡ takes_more reader.now }
{
    reader.unread_len() < ENOUGH
}

/// The same of the server's text, if there is a connection.
fn takes_up(x: &Option<Exchange>) -> bool
    ensures { result ≡ takes_up x.now }
{
    match x {
        None => false,
        Some(x) => match &x.reader {
            None => false,
            Some(reader) => takes_more(reader),
        },
    }
}

/// What a line wants where nothing waits for its peers.
pub(crate) fn wish_of(line: &Line) -> Wish
    ensures { result ≡ wish_of line.now }
{
    Wish {
        number: line.number,
        down: takes_more(&line.requests),
        up: takes_up(&line.exchange),
        due: due_on(&line.exchange),
    }
}

/// Takes numbers off a list until so many are left. It keeps its memory.
pub fn cut(numbers: &mut LineList, count: usize)
    requires { count ≤ length numbers.old }
    ensures { numbers.new ≡ take count numbers.old }
{
    while numbers.len() > count {
        let _ = numbers.pop();
    }
}

/// A number stands at a place of a list, and is not written where it does already. What stands after it does not count.
fn put_at(numbers: &mut LineList, at: usize, number: LineNo) -> Result<(), OutOfMemory>
    requires { at ≤ length numbers.old }
    ensures there { OnOk result (take (at + 1) numbers.new ≡ take at numbers.old ++ number ∷ []) }
    ensures length { OnOk result (at + 1 ≤ length numbers.new) }
{
    if at < numbers.len() && *numbers.get(at) == number {
        return Ok(());
    }
    cut(numbers, at);
    numbers.push(number)
}

/// What lines want by what is known of each, where nothing waits. What stands in the lists already is not written again.
pub(crate) fn wished_on(
    due: Option<u64>,
    each: &[Wish],
    wants: &mut Wants,
) -> Result<(), OutOfMemory>
    ensures down { OnOk result (wants.new.down ≡ lines_with (λ w. w.down) each.now) }
    ensures up { OnOk result (wants.new.up ≡ lines_with (λ w. w.up) each.now) }
    ensures due { OnOk result (wants.new.due ≡ with_wishes due each.now) }
{
    let mut downs = 0;
    let mut ups = 0;
    let mut first = due;
    for wish in each {
        if wish.down {
            put_at(&mut wants.down, downs, wish.number)?;
            downs += 1;
        }
        if wish.up {
            put_at(&mut wants.up, ups, wish.number)?;
            ups += 1;
        }
        first = earlier(first, wish.due);
    }
    cut(&mut wants.down, downs);
    cut(&mut wants.up, ups);
    wants.due = first;
    Ok(())
}

/// When the first response is due that lines wait for, by what is known of each.
pub(crate) fn first_of(each: &[Wish]) -> Option<u64>
    ensures { result ≡ with_wishes None each.now }
{
    let mut first = None;
    for wish in each {
        first = earlier(first, wish.due);
    }
    first
}

/// What lines want, each looked at once: of which bytes are taken.
pub fn wants_on(outbox: &Outbox, lines: &[Line], wants: &mut Wants) -> Result<(), OutOfMemory>
    ensures down { OnOk result (wants.new.down ≡ wanted_of Down outbox.now lines.now) }
    ensures up { OnOk result (wants.new.up ≡ wanted_of Up outbox.now lines.now) }
{
    cut(&mut wants.down, 0);
    cut(&mut wants.up, 0);
    // Lines come in the order of their numbers.
    let mut near = 0;
    for line in lines {
        let wanted = are_wanted(outbox, line, &mut near);
        if wanted.0 {
            wants.down.push(line.number)?;
        }
        if wanted.1 {
            wants.up.push(line.number)?;
        }
    }
    Ok(())
}

/// The earliest of a moment and of lines' responses.
fn with_each(due: Option<u64>, lines: &[Line]) -> Option<u64>
    ensures { result ≡ with_lines due lines.now }
{
    let mut first = due;
    for line in lines {
        first = earlier(first, due_on(&line.exchange));
    }
    first
}

/// The earliest of a moment and of lines' responses, by what is known of the lines already.
#[tactic(auto, using(crate::proofs::Listing::first_line))]
pub fn with_lines(due: Option<u64>, lines: &Lines) -> Option<u64>
    ensures { result ≡ with_lines due lines.now }
{
    match lines.first_due() {
        None => with_each(due, lines.as_slice()),
        Some(first) => earlier(due, first),
    }
}
