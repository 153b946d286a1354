// The callouts under way.
ghost use Rattle.std.specs.Prelude.{◌≡◌, ◌==◌, ◌<◌, length, OnOk, OnErr, IfOk};
ghost use Rattle.std.specs.List.{position};
ghost use Rattle.callouts.specs.Callouts.{is_full, due_at, callout_in, without};
ghost use Rattle.callouts.specs.Steps.{after_event, place_of, ReadsOn, AtPlace, ComesAs, HearsTo};

use crate::lines::{LAST_ID, id_at, line_in};
use crate::reading::{come, hear};
use crate::types::{CallStep, Callout};
use gate_base::OutOfMemory;
use gate_io::What;
use gate_queue::Queue;
use std::alloc::Global;

/// How many callouts are under way at most.
const MOST_UNDER_WAY: usize = 64;

/// Whether so many more find no room, where so many are under way and this id was drawn last.
pub fn is_full(more: u32, under_way: usize, last: u32) -> bool
    ensures { result ≡ is_full more under_way last }
{
    under_way.saturating_add(more as usize) >= MOST_UNDER_WAY
        || last.saturating_add(more) >= LAST_ID
}

/// Where the callout of an id stands.
fn place_in(calls: &[Callout], id: u32) -> Option<usize>
    ensures { result ≡ position (λ (c : Callout). c.id == id) calls.now }
{
    calls.iter().position(|c| c.id == id)
}

/// Takes the callout of an id out, if it is under way.
pub fn take(calls: &mut Queue<Callout>, id: u32) -> Option<Callout>
    ensures value { result ≡ callout_in id calls.old }
    ensures rest { calls.new ≡ without id calls.old }
{
    match place_in(calls.as_slice(), id) {
        None => None,
        Some(at) => Some(calls.remove(at)),
    }
}

/// The ids of the callouts that are due, rising.
pub fn due_at(alloc: Global, calls: &[Callout], now: u64) -> Result<Queue<u32>, OutOfMemory>
    ensures { IfOk result (λ ids. ids ≡ due_at now calls.now) }
{
    let mut ids = Queue::new(alloc);
    for c in calls {
        if c.due <= now {
            ids.push(c.id)?;
        }
    }
    Ok(ids)
}

/// Something comes of the line of the callout at a place.
fn come_at(
    items: &mut Vec<Callout>,
    at: usize,
    what: &What,
) -> Result<Option<CallStep>, OutOfMemory>
    requires { at < length items.old.items }
    ensures ok { IfOk result (λ next. AtPlace (ComesAs what.now next) at items.old.items items.new.items) }
    ensures err { OnErr result (items.new.items ≡ items.old.items) }
{
    come(&mut items[at], what)
}

/// The reader of the callout at a place is heard.
fn hear_at(items: &mut Vec<Callout>, at: usize) -> Result<Option<CallStep>, OutOfMemory>
    requires { at < length items.old.items }
    ensures { IfOk result (λ next. AtPlace (HearsTo next) at items.old.items items.new.items) }
{
    hear(&mut items[at])
}

/// The same of the queue, whose members are moved and not copied.
fn come_in(
    alloc: Global,
    calls: &mut Queue<Callout>,
    at: usize,
    what: &What,
) -> Result<Option<CallStep>, OutOfMemory>
    requires { at < length calls.old }
    ensures ok { IfOk result (λ next. AtPlace (ComesAs what.now next) at calls.old calls.new) }
    ensures err { OnErr result (calls.new ≡ calls.old) }
{
    let taken = std::mem::replace(calls, Queue::new(alloc));
    let mut items = taken.into_vec();
    let next = come_at(&mut items, at, what);
    *calls = Queue::from_vec(items);
    next
}

/// The same of the queue.
fn hear_in(
    alloc: Global,
    calls: &mut Queue<Callout>,
    at: usize,
) -> Result<Option<CallStep>, OutOfMemory>
    requires { at < length calls.old }
    ensures { IfOk result (λ next. AtPlace (HearsTo next) at calls.old calls.new) }
{
    let taken = std::mem::replace(calls, Queue::new(alloc));
    let mut items = taken.into_vec();
    let next = hear_at(&mut items, at);
    *calls = Queue::from_vec(items);
    next
}

/// Where the callout stands whose line an event is of.
pub(crate) fn place_of(calls: &[Callout], what: &What) -> Option<usize>
    ensures { result ≡ place_of what.now calls.now }
{
    match line_in(what) {
        None => None,
        Some(line) => place_in(calls, id_at(line)),
    }
}

/// Something comes of the line of a callout, if one is under way there: it is fed to its reader, or the callout fails, or nothing comes of
/// it. What is done next is said, if anything is.
pub fn comes(
    alloc: Global,
    calls: &mut Queue<Callout>,
    what: &What,
) -> Result<Option<CallStep>, OutOfMemory>
    ensures calls { OnOk result (calls.new ≡ (after_event what.now calls.old).calls) }
    ensures next { IfOk result (λ next. next ≡ (after_event what.now calls.old).next) }
    ensures err { OnErr result (calls.new ≡ calls.old) }
{
    match place_of(calls.as_slice(), what) {
        None => Ok(None),
        Some(at) => come_in(alloc, calls, at, what),
    }
}

/// The reader of a callout is heard, once: one part of its response, or that there is none. What is done next is said, if anything is.
/// Where memory is out, the part that was heard is lost.
pub fn read(
    alloc: Global,
    calls: &mut Queue<Callout>,
    id: u32,
) -> Result<Option<CallStep>, OutOfMemory>
    ensures { IfOk result (λ next. ReadsOn id (callout_in id calls.old) calls.old next calls.new) }
{
    match place_in(calls.as_slice(), id) {
        None => Ok(None),
        Some(at) => hear_in(alloc, calls, at),
    }
}
