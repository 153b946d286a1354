// Calls and asks, and what is told of stores and metrics.
ghost use Rattle.std.specs.Prelude.{◌≡◌, ◌<◌, List, length};
ghost use Rattle.shared_seats.specs.Seats.{AreAt};
ghost use Rattle.shared_seats.specs.Workers.{AreAll, WentOn};
ghost use Rattle.store_model.specs.Made.{Made};

use gate_base::{Octets, OutOfMemory, VmNo};
use gate_io::Gate;
use metric_lines::put_metric_lines;
use metric_seats::MetricsClosed;
use shared_seats::{SeatList, StoreSeat, Tables};
use std::alloc::Global;
use std::mem;
use std::sync::Wait;
use store_model::{Call, MetricAsk, MetricReply, Reply, Shared};

/// What is asked of a VM name: a call on its store, or an ask of its metrics.
#[derive(Drop)]
pub(crate) enum Asked {
    Call(Call),
    Metric(MetricAsk),
}

/// The first VM name, or the second one for any number but 0.
pub(crate) fn vm_of(place: u8) -> VmNo
    ensures { result < 2 }
{
    VmNo::new(if place == 0 { 0 } else { 1 }).unwrap()
}

/// Asks the metrics of the first VM name. Where there is no memory the reply is as where there are no metrics.
pub(crate) fn measure<S: Shared>(alloc: Global, shared: &mut S, asked: &MetricAsk) -> MetricReply
    requires { 0 < S.stores shared.old }
    ensures stores { S.stores shared.new ≡ S.stores shared.old }
    ensures made { (made : List Made) × S.performs shared.old made shared.new }
{
    match shared.metric(alloc, VmNo::new(0).unwrap(), asked) {
        Ok(reply) => reply,
        Err(_) => MetricReply::NotBuilt,
    }
}

/// What a reply of a store says, spelled short.
pub(crate) fn spelled(alloc: Global, reply: &Reply) -> Result<String, OutOfMemory> {
    match reply {
        Reply::Value { value, number } => {
            format!(in alloc; "{:?} under {number}", value.as_slice())
        }
        Reply::Id { queue } => format!(in alloc; "id {}", queue.get()),
        Reply::Item { item } => format!(in alloc; "item {:?}", item.as_slice()),
        Reply::Owed { root, queue } => format!(in alloc; "owed {} {}", root.get(), queue.get()),
        other => format!(in alloc; "{other:?}"),
    }
}

/// Makes a call or asks the metrics, and spells the reply.
pub(crate) fn ask<S: Shared>(
    alloc: Global,
    shared: &mut S,
    vm: VmNo,
    asked: &Asked,
) -> Result<String, OutOfMemory>
    requires { vm < S.stores shared.old }
    ensures stores { S.stores shared.new ≡ S.stores shared.old }
    ensures made { (made : List Made) × S.performs shared.old made shared.new }
{
    match asked {
        Asked::Call(call) => {
            let reply = shared.call(alloc, vm, call)?;
            spelled(alloc, &reply)
        }
        Asked::Metric(asked) => {
            let reply = shared.metric(alloc, vm, asked)?;
            format!(in alloc; "{reply:?}")
        }
    }
}

/// Asks by a worker's seats.
fn ask_over<R: Wait, G: Gate>(
    rt: &R,
    alloc: Global,
    tables: &Tables,
    seats: SeatList,
    vm: VmNo,
    asked: &Asked,
    gate: &G,
) -> (SeatList, Result<String, OutOfMemory>)
    requires { AreAt tables.now seats × (length tables.now.stores ≡ 2) × (vm < 2) }
    ensures { WentOn seats result.0 }
{
    let mut shared = StoreSeat::over(rt, tables, seats, gate);
    let reply = ask(alloc, &mut shared, vm, asked);
    (shared.give_back(), reply)
}

/// Asks by the seats of the worker at a place.
pub(crate) fn ask_by<R: Wait, G: Gate>(
    rt: &R,
    alloc: Global,
    tables: &Tables,
    lists: &mut Vec<SeatList>,
    place: usize,
    vm: VmNo,
    asked: &Asked,
    gate: &G,
) -> Result<String, OutOfMemory>
    requires tables { AreAll tables.now lists.old.items × (length tables.now.stores ≡ 2) }
    requires place { place < length lists.old.items }
    requires vm { vm < 2 }
    ensures all { AreAll tables.now lists.new.items }
    ensures as_many { length lists.new.items ≡ length lists.old.items }
{
    let seats = mem::replace(&mut lists[place], SeatList::new(alloc));
    let (seats, reply) = ask_over(rt, alloc, tables, seats, vm, asked, gate);
    lists[place] = seats;
    reply
}

/// The lines of metrics, under the name `m1`.
pub(crate) fn lines(alloc: Global, metrics: &MetricsClosed) -> Result<String, OutOfMemory> {
    let mut out = Octets::new(alloc);
    put_metric_lines(alloc, &mut out, b"m1", metrics)?;
    match String::from_utf8(out.into_vec()) {
        Ok(text) => Ok(text),
        Err(_) => Ok(String::new(alloc)),
    }
}
