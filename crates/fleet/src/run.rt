// All workers of a configuration.
ghost use Rattle.std.specs.Prelude.{◌≡◌, ◌≤◌, length, All, IfOk, IfErr, IfSome, []};
ghost use Rattle.std.specs.List.{list_any};
ghost use Rattle.fleet.specs.Lives.{first_of};
ghost use Rattle.fleet.specs.Run.{AnyRose, Ran, end_of, has_failed, is_fault, ran_short};
ghost use Rattle.shared_seats.specs.Closed.{ClosedOf};
ghost use Rattle.shared_seats.specs.Workers.{AreAll, AreShut};

use crate::moves::{hand_back, post_all};
use crate::post::{Post, work_posts};
use filter_host::Host;
use gate_config::Config;
use gate_io::{Gate, World};
use shared_seats::{ClosedTables, SeatList, Tables, no_seat_gets_lost};
use std::alloc::Global;
use std::sync::Wait;
use std::thread::Threads;
use vm_factory::MakesHost;
use worker::Turn;

/// Why a fleet did not run to its end.
#[derive(Clone, Copy)]
pub enum FleetEnd {
    /// A world failed.
    WorldFault,
    /// Memory ran out.
    OutOfMemory,
}

/// Whether a world failed.
fn is_fault(turn: Turn) -> bool
    ensures { result ≡ is_fault turn }
{
    matches!(turn, Turn::WorldFault)
}

/// Whether a life of a post's worker ended for want of memory.
fn ran_short<W: World>(post: &Post<W>) -> bool
    ensures { result ≡ ran_short post.now }
{
    matches!(post.end, Turn::OutOfMemory) || post.again
}

/// Whether the world of a post failed.
fn any_failed<W: World>(posts: &[Post<W>]) -> bool
    ensures { result ≡ list_any has_failed posts.now }
{
    posts.iter().any(|post| is_fault(post.end))
}

/// Whether a worker ran out of memory.
fn any_short<W: World>(posts: &[Post<W>]) -> bool
    ensures { result ≡ list_any ran_short posts.now }
{
    posts.iter().any(|post| ran_short(post))
}

/// Why a fleet did not end well, if so: a world that failed counts before want of memory.
fn end_of<W: World>(posts: &[Post<W>]) -> Option<FleetEnd>
    ensures { result ≡ end_of posts.now }
{
    if any_failed(posts) {
        return Some(FleetEnd::WorldFault);
    }
    if any_short(posts) {
        return Some(FleetEnd::OutOfMemory);
    }
    None
}

/// Shuts the tables, and tells what they came to where nothing went wrong.
fn finish(
    end: Option<FleetEnd>,
    tables: Tables,
    lists: Vec<SeatList>,
) -> Result<ClosedTables, FleetEnd>
    requires { AreAll tables lists.items }
    ensures shut { (closed : ClosedOf) × AreShut tables lists.items closed }
    ensures ok { IfOk result (AreShut tables lists.items) }
    ensures err { IfErr result (λ e. end ≡ Some e) }
    ensures none { IfOk result (λ closed. end ≡ None) }
{
    let closed = tables.shut(lists);
    match end {
        Some(end) => Err(end),
        None => Ok(closed),
    }
}

/// How many VMs there are.
fn count_of(config: &Config) -> u8
    ensures count { result ≡ length config.now.vms }
    ensures most { result ≤ 16 }
{
    config.vms.len() as u8
}

/// Runs a worker of the configuration in each of the worlds, each in a thread of its own. A worker that ends is not waited for by the others,
/// which go on until their Stop. The worlds are given back in their order, whatever happens.
pub fn run_fleet<
    R: Threads + Wait + Sync,
    H: Host + Send + Drop,
    M: MakesHost<H> + Sync,
    W: World + Send + Drop,
    G: Gate + Sync,
>(
    rt: &R,
    alloc: Global,
    config: &Config,
    maker: &M,
    worlds: &mut Vec<W>,
    gate: &G,
) -> Result<ClosedTables, FleetEnd>
    requires takes { M.takes maker.now config.now }
    requires fresh { All (λ w. IfSome (W.trace w) (λ trace. trace ≡ [])) worlds.old.items }
    requires worlds { length worlds.old.items ≡ config.now.workers }
    ensures fault { result ≡ Err FleetEnd.WorldFault → AnyRose W.faults worlds.old.items worlds.new.items }
    ensures ran { Ran W.trace W.nature W.faults H.calling (first_of H.exported H.registering config.now (M.made maker.now config.now)) config.now worlds.old.items worlds.new.items result }
    ensures as_many { length worlds.new.items ≡ length worlds.old.items }
    ensures stores { IfOk result (λ closed. length closed.stores ≡ length config.now.vms) }
    ensures metrics { IfOk result (λ closed. length closed.metrics ≡ length config.now.vms) }
{
    let vms = count_of(config);
    let Ok(mut posts) = Vec::with_capacity(alloc, worlds.len()) else {
        return Err(FleetEnd::OutOfMemory);
    };
    let Ok((tables, mut lists)) = Tables::make(alloc, vms, config.workers) else {
        return Err(FleetEnd::OutOfMemory);
    };
    post_all(alloc, worlds, &mut lists, &mut posts);
    work_posts(rt, alloc, config, maker, &tables, gate, &mut posts);
    let end = end_of(posts.as_slice());
    hand_back(worlds, &mut lists, &mut posts);
    no_seat_gets_lost();
    finish(end, tables, lists)
}
