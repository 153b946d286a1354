// The post of a worker.
ghost use Rattle.std.specs.Prelude.{◌≡◌, ◌<◌, ℕ, length, All, slice_index_or, vec_len};
ghost use Rattle.fleet.specs.Fleet.{Each, HasWorked, IsReady};
ghost use Rattle.fleet.specs.Lives.{first_of};

use crate::lives::live;
use crate::watched::Watched;
use filter_host::Host;
use gate_base::WorkerNo;
use gate_config::Config;
use gate_io::{Gate, World};
use shared_seats::{SeatList, StoreSeat, Tables};
use std::alloc::Global;
use std::sync::Wait;
use std::thread::Threads;
use std::{mem, thread};
use vm_factory::MakesHost;
use worker::Turn;

/// A worker's world and its seats, and how its last life ended.
#[derive(Drop)]
pub struct Post<W: World> {
    pub watched: Watched<W>,
    pub seats: SeatList,
    pub who: WorkerNo,
    pub end: Turn,
    /// Whether a life ended for want of memory before the last.
    pub again: bool,
}

/// The lives of the worker of a post.
pub fn work<R: Wait, H: Host + Drop, M: MakesHost<H>, W: World, G: Gate>(
    rt: &R,
    alloc: Global,
    config: &Config,
    maker: &M,
    tables: &Tables,
    gate: &G,
    post: &mut Post<W>,
)
    requires takes { M.takes maker.now config.now }
    requires ready { IsReady tables.now config.now post.old }
    ensures { HasWorked W.trace W.nature W.faults H.calling (first_of H.exported H.registering config.now (M.made maker.now config.now)) post.old post.new }
{
    let seats = mem::replace(&mut post.seats, SeatList::new(alloc));
    let mut shared = StoreSeat::over(rt, tables, seats, gate);
    let (end, again) = live(
        rt,
        alloc,
        config,
        maker,
        post.who,
        &mut post.watched,
        &mut shared,
        gate,
    );
    post.end = end;
    post.again = again;
    post.seats = shared.give_back();
}

/// Each post in a thread of its own.
pub fn work_all<
    R: Threads + Wait + Sync,
    H: Host + Send + Drop,
    M: MakesHost<H> + Sync,
    W: World + Send + Drop,
    G: Gate + Sync,
>(
    rt: &R,
    alloc: Global,
    config: &Config,
    maker: &M,
    tables: &Tables,
    gate: &G,
    posts: &mut [Post<W>],
)
    requires takes { M.takes maker.now config.now }
    requires some { 0 < length posts.old }
    requires ready { All (λ p. IsReady tables.now config.now p) posts.old }
    ensures { (i : ℕ) (d : Post W) → i < length posts.old → HasWorked W.trace W.nature W.faults H.calling (first_of H.exported H.registering config.now (M.made maker.now config.now)) (slice_index_or posts.old i d) (slice_index_or posts.new i d) }
{
    let threads = posts.len();
    thread::for_each_mut(
        rt,
        posts,
        threads,
        &|_, post| { work(rt, alloc, config, maker, tables, gate, post) },
    );
}

/// The same over a list.
pub fn work_posts<
    R: Threads + Wait + Sync,
    H: Host + Send + Drop,
    M: MakesHost<H> + Sync,
    W: World + Send + Drop,
    G: Gate + Sync,
>(
    rt: &R,
    alloc: Global,
    config: &Config,
    maker: &M,
    tables: &Tables,
    gate: &G,
    posts: &mut Vec<Post<W>>,
)
    requires takes { M.takes maker.now config.now }
    requires some { 0 < length posts.old.items }
    requires ready { All (λ p. IsReady tables.now config.now p) posts.old.items }
    ensures each { Each (HasWorked W.trace W.nature W.faults H.calling (first_of H.exported H.registering config.now (M.made maker.now config.now))) posts.old.items posts.new.items }
    ensures len { vec_len posts.new ≡ vec_len posts.old }
{
    work_all(rt, alloc, config, maker, tables, gate, posts.as_mut_slice());
}
