// The outside over sockets.
ghost use Rattle.std.specs.Prelude.{◌≡◌, ◌≤◌, ◌+◌, ℕ, List, Option, [], ◌∷◌, ◌++◌, length, unwrap_or, IfOk};
ghost use Rattle.std.specs.Net.Grammar.{IsSocketText};
ghost use Rattle.gate_io.specs.Told.{Gains};
ghost use Rattle.live_sockets.specs.Homes.{AreHome, AreUnused};
ghost use Rattle.live_sockets.specs.Origins.{Accepts};
ghost use Rattle.gate_live.specs.Sites.{AreNew, AreUntouched, FirstAccepts, IsUntouched, seeds_of};

use crate::LiveWorld;
use crate::seeds::SeedSource;
use crate::stderr::LogStream;
use gate_io::{Settings, Site, SiteEnd};
use live_lines::{Peer, probe};
use live_sockets::{
    AcceptState, Acceptor, Buffers, Mailbox, Neighbor, ORIGIN, Origin, Sockets, TimeSource,
    join_queue,
};
use mio::net::TcpListener;
use mio::{Interest, Poll, Waker};
use std::alloc::Global;
use std::io;
use std::net::{Net, SocketAddr};
use std::sync::{Arc, Wait};

/// The outside over sockets. It tells nothing of content, but keeps the worlds that it was given back.
#[derive(Drop)]
pub struct LiveSite<R> {
    rt: R,
    returned: Vec<LiveWorld<R, Peer>>,
    out: usize,
    faults: u64,
}

/// Why a site is not started where a call of the system failed.
fn end_of(e: io::Error) -> SiteEnd {
    match e.kind() {
        io::ErrorKind::OutOfMemory => SiteEnd::OutOfMemory,
        _ => SiteEnd::Failed,
    }
}

impl<R> LiveSite<R> {
    /// The sockets that this handle of the runtime reaches.
    pub fn new(alloc: Global, rt: R) -> Self {
        LiveSite {
            rt,
            returned: Vec::new(alloc),
            out: 0,
            faults: 0,
        }
    }
}

/// The address that a text spells.
fn address_of(text: &str) -> Result<SocketAddr, SiteEnd>
    ensures { IfOk result (IsSocketText text.now) }
{
    match text.parse::<SocketAddr>() {
        Ok(address) => Ok(address),
        Err(_) => Err(SiteEnd::Failed),
    }
}

/// What a world has beside its poll and its origin.
#[derive(Drop)]
struct Ground<R> {
    rt: R,
    seed: [u8; 32],
    buffers: Buffers<Peer>,
}

/// What a world has beside its poll and its origin, with this seed and a handle of the runtime of its own.
fn ground_of<R: Clone + Drop>(alloc: Global, rt: &R, seed: [u8; 32]) -> Result<Ground<R>, SiteEnd>
    ensures seed { IfOk result (λ ground. ground.seed ≡ seed) }
{
    let rt = rt.clone()?;
    let buffers = Buffers::new(alloc)?;
    Ok(Ground { rt, seed, buffers })
}

/// A world over a poll, whose lines come from an origin that it watches.
fn world_of<R: Drop>(
    ground: Ground<R>,
    poll: Poll,
    origin: Origin,
    upstream: SocketAddr,
) -> LiveWorld<R, Peer>
    ensures untouched { IsUntouched upstream result }
    ensures seed { result.seed ≡ ground.seed }
    ensures origin { result.sockets.origin ≡ origin }
{
    let Ground { rt, seed, buffers } = ground;
    LiveWorld::new(rt, seed, Sockets::new(poll, origin, upstream, buffers))
}

/// A poll.
fn poll_of<R: Net>(rt: &R) -> Result<Poll, SiteEnd> {
    Poll::new(rt).map_err(end_of)
}

/// A waker of a poll.
fn waker_of(poll: &Poll) -> Result<Waker, SiteEnd> {
    Waker::new(poll.registry(), ORIGIN).map_err(end_of)
}

/// A listener at this address.
fn listener_at<R: Net>(rt: &R, listen: SocketAddr) -> Result<TcpListener, SiteEnd> {
    let listener = TcpListener::bind(rt, listen).map_err(end_of)?;
    probe(&listener);
    Ok(listener)
}

/// Has a poll watch a listener.
fn watch(poll: &Poll, listener: &mut TcpListener) -> Result<(), SiteEnd> {
    poll.registry()
        .register(listener, ORIGIN, Interest::READABLE)
        .map_err(end_of)
}

/// A poll that watches a listener at this address.
fn listening_poll<R: Net>(rt: &R, listen: SocketAddr) -> Result<(Poll, TcpListener), SiteEnd> {
    let poll = poll_of(rt)?;
    let mut listener = listener_at(rt, listen)?;
    watch(&poll, &mut listener)?;
    Ok((poll, listener))
}

/// A poll with its waker, with which a queue is made.
fn waking_poll<R: Net>(
    alloc: Global,
    rt: &R,
    stage: &Arc<AcceptState>,
) -> Result<(Poll, Neighbor, Mailbox), SiteEnd>
    ensures offered { IfOk result (λ ends. ends.1.giver.lines ≡ []) }
{
    let stage = Arc::try_clone(stage)?;
    let poll = poll_of(rt)?;
    let waker = waker_of(&poll)?;
    let (neighbor, mailbox) = join_queue(alloc, waker, stage)?;
    Ok((poll, neighbor, mailbox))
}

/// A world with this seed, to which lines are handed over, and the queue to it.
fn other_world<R: Net + Clone + Drop>(
    alloc: Global,
    rt: &R,
    seed: [u8; 32],
    upstream: SocketAddr,
    stage: &Arc<AcceptState>,
) -> Result<(Neighbor, LiveWorld<R, Peer>), SiteEnd>
    ensures untouched { IfOk result (λ w. IsUntouched upstream w.1) }
    ensures seed { IfOk result (λ w. w.1.seed ≡ seed) }
    ensures offered { IfOk result (λ w. w.0.giver.lines ≡ []) }
{
    let ground = ground_of(alloc, rt, seed)?;
    let (poll, neighbor, mailbox) = waking_poll(alloc, rt, stage)?;
    let world = world_of(ground, poll, Origin::Mailbox(mailbox), upstream);
    Ok((neighbor, world))
}

/// Puts a world with this seed, to which lines are handed over, after others, and the queue to it after theirs.
fn add_world<R: Net + Clone + Drop>(
    alloc: Global,
    rt: &R,
    seed: [u8; 32],
    upstream: SocketAddr,
    stage: &Arc<AcceptState>,
    others: &mut Vec<Neighbor>,
    worlds: &mut Vec<LiveWorld<R, Peer>>,
) -> Result<(), SiteEnd>
    ensures untouched { AreUntouched upstream worlds.old.items → IfOk result (λ _. AreUntouched upstream worlds.new.items) }
    ensures seeds { IfOk result (λ _. seeds_of worlds.new.items ≡ seeds_of worlds.old.items ++ seed ∷ []) }
    ensures count { IfOk result (λ _. length worlds.new.items ≡ length worlds.old.items + 1) }
    ensures offered { AreUnused others.old.items → IfOk result (λ _. AreUnused others.new.items) }
{
    let (neighbor, world) = other_world(alloc, rt, seed, upstream, stage)?;
    others.push(neighbor)?;
    worlds.push(world)?;
    Ok(())
}

/// Puts the worlds of workers 2 and up, to which lines are handed over, after others, and the queues to them after theirs. A seed is drawn for each.
fn other_worlds<R: Net + SeedSource + Clone + Drop>(
    alloc: Global,
    rt: &mut R,
    count: u8,
    upstream: SocketAddr,
    stage: &Arc<AcceptState>,
    others: &mut Vec<Neighbor>,
    worlds: &mut Vec<LiveWorld<R, Peer>>,
) -> Result<(), SiteEnd>
    ensures untouched { AreUntouched upstream worlds.old.items → IfOk result (λ _. AreUntouched upstream worlds.new.items) }
    ensures seeds { (first : Option (List (List ℕ))) → Gains first (seeds_of worlds.old.items) (R.drawn rt.old) → IfOk result (λ _. Gains first (seeds_of worlds.new.items) (R.drawn rt.new)) }
    ensures count { IfOk result (λ _. length worlds.new.items ≡ length worlds.old.items + count) }
    ensures offered { AreUnused others.old.items → IfOk result (λ _. AreUnused others.new.items) }
{
    for _ in 0..count {
        let seed = rt.draw_seed()?;
        add_world(alloc, rt, seed, upstream, stage, others, worlds)?;
    }
    Ok(())
}

/// What the world of worker 1 has, with this seed and a poll that watches a listener at the settings' address.
fn listening<R: Net + Clone + Drop>(
    alloc: Global,
    rt: &R,
    seed: [u8; 32],
    settings: &Settings,
) -> Result<(Ground<R>, Poll, TcpListener), SiteEnd>
    ensures seed { IfOk result (λ it. it.0.seed ≡ seed) }
{
    let listen = address_of(settings.listen.as_str())?;
    let ground = ground_of(alloc, rt, seed)?;
    let (poll, listener) = listening_poll(rt, listen)?;
    Ok((ground, poll, listener))
}

/// The world of worker 1, with this seed, which listens, and hands lines over to the others.
fn first_world<R: Net + Clone + Drop>(
    alloc: Global,
    rt: &R,
    seed: [u8; 32],
    settings: &Settings,
    upstream: SocketAddr,
    others: Vec<Neighbor>,
    stage: Arc<AcceptState>,
) -> Result<LiveWorld<R, Peer>, SiteEnd>
    requires { AreHome 0 others.items }
    ensures untouched { IfOk result (λ w. IsUntouched upstream w) }
    ensures seed { IfOk result (λ w. w.seed ≡ seed) }
    ensures accepts { IfOk result (λ w. Accepts (unwrap_or settings.now.stop_after 4294967295) w.sockets.origin) }
{
    let (ground, poll, listener) = listening(alloc, rt, seed, settings)?;
    let most = settings.stop_after.unwrap_or(u32::MAX);
    let origin = Origin::Listener(Acceptor::new(listener, most, others, stage));
    Ok(world_of(ground, poll, origin, upstream))
}

/// Puts a world for each worker where there is none, in their order, each with a seed that is drawn for it.
#[tactic(auto, using(crate::proofs::Worlds::home))]
fn fill<R: Net + SeedSource + Clone + Drop>(
    alloc: Global,
    rt: &mut R,
    settings: &Settings,
    upstream: SocketAddr,
    worlds: &mut Vec<LiveWorld<R, Peer>>,
) -> Result<(), SiteEnd>
    requires some { 1 ≤ settings.now.workers }
    requires none { worlds.old.items ≡ [] }
    ensures untouched { IfOk result (λ _. AreUntouched upstream worlds.new.items) }
    ensures seeds { IfOk result (λ _. Gains (R.drawn rt.old) (seeds_of worlds.new.items) (R.drawn rt.new)) }
    ensures count { IfOk result (λ _. length worlds.new.items ≡ settings.now.workers) }
    ensures accepts { IfOk result (λ _. FirstAccepts (unwrap_or settings.now.stop_after 4294967295) worlds.new.items) }
{
    let stage = Arc::new(alloc, AcceptState::new())?;
    let seed = rt.draw_seed()?;
    let mut others = Vec::new(alloc);
    let count = settings.workers - 1;
    other_worlds(alloc, rt, count, upstream, &stage, &mut others, worlds)?;
    let first = first_world(alloc, rt, seed, settings, upstream, others, stage)?;
    worlds.insert(0, first)?;
    Ok(())
}

/// Listens, and makes a world for each worker.
fn worlds_of<R: Net + SeedSource + Clone + Drop>(
    alloc: Global,
    rt: &mut R,
    settings: &Settings,
) -> Result<Vec<LiveWorld<R, Peer>>, SiteEnd>
    ensures untouched { IfOk result (λ worlds. AreNew settings.now.upstream worlds.items) }
    ensures seeds { IfOk result (λ worlds. Gains (R.drawn rt.old) (seeds_of worlds.items) (R.drawn rt.new)) }
    ensures count { IfOk result (λ worlds. length worlds.items ≡ settings.now.workers) }
    ensures accepts { IfOk result (λ worlds. FirstAccepts (unwrap_or settings.now.stop_after 4294967295) worlds.items) }
{
    if settings.workers == 0 {
        return Err(SiteEnd::Failed);
    }
    let upstream = address_of(settings.upstream.as_str())?;
    let mut worlds = Vec::new(alloc);
    fill(alloc, rt, settings, upstream, &mut worlds)?;
    Ok(worlds)
}

impl<R: Net + TimeSource + Wait + SeedSource + LogStream + Clone + Send + Drop> Site
    for LiveSite<R> {
    type W = LiveWorld<R, Peer>;

    ghost use Rattle.std.specs.Prelude.{◌≡◌, ◌≤◌, None, length, unwrap_or, All, IfOk, OnErr};
    ghost use Rattle.gate_io.specs.Sites.{IsFresh};
    ghost use Rattle.gate_io.specs.Told.{Gains, Rose};
    ghost use Rattle.gate_live.specs.Sites.{AreNew, FirstAccepts, seeds_of};

    ghost started = { λ _. None };

    ghost seeds = { λ _. None };

    ghost returned = { λ s. s.returned.items };

    ghost out = { λ s. s.out };

    ghost faults = { λ s. s.faults };

    fn start(
        &mut self,
        alloc: Global,
        settings: &Settings,
    ) -> Result<Vec<LiveWorld<R, Peer>>, SiteEnd>
        ensures count { IfOk result (λ worlds. length worlds.items ≡ settings.now.workers) }
        ensures untouched { IfOk result (λ worlds. AreNew settings.now.upstream worlds.items) }
        ensures drawn { IfOk result (λ worlds. Gains (R.drawn self.old.rt) (seeds_of worlds.items) (R.drawn self.new.rt)) }
        ensures accepts { IfOk result (λ worlds. FirstAccepts (unwrap_or settings.now.stop_after 4294967295) worlds.items) }
        ensures fresh { IfOk result (λ worlds. All (λ w. IsFresh None (record { now = w.now; stopped = w.stopped }) w.faults) worlds.items) }
        ensures out { IfOk result (λ worlds. self.new.out ≡ length worlds.items) }
        ensures none_out { OnErr result (self.new.out ≡ self.old.out) }
        ensures returned { self.new.returned.items ≡ self.old.returned.items }
        ensures faults { self.old.faults ≤ self.new.faults }
        ensures failed { result ≡ Err SiteEnd.Failed → Rose self.old.faults self.new.faults }
    {
        let answer = worlds_of(alloc, &mut self.rt, settings);
        match &answer {
            Ok(worlds) => self.out = worlds.len(),
            Err(SiteEnd::Failed) => self.faults = self.faults.saturating_add(1),
            Err(SiteEnd::OutOfMemory) => {}
        }
        answer
    }

    fn give_back(&mut self, worlds: Vec<LiveWorld<R, Peer>>)
        ensures returned { self.new.returned.items ≡ worlds.items }
        ensures out { self.new.out ≡ 0 }
        ensures faults { self.new.faults ≡ self.old.faults }
    {
        self.returned = worlds;
        self.out = 0;
    }
}
