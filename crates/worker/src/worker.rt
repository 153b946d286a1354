// A worker, and its turns.
ghost use Rattle.worker_model.specs.Plan.{plan_of};
ghost use Rattle.std.specs.Prelude.{◌≡◌, ◌≤◌, ◌++◌, IsTrue, length, [], IfOk, OnOk, true};
ghost use Rattle.filter_host.specs.Course.{Ends};
ghost use Rattle.gate_io.specs.Told.{Rose};
ghost use Rattle.send_queue.specs.Delivery.{Offered};
ghost use Rattle.send_queue.specs.Joined.{join_neighbours};
ghost use Rattle.worker.specs.Filled.{filled, event_of};
ghost use Rattle.worker_model.specs.Making.{new_worker};
ghost use Rattle.worker_model.specs.Settling.{is_rest};
ghost use Rattle.worker_model.specs.State.{rules_of};
ghost use Rattle.worker_model.specs.Steps.{both};
ghost use Rattle.worker_model.specs.Turn.{room_for_event, most_steps};
ghost use Rattle.worker_model.specs.Turned.{TookWhole};
ghost use Rattle.streams_model.specs.Turn.{settles_for, next_for};
ghost use Rattle.streams_model.specs.Turned.{Turned, TurnedOn};

use crate::agenda::agenda_of;
use crate::asking::ask;
use crate::making_worker::parts_of;
use crate::picking::settle_all;
use filter_host::Host;
use gate_base::{Members, OutOfMemory, WorkerNo};
use gate_config::Config;
use gate_io::{Event, Sent, Wants, What, World, WorldEnd};
use gate_queue::Queue;
use send_queue::Outbox;
use std::alloc::Global;
use std::marker::Model;
use store_model::Shared;
use worker_model::{Rules, Turn};
use worker_room::Room;

/// A worker: its machines, its lines and contexts, and what waits until its world takes it. Clauses see what it was made with, its machines
/// and the rest of it, what waits, and whether it took an event.
#[derive(Drop)]
pub struct Worker<H> {
    rules: Rules,
    who: WorkerNo,
    seed: [u8; 32],
    host: H,
    room: Room,
    outbox: Outbox,
    took: bool,
    /// What it asked its world for where the lists that are kept would not do, of which the memory is used again.
    wants: Wants,
}

impl<H> Model for Worker<H> {
    ghost use Rattle.worker_model.specs.State.{Standing};

    ghost Value = { Standing H };

    ghost view = { λ w. record {
      setting = record { config = w.rules.config; who = w.who; seed = w.seed; bodies = w.rules.bodies; registers = w.rules.registers };
      state = record { host = w.host; room = w.room };
      waiting = w.outbox;
      took = w.took;
    } };
}

impl<H: Host + Drop> Worker<H> {
    /// A worker that has done nothing, over these machines.
    pub fn new(
        alloc: Global,
        config: Config,
        who: WorkerNo,
        seed: [u8; 32],
        host: H,
    ) -> Result<Self, OutOfMemory>
        ensures { IfOk result (λ worker. worker ≡ new_worker H.exported H.registering config who seed host) }
    {
        let (bodies, registers, room) = match parts_of(alloc, &host, &config, seed) {
            Ok(parts) => parts,
            Err(end) => {
                drop(config);
                drop(host);
                return Err(end);
            }
        };
        let rules = Rules {
            config,
            bodies,
            registers,
        };
        Ok(Worker {
            rules,
            who,
            seed,
            host,
            room,
            outbox: Outbox::new(alloc),
            took: false,
            wants: Wants {
                down: Members::new(alloc),
                up: Members::new(alloc),
                due: None,
            },
        })
    }

    /// Whether it took an event.
    pub fn took(&self) -> bool
        ensures { result ≡ self.now.took }
    {
        self.took
    }

    /// Takes one event of the world, and hands over what it sends. After want of memory the worker is to be used no more.
    pub fn turn<W: World, S: Shared>(
        &mut self,
        alloc: Global,
        world: &mut W,
        shared: &mut S,
    ) -> Turn
        requires stores { length self.old.setting.config.vms ≤ S.stores shared.old }
        requires needs { H.needs self.old.state.host ≤ S.stores shared.old }
        ensures setting { self.new.setting ≡ self.old.setting }
        ensures needs { H.needs self.new.state.host ≡ H.needs self.old.state.host }
        ensures stores { S.stores shared.new ≡ S.stores shared.old }
        ensures nature { W.nature world.new ≡ W.nature world.old }
        ensures faults { W.faults world.old ≤ W.faults world.new }
        ensures fault { result ≡ Turn.WorldFault → Rose (W.faults world.old) (W.faults world.new) }
        ensures whole { IsTrue (W.nature world.old).takes_whole → result ≡ Turn.Went → TookWhole (W.trace world.old) (W.trace world.new) }
        ensures turned { Turned H.calling S.performs shared.old (W.trace world.old) self.old result self.new shared.new (W.trace world.new) }
        ensures heard { TurnedOn H.calling S.performs (W.nature world.old).obeys (W.last world.old) (W.last world.new) shared.old (W.trace world.old) self.old result self.new shared.new (W.trace world.new) }
    {
        let event = match ask(
            alloc,
            &self.rules,
            &mut self.room,
            &self.outbox,
            &mut self.wants,
            world,
        ) {
            Ok(event) => event,
            Err(WorldEnd::Failed) => return Turn::WorldFault,
            Err(WorldEnd::OutOfMemory) => return Turn::OutOfMemory,
        };
        self.took = true;
        if let What::Stop = event.what {
            return Turn::Stopped;
        }
        self.outbox.clear(&event.what);
        let Ok(sent) = react(
            alloc,
            &self.rules,
            &mut self.host,
            &mut self.room,
            event,
            shared,
        ) else {
            return Turn::OutOfMemory;
        };
        match deliver(alloc, &mut self.outbox, world, sent) {
            Ok(()) => Turn::Went,
            Err(_) => return Turn::OutOfMemory,
        }
    }
}

/// Does all that comes of an event: what it sends.
fn react<H: Host, S: Shared>(
    alloc: Global,
    rules: &Rules,
    host: &mut H,
    room: &mut Room,
    event: Event,
    shared: &mut S,
) -> Result<Vec<Sent>, OutOfMemory>
    requires needs { H.needs host.old ≤ S.stores shared.old }
    requires stores { (plan_of rules.now).vms ≤ S.stores shared.old }
    ensures needs { H.needs host.new ≡ H.needs host.old }
    ensures stores { S.stores shared.new ≡ S.stores shared.old }
    ensures empty { IfOk result (λ sent. room.new.hub.sent ≡ []) }
    ensures rest { IfOk result (λ sent. is_rest (next_for (plan_of rules.now) room.new) ≡ true) }
    ensures run { Ends S.performs shared.old (settles_for H.calling (plan_of rules.now) most_steps host.old (room_for_event (plan_of rules.now) event room.old)) (λ sent. both host.new (filled sent.items room.new)) result shared.new }
{
    face(alloc, rules, event.now, event.what, room)?;
    settle_all(alloc, host, rules, room, u64::MAX, shared)?;
    Ok(take_sent(alloc, room))
}

/// Delivers what a turn sends, where what its event ended was dropped.
fn deliver<W: World>(
    alloc: Global,
    outbox: &mut Outbox,
    world: &mut W,
    sent: Vec<Sent>,
) -> Result<(), OutOfMemory>
    ensures last { W.last world.new ≡ W.last world.old }
    ensures nature { W.nature world.new ≡ W.nature world.old }
    ensures faults { W.faults world.old ≤ W.faults world.new }
    ensures offered { Offered (W.nature world.old).takes_whole (W.trace world.old) [] (outbox.old ++ join_neighbours sent.items) result (W.trace world.new) outbox.new }
{
    outbox.deliver(alloc, world, &What::Clock, sent)
}

/// The parts of a turn are to come.
fn face(
    alloc: Global,
    rules: &Rules,
    now: u64,
    what: What,
    room: &mut Room,
) -> Result<(), OutOfMemory>
    ensures { OnOk result (room.new ≡ room_for_event (plan_of rules.now) (event_of now what) room.old) }
{
    room.hub.moment = now;
    let agenda = agenda_of(alloc, rules, what, room)?;
    room.agenda = agenda;
    room.is_begun = true;
    Ok(())
}

/// Takes out what is sent, and looks at what lines want from now on.
fn take_sent(alloc: Global, room: &mut Room) -> Vec<Sent>
    ensures room { filled result.items room.new ≡ room.old }
    ensures empty { room.new.hub.sent ≡ [] }
{
    room.lines.renew();
    std::mem::replace(&mut room.hub.sent, Queue::new(alloc)).into_vec()
}
