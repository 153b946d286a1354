// A world, and which of its connections stand.
ghost use Rattle.std.specs.Prelude.{◌≡◌, ◌&&◌, ◌||◌, not, ◌<◌, ◌≤◌, [], true, false, IfSome, IfNone, OnOk, vec_len, vec_capacity};
ghost use Rattle.fleet.specs.Closing.{Closes, ClosesAll, after_event, connection, is_in, is_one, rank};
ghost use Rattle.fleet.specs.declared.watched.Connection.{Connection};

use gate_base::{Level, LineNo, OutOfMemory};
use gate_io::{Event, Side, Wants, What, World, WorldEnd};
use std::alloc::Global;
use std::marker::Model;

/// A connection: to the client of a line, or to the server.
#[derive(Clone, Copy)]
pub struct Connection {
    pub line: LineNo,
    pub side: Side,
}

/// Whether both are one.
fn is_one(one: &Connection, other: &Connection) -> bool
    ensures { result ≡ is_one one.now other.now }
{
    one.line == other.line && matches!(one.side, Side::Up) == matches!(other.side, Side::Up)
}

/// Whether one is closed before the other: lines rise, and the server of a line comes before its client.
fn is_before(one: &Connection, other: &Connection) -> bool
    ensures before { result ≡ true → rank one.now ≤ rank other.now }
    ensures behind { result ≡ false → rank other.now ≤ rank one.now }
{
    one.line < other.line || (one.line == other.line && matches!(one.side, Side::Up))
}

/// Whether the list has it.
fn is_in(one: &Connection, list: &[Connection]) -> bool
    ensures { result ≡ is_in one.now list.now }
{
    list.iter().any(|other| is_one(one, other))
}

/// Puts a connection into the list, in which there is room.
fn put(list: &mut Vec<Connection>, line: LineNo, side: Side)
    requires { vec_len list.old < vec_capacity list.old }
    ensures { (c : Connection) → is_in c list.new.items ≡ (is_in c list.old.items || is_one c (connection line side)) }
{
    let one = Connection { line, side };
    if !is_in(&one, list.as_slice()) {
        list.push_reserved(one);
    }
}

/// Takes a connection out of the list.
fn take_out(list: &mut Vec<Connection>, line: LineNo, side: Side)
    ensures gone { (c : Connection) → is_in c list.new.items ≡ (not (is_one c (connection line side)) && is_in c list.old.items) }
    ensures fewer { is_in (connection line side) list.old.items ≡ true → vec_len list.new < vec_len list.old }
{
    let one = Connection { line, side };
    list.retain(|other| !is_one(&one, other));
}

/// Notes what an event makes of connections.
fn note(list: &mut Vec<Connection>, what: &What)
    requires { vec_len list.old < vec_capacity list.old }
    ensures { (c : Connection) → is_in c list.new.items ≡ after_event c (is_in c list.old.items) what.now }
{
    match what {
        What::Opened { line } => put(list, *line, Side::Down),
        What::Gone {
            line,
            side: Side::Down,
        } => take_out(list, *line, Side::Down),
        What::Gone { side: Side::Up, .. }
        | What::Refused { .. }
        | What::Bytes { .. }
        | What::End { .. }
        | What::Joined { .. }
        | What::Room { .. }
        | What::Clock
        | What::Stop => {}
    }
}

/// The connection that is closed first.
fn first_of(list: &[Connection]) -> Option<Connection>
    ensures some { IfSome result (λ one. is_in one list.now ≡ true) }
    ensures least { IfSome result (λ one. (c : Connection) → is_in c list.now ≡ true → rank one ≤ rank c) }
    ensures none { IfNone result (list.now ≡ []) }
{
    let Some(head) = list.first() else {
        return None;
    };
    let mut first = *head;
    'list: for one in list {
        if is_before(one, &first) {
            first = *one;
        }
    }
    Some(first)
}

/// A world, and which of its connections stand: those to clients that were opened, until they are gone or closed, and those to the server
/// that it was told to make, until they are closed.
#[derive(Drop)]
pub struct Watched<W: World> {
    world: W,
    standing: Vec<Connection>,
}

impl<W: World> Model for Watched<W> {
    ghost use Rattle.fleet.specs.Closing.{AreStanding};

    ghost Value = { W };

    ghost view = { λ w. w.world };

    ghost invariant = { λ w. AreStanding (W.trace w.world) w.standing.items };
}

impl<W: World> Watched<W> {
    /// A world in which nothing has passed, so that no connection stands.
    pub fn new(alloc: Global, world: W) -> Self
        requires { IfSome (W.trace world) (λ trace. trace ≡ []) }
        ensures { result ≡ world }
    {
        Watched {
            world,
            standing: Vec::new(alloc),
        }
    }

    /// The world.
    pub fn into_world(self) -> W
        ensures { result ≡ self }
    {
        let Watched { world, standing: _ } = self;
        world
    }

    /// Closes each connection that stands, once: lines rising, that to the server before that to the client. After a refusal the closes that it
    /// made before stand.
    pub fn close_all(&mut self, alloc: Global) -> Result<(), OutOfMemory>
        ensures closes { Closes (W.trace self.old) (W.trace self.new) }
        ensures all { OnOk result (ClosesAll (W.trace self.old) (W.trace self.new)) }
        ensures nature { W.nature self.new ≡ W.nature self.old }
        ensures faults { W.faults self.old ≤ W.faults self.new }
    {
        'closes: while let Some(one) = first_of(self.standing.as_slice()) {
            self.world.close(alloc, one.line, one.side)?;
            take_out(&mut self.standing, one.line, one.side);
        }
        Ok(())
    }
}

impl<W: World> World for Watched<W> {
    ghost trace = { λ w. W.trace w };

    ghost last = { λ w. W.last w };

    ghost nature = { λ w. W.nature w };

    ghost faults = { λ w. W.faults w };

    ghost faultless = { λ w h. W.faultless w h };

    ghost ends_at_last = { λ w. W.ends_at_last w };

    ghost keeps_to_script = { λ w. W.keeps_to_script w };

    fn next(&mut self, alloc: Global, wants: &Wants) -> Result<Event, WorldEnd> {
        self.standing.reserve(1)?;
        let event = self.world.next(alloc, wants)?;
        note(&mut self.standing, &event.what);
        Ok(event)
    }

    fn send(
        &mut self,
        alloc: Global,
        line: LineNo,
        side: Side,
        bytes: &[u8],
    ) -> Result<usize, OutOfMemory> {
        self.world.send(alloc, line, side, bytes)
    }

    fn connect(&mut self, alloc: Global, line: LineNo) -> Result<(), OutOfMemory> {
        self.standing.reserve(1)?;
        self.world.connect(alloc, line)?;
        put(&mut self.standing, line, Side::Up);
        Ok(())
    }

    fn close(&mut self, alloc: Global, line: LineNo, side: Side) -> Result<(), OutOfMemory> {
        self.world.close(alloc, line, side)?;
        take_out(&mut self.standing, line, side);
        Ok(())
    }

    fn log(&mut self, alloc: Global, level: Level, text: &[u8]) -> Result<(), OutOfMemory> {
        self.world.log(alloc, level, text)
    }

    fn seed(&self) -> [u8; 32] {
        self.world.seed()
    }
}
