// A line, with its connections.
ghost use Rattle.std.specs.Prelude.{◌≡◌, ◌<◌, ◌≤◌, ◌↔◌, [], Bool, true, false, None, Some, length, IsTrue, IfOk, IfSome, IfNone, IsSomeAnd, Contains};
ghost use Rattle.gate_io.specs.Events.{wanted};
ghost use Rattle.gate_io.specs.Told.{Gains};
ghost use Rattle.live_lines.specs.Allowed.{IsAllowed, HoldsBack};
ghost use Rattle.live_lines.specs.Told.{IsOf, IsReadOf, IsHeardFrom, IsLast, LiesIn, bytes_told};
ghost use Rattle.live_lines.specs.Turns.{IsToldOf, IsSilent, OnEnd, WasRead, ServerIsStill};
ghost use Rattle.gate_io.specs.declared.event.Side.TheVariants as sides;
ghost use Rattle.gate_io.specs.declared.event.What.TheVariants as whats;
ghost use Rattle.live_lines.specs.Heard.{IsHeard, bytes_heard};
ghost use Rattle.live_lines.specs.Waiting.{GoesOn, is_full};

use crate::duplex::{Duplex, Heard};
use crate::fault::{Fault, fault_of};
use crate::room::ReadBuffer;
use crate::upstream::Upstream;
use gate_base::{LineNo, Octets, OutOfMemory};
use gate_io::{Side, Wants, What};
use mio::event::Event as Readiness;
use std::alloc::Global;

/// A line: the client's connection, and that to the upstream server.
#[derive(Drop)]
pub struct SocketPair<P> {
    pub number: LineNo,
    pub down: Option<P>,
    pub up: Option<Upstream<P>>,
    /// The upstream connection could not be begun.
    pub refused: bool,
    /// Whether the server is heard first at the next turn.
    pub server_first: bool,
    /// What went wrong with the last connection to the server.
    pub fault: Option<Fault>,
    /// The client did not take all of the last piece.
    pub is_short: bool,
    /// A connection to the server was begun after the client took all that was offered, and nothing was offered since: what comes is the begin of an answer.
    pub is_due: bool,
}

/// Whether bytes of a side of a line are wanted.
fn is_wanted(wants: &Wants, line: LineNo, side: Side) -> bool
    ensures { IsTrue result ↔ Contains (wanted wants.now side) line }
{
    match side {
        Side::Down => wants.down.as_slice().contains(&line),
        Side::Up => wants.up.as_slice().contains(&line),
    }
}

/// What a read of a side gave, as an event.
fn told<P: Duplex>(
    alloc: Global,
    wants: &Wants,
    line: LineNo,
    side: Side,
    peer: &mut P,
    room: &mut ReadBuffer,
) -> Result<Option<What>, OutOfMemory>
    requires { Contains (wanted wants.now side) line }
    ensures allowed { IfOk result (λ told. IfSome told (IsAllowed wants.now)) }
    ensures of { IfOk result (λ told. IfSome told (IsReadOf line side)) }
    ensures read { IfOk result (λ told. IfSome told (LiesIn room.new.bytes.items)) }
    ensures gave { IfOk result (λ told. Gains (P.gave peer.old) (bytes_told told) (P.gave peer.new)) }
    ensures kept { P.took peer.new ≡ P.took peer.old }
    ensures told { IfOk result (IsToldOf (λ heard. P.reads peer.old heard peer.new)) }
{
    let heard = peer.read(room);
    event_of(alloc, wants, line, side, heard, room)
}

/// The event that tells of what was read into the room.
fn event_of(
    alloc: Global,
    wants: &Wants,
    line: LineNo,
    side: Side,
    heard: Heard,
    room: &ReadBuffer,
) -> Result<Option<What>, OutOfMemory>
    requires wanted { Contains (wanted wants.now side) line }
    requires sized { IsHeard heard }
    ensures allowed { IfOk result (λ told. IfSome told (IsAllowed wants.now)) }
    ensures of { IfOk result (λ told. IfSome told (IsReadOf line side)) }
    ensures read { IfOk result (λ told. IfSome told (LiesIn room.now.bytes.items)) }
    ensures bytes { IfOk result (λ told. bytes_told told ≡ bytes_heard room.now.bytes.items heard) }
    ensures end { heard ≡ Heard.End → IfOk result (λ told. told ≡ Some (whats.End line side)) }
    ensures lost { heard ≡ Heard.Lost → IfOk result (λ told. told ≡ Some (whats.Gone line side)) }
    ensures nothing { heard ≡ Heard.Nothing → IfOk result (λ told. told ≡ None) }
    ensures told { IfOk result (IsToldOf (λ given. heard ≡ given)) }
{
    match heard {
        Heard::Bytes(n) => {
            let bytes = Octets::from_slice(alloc, &room.bytes[..n])?;
            Ok(Some(What::Bytes { line, side, bytes }))
        }
        Heard::End => Ok(Some(What::End { line, side })),
        Heard::Lost => Ok(Some(What::Gone { line, side })),
        Heard::Nothing => Ok(None),
    }
}

/// What is heard from the client of a line. Nothing is read from it while so much waits for the server.
#[tactic(auto, using(crate::proofs::Turns::told_silent, crate::proofs::Turns::told_end))]
fn heard_down<P: Duplex>(
    alloc: Global,
    wants: &Wants,
    line: LineNo,
    peer: &mut P,
    is_full: bool,
    room: &mut ReadBuffer,
) -> Result<Option<What>, OutOfMemory>
    ensures allowed { IfOk result (λ told. IfSome told (IsAllowed wants.now)) }
    ensures of { IfOk result (λ told. IfSome told (IsOf line)) }
    ensures side { IfOk result (λ told. IfSome told (IsHeardFrom line sides.Down)) }
    ensures read { IfOk result (λ told. IfSome told (LiesIn room.new.bytes.items)) }
    ensures held { IfOk result (λ told. IfSome told (HoldsBack is_full)) }
    ensures gave { IfOk result (λ told. Gains (P.gave peer.old) (bytes_told told) (P.gave peer.new)) }
    ensures kept { P.took peer.new ≡ P.took peer.old }
    ensures silent { IfOk result (λ told. IfNone told (IsSilent P.ready P.reads ((is_full ≡ false) × Contains (wanted wants.now sides.Down) line) peer.old peer.new)) }
    ensures ended { IfOk result (λ told. IfSome told (OnEnd (WasRead P.reads Heard.End peer.new))) }
{
    let side = Side::Down;
    if peer.is_broken() {
        return Ok(Some(What::Gone { line, side }));
    }
    if !is_full && peer.is_readable() && is_wanted(wants, line, side) {
        return told(alloc, wants, line, side, peer, room);
    }
    if peer.has_room_again() {
        return Ok(Some(What::Room { line, side }));
    }
    Ok(None)
}

/// What is heard from the upstream server of a line. A broken connection is read to its end first, where that is wanted.
#[tactic(auto, using(crate::proofs::Turns::told_silent, crate::proofs::Turns::told_end))]
fn heard_up<P: Duplex>(
    alloc: Global,
    wants: &Wants,
    line: LineNo,
    peer: &mut P,
    room: &mut ReadBuffer,
) -> Result<Option<What>, OutOfMemory>
    ensures allowed { IfOk result (λ told. IfSome told (IsAllowed wants.now)) }
    ensures of { IfOk result (λ told. IfSome told (IsOf line)) }
    ensures side { IfOk result (λ told. IfSome told (IsHeardFrom line sides.Up)) }
    ensures read { IfOk result (λ told. IfSome told (LiesIn room.new.bytes.items)) }
    ensures free { (full : Bool) → IfOk result (λ told. IfSome told (HoldsBack full)) }
    ensures gave { IfOk result (λ told. Gains (P.gave peer.old) (bytes_told told) (P.gave peer.new)) }
    ensures kept { P.took peer.new ≡ P.took peer.old }
    ensures silent { IfOk result (λ told. IfNone told (IsSilent P.ready P.reads (Contains (wanted wants.now sides.Up) line) peer.old peer.new)) }
    ensures ended { IfOk result (λ told. IfSome told (OnEnd (WasRead P.reads Heard.End peer.new))) }
{
    let side = Side::Up;
    if peer.is_refused() {
        return Ok(Some(What::Refused { line }));
    }
    if peer.is_broken() && peer.is_ended() {
        return Ok(Some(What::Gone { line, side }));
    }
    if peer.is_readable() && is_wanted(wants, line, side) {
        return told(alloc, wants, line, side, peer, room);
    }
    Ok(None)
}

/// What is heard from the upstream server of a line, after a write of what waits for it.
fn heard_behind<P: Duplex>(
    alloc: Global,
    wants: &Wants,
    line: LineNo,
    up: &mut Upstream<P>,
    room: &mut ReadBuffer,
) -> Result<Option<What>, OutOfMemory>
    ensures allowed { IfOk result (λ told. IfSome told (IsAllowed wants.now)) }
    ensures of { IfOk result (λ told. IfSome told (IsOf line)) }
    ensures side { IfOk result (λ told. IfSome told (IsHeardFrom line sides.Up)) }
    ensures read { IfOk result (λ told. IfSome told (LiesIn room.new.bytes.items)) }
    ensures free { (full : Bool) → IfOk result (λ told. IfSome told (HoldsBack full)) }
    ensures gave { IfOk result (λ told. Gains (P.gave up.old.peer) (bytes_told told) (P.gave up.new.peer)) }
    ensures goes_on { GoesOn (P.took up.old.peer) up.old.waiting [] (P.took up.new.peer) up.new.waiting }
    ensures silent { IfOk result (λ told. IfNone told (IsSilent P.ready P.reads (Contains (wanted wants.now sides.Up) line) up.old.peer up.new.peer)) }
    ensures ended { IfOk result (λ told. IfSome told (OnEnd (WasRead P.reads Heard.End up.new.peer))) }
{
    up.flush();
    heard_up(alloc, wants, line, &mut up.peer, room)
}

/// Whether a connection is to be let go after this event.
fn ends(told: &Option<What>) -> bool
    ensures none { IsTrue result → bytes_told told.now ≡ [] }
    ensures last { IsTrue result → IsSomeAnd told.now IsLast }
{
    matches!(told, Some(What::Gone { .. } | What::Refused { .. }))
}

/// Whether nothing is to be told of a connection to a server: nothing waits for it, no call on it failed, and nothing is read of it.
#[inline(always)]
fn is_quiet_up<P: Duplex>(wants: &Wants, line: LineNo, up: &Upstream<P>) -> bool
    ensures { IsTrue result → ServerIsStill P.ready P.broken (Contains (wanted wants.now sides.Up) line) (Some up.now) }
{
    up.waiting.is_empty()
        && (up.peer.is_quiet() || (!up.peer.is_broken() && !is_wanted(wants, line, Side::Up)))
}

impl<P: Duplex> SocketPair<P> {
    ghost use Rattle.std.specs.Prelude.{◌⊎◌, ◌&&◌, not, is_none};
    ghost use Rattle.live_lines.specs.Lines.{is_over, peer_of};
    ghost use Rattle.live_lines.specs.Passing.{HeardOn, SentOn};
    ghost use Rattle.live_lines.specs.Turns.{ClientIsSilent, ServerIsSilent, ClientIsStill, EndWasRead, is_told_from};

    /// What is heard on the line, of the server first where the client was heard last: one that sends without pause keeps nobody from hearing an
    /// early answer. Nothing is read from the client while 65,536 bytes wait for the server.
    #[tactic(auto, using(crate::proofs::Hearing::heard_more, crate::proofs::Hearing::heard_same, crate::proofs::Turns::from_own, crate::proofs::Turns::end_of_client, crate::proofs::Turns::end_of_server))]
    pub fn heard(
        &mut self,
        alloc: Global,
        wants: &Wants,
        room: &mut ReadBuffer,
    ) -> Result<Option<What>, OutOfMemory>
        ensures allowed { IfOk result (λ told. IfSome told (IsAllowed wants.now)) }
        ensures of { IfOk result (λ told. IfSome told (IsOf self.old.number)) }
        ensures read { IfOk result (λ told. IfSome told (LiesIn room.new.bytes.items)) }
        ensures held { IfOk result (λ told. IfSome told (HoldsBack (is_full self.old.up))) }
        ensures side { IfOk result (λ told. IfSome told (λ what. IsHeardFrom self.old.number sides.Down what ⊎ IsHeardFrom self.old.number sides.Up what)) }
        ensures heard { IfOk result (λ told. HeardOn P.gave P.took self.old told self.new) }
        ensures number { self.new.number ≡ self.old.number }

        // A refusal is told first, and no turn changes by it. Else the client's turn is after each call, but for one in which the client was heard first and told something.
        ensures refusal { self.old.refused ≡ true → IfOk result (λ told. (told ≡ Some (whats.Refused self.old.number)) × (self.new.server_first ≡ self.old.server_first)) }
        ensures turn { self.old.refused ≡ false → IfOk result (λ told. self.new.server_first ≡ (not self.old.server_first && is_told_from sides.Down told)) }
        ensures server { self.old.refused ≡ false → self.old.server_first ≡ true → IfOk result (λ told. is_told_from sides.Up told ≡ false → ServerIsSilent P.ready P.reads (Contains (wanted wants.now sides.Up) self.old.number) self.old.up self.new.up) }
        ensures client { self.old.refused ≡ false → self.old.server_first ≡ false → IfOk result (λ told. is_told_from sides.Down told ≡ false → ClientIsSilent P.ready P.reads ((is_full self.old.up ≡ false) × Contains (wanted wants.now sides.Down) self.old.number) self.old.down self.new.down) }
        ensures ended { IfOk result (λ told. IfSome told (EndWasRead P.reads self.new)) }
    {
        if self.refused {
            self.refused = false;
            return Ok(Some(What::Refused { line: self.number }));
        }
        let is_full = self.is_full();
        if self.server_first {
            self.server_first = false;
            if let Some(told) = self.heard_up(alloc, wants, room)? {
                return Ok(Some(told));
            }
            return self.heard_down(alloc, wants, is_full, room);
        }
        if let Some(told) = self.heard_down(alloc, wants, is_full, room)? {
            self.server_first = true;
            return Ok(Some(told));
        }
        self.heard_up(alloc, wants, room)
    }

    /// Whether nothing can be heard on the line, as of one whose client sends nothing and reads nothing, so that it need not be asked. Such a line has no
    /// refusal to tell; nothing of its client could be there to read, no call on that failed, and no room came again for it; nothing waits for its server, no
    /// call on that failed, and nothing of it could be there to read or none of it is wanted.
    #[inline(always)]
    pub fn is_quiet(&self, wants: &Wants) -> bool
        ensures refused { IsTrue result → self.now.refused ≡ false }
        ensures client { IsTrue result → ClientIsStill P.ready P.broken P.again self.now.down }
        ensures server { IsTrue result → ServerIsStill P.ready P.broken (Contains (wanted wants.now sides.Up) self.now.number) self.now.up }
    {
        let Some(down) = &self.down else {
            return false;
        };
        if self.refused || !down.is_quiet() {
            return false;
        }
        match &self.up {
            None => true,
            Some(up) => is_quiet_up(wants, self.number, up),
        }
    }

    /// What is heard from the client, where it is there; nothing is read from it where so much waits for the server. One that is gone is let go.
    #[tactic(auto, using(crate::proofs::Hearing::tells_last, crate::proofs::Hearing::of_client))]
    fn heard_down(
        &mut self,
        alloc: Global,
        wants: &Wants,
        is_full: bool,
        room: &mut ReadBuffer,
    ) -> Result<Option<What>, OutOfMemory>
        ensures allowed { IfOk result (λ told. IfSome told (IsAllowed wants.now)) }
        ensures of { IfOk result (λ told. IfSome told (IsOf self.old.number)) }
        ensures side { IfOk result (λ told. IfSome told (IsHeardFrom self.old.number sides.Down)) }
        ensures read { IfOk result (λ told. IfSome told (LiesIn room.new.bytes.items)) }
        ensures held { IfOk result (λ told. IfSome told (HoldsBack is_full)) }
        ensures number { self.new.number ≡ self.old.number }
        ensures heard { IfOk result (λ told. HeardOn P.gave P.took self.old told self.new) }
        ensures first { self.new.server_first ≡ self.old.server_first }
        ensures up { self.new.up ≡ self.old.up }
        ensures silent { IfOk result (λ told. IfNone told (ClientIsSilent P.ready P.reads ((is_full ≡ false) × Contains (wanted wants.now sides.Down) self.old.number) self.old.down self.new.down)) }
        ensures ended { IfOk result (λ told. IfSome self.new.down (λ peer. IfSome told (OnEnd (WasRead P.reads Heard.End peer)))) }
    {
        let Some(peer) = &mut self.down else {
            return Ok(None);
        };
        let told = heard_down(alloc, wants, self.number, peer, is_full, room)?;
        if ends(&told) {
            self.down = None;
        }
        Ok(told)
    }

    /// What is heard from the upstream server, where it is there. One that is gone is let go.
    #[tactic(auto, using(crate::proofs::Hearing::tells_last, crate::proofs::Hearing::of_server))]
    fn heard_up(
        &mut self,
        alloc: Global,
        wants: &Wants,
        room: &mut ReadBuffer,
    ) -> Result<Option<What>, OutOfMemory>
        ensures allowed { IfOk result (λ told. IfSome told (IsAllowed wants.now)) }
        ensures of { IfOk result (λ told. IfSome told (IsOf self.old.number)) }
        ensures side { IfOk result (λ told. IfSome told (IsHeardFrom self.old.number sides.Up)) }
        ensures read { IfOk result (λ told. IfSome told (LiesIn room.new.bytes.items)) }
        ensures free { (full : Bool) → IfOk result (λ told. IfSome told (HoldsBack full)) }
        ensures number { self.new.number ≡ self.old.number }
        ensures heard { IfOk result (λ told. HeardOn P.gave P.took self.old told self.new) }
        ensures first { self.new.server_first ≡ self.old.server_first }
        ensures down { self.new.down ≡ self.old.down }
        ensures silent { IfOk result (λ told. IfNone told (ServerIsSilent P.ready P.reads (Contains (wanted wants.now sides.Up) self.old.number) self.old.up self.new.up)) }
        ensures ended { IfOk result (λ told. IfSome self.new.up (λ up. IfSome told (OnEnd (WasRead P.reads Heard.End up.peer)))) }
    {
        let Some(up) = &mut self.up else {
            return Ok(None);
        };
        let told = heard_behind(alloc, wants, self.number, up, room)?;
        self.fault = fault_of(&told, &up.peer, self.fault);
        if ends(&told) {
            self.up = None;
        }
        Ok(told)
    }

    /// Goes on with this connection to the server. Where there is none, it is to be told that it was refused.
    pub fn join(&mut self, alloc: Global, peer: Option<P>)
        ensures number { self.new.number ≡ self.old.number }
        ensures down { self.new.down ≡ self.old.down }
        ensures fresh { IfSome self.new.up (λ up. up.waiting ≡ []) }
        ensures refused { self.new.refused ≡ is_none self.new.up }
        ensures peer { peer_of self.new.up ≡ peer }
        ensures due { self.new.is_due ≡ not self.old.is_short }
    {
        self.refused = peer.is_none();
        self.fault = None;
        self.is_due = !self.is_short;
        self.up = match peer {
            Some(peer) => Some(Upstream::new(alloc, peer)),
            None => None,
        };
    }

    /// Keeps what the system told of the connection of this side.
    pub fn note(&mut self, side: Side, event: &Readiness)
        ensures { HeardOn P.gave P.took self.old None self.new }
    {
        match side {
            Side::Down => self.note_down(event),
            Side::Up => self.note_up(event),
        }
    }

    /// Keeps what the system told of the connection to the client.
    #[tactic(auto, using(crate::proofs::Hearing::heard_same))]
    fn note_down(&mut self, event: &Readiness)
        ensures { HeardOn P.gave P.took self.old None self.new }
    {
        if let Some(peer) = &mut self.down {
            peer.note(event);
        }
    }

    /// Keeps what the system told of the connection to the server.
    #[tactic(auto, using(crate::proofs::Hearing::heard_same))]
    fn note_up(&mut self, event: &Readiness)
        ensures { HeardOn P.gave P.took self.old None self.new }
    {
        if let Some(up) = &mut self.up {
            up.note(event);
        }
    }

    /// Whether so much waits for the server that no more of the request is to be read.
    fn is_full(&self) -> bool
        ensures { result ≡ is_full self.now.up }
    {
        match &self.up {
            Some(up) => up.is_full(),
            None => false,
        }
    }

    /// Whether what is offered to the client begins an answer, to which no fault led that is told by itself.
    pub fn begins_answer(&self) -> bool
        ensures { result ≡ (self.now.is_due && is_none self.now.fault) }
    {
        self.is_due && self.fault.is_none()
    }

    /// Offers bytes to the client. Those for one that is not there are dropped. Where they begin an answer, it is another one than that in which the server
    /// broke off.
    pub fn send_down(&mut self, bytes: &[u8]) -> usize
        ensures bound { result ≤ length bytes.now }
        ensures sent { SentOn P.gave P.took self.old sides.Down bytes.now result self.new }
        ensures short { IsTrue self.new.is_short ↔ (result < length bytes.now) }
        ensures due { IsTrue self.new.is_due ↔ (IsTrue self.old.is_due × (length bytes.now ≡ 0)) }
    {
        if self.is_cut() && bytes.starts_with(b"HTTP/1.") {
            self.fault = None;
        }
        let count = self.write_down(bytes);
        self.is_short = count < bytes.len();
        self.is_due = self.is_due && bytes.is_empty();
        count
    }

    /// Writes bytes to the client. Those for one that is not there are dropped.
    fn write_down(&mut self, bytes: &[u8]) -> usize
        ensures bound { result ≤ length bytes.now }
        ensures sent { SentOn P.gave P.took self.old sides.Down bytes.now result self.new }
        ensures due { self.new.is_due ≡ self.old.is_due }
    {
        match &mut self.down {
            Some(peer) => peer.write(bytes),
            None => bytes.len(),
        }
    }

    /// Whether the server broke off in its answer, and no other answer was begun since.
    pub fn is_cut(&self) -> bool {
        matches!(self.fault, Some(Fault::BrokeOff))
    }

    /// Sends bytes to the server, which takes them whole. Those for one that is not there are dropped.
    pub fn send_up(&mut self, alloc: Global, bytes: &[u8]) -> Result<usize, OutOfMemory>
        ensures whole { IfOk result (λ n. n ≡ length bytes.now) }
        ensures sent { IfOk result (λ n. SentOn P.gave P.took self.old sides.Up bytes.now n self.new) }
        ensures number { self.new.number ≡ self.old.number }
    {
        match &mut self.up {
            Some(up) => up.send(alloc, bytes),
            None => Ok(bytes.len()),
        }
    }

    /// Whether no connection is left, and nothing is to be told of one.
    pub fn is_over(&self) -> bool
        ensures { result ≡ is_over self.now }
    {
        self.down.is_none() && self.up.is_none() && !self.refused
    }
}
