// The sockets of one worker.
ghost use Rattle.std.specs.Prelude.{◌≡◌, ◌==◌, ◌+◌, ◌<◌, ◌≤◌, ◌⊎◌, false, IsTrue, IsSomeAnd, None, length, vec_len, HoldsAt, remove, slice_get, IfOk, IfSome, IfNone, OnOk, OnErr};
ghost use Rattle.std.specs.List.{position};
ghost use Rattle.live_lines.specs.Allowed.{IsAllowed};
ghost use Rattle.live_sockets.specs.Calls.{BeginsIn, ConnectsIn, calls_in, first_call, is_call, most_calls};
ghost use Rattle.live_sockets.specs.Keeping.{AreFew, AreKept};
ghost use Rattle.live_sockets.specs.Notices.{CountsAnswer, begins_bad_gateway};
ghost use Rattle.live_lines.specs.Lines.{most_lines, IsHeardAt, HeardIn, HeardNext, Forgets, SentTo, SentIn, BegunAt, IsUnused, ClosedIn, ClosedUp, next_place, place_after};
ghost use Rattle.live_lines.specs.Told.{LiesIn};
ghost use Rattle.live_lines.specs.Turns.{LineIsStill};

use crate::buffers::Buffers;
use crate::calls::{clients_in, has_room, is_call, line_of_call, may_call};
use crate::looks::Looks;
use crate::moments::Moments;
use crate::notices::{KINDS, Notice, Notices};
use crate::origin::{AcceptedLine, Origin};
use crate::times::TimeSource;
use gate_base::{LineNo, OutOfMemory};
use gate_io::{Side, Wants, What, WorldEnd};
use live_lines::{
    Duplex, Fault, LINGER, LINGER_MOST, Lingering, MOST_LEFT, MOST_LINGERING, ReadBuffer,
    SocketPair, UnsentBytes, Upstream,
};
use mio::event::Event as Readiness;
use mio::net::TcpStream;
use mio::{Events, Poll, Registry, Token};
use std::alloc::{AllocError, Global};
use std::io;
use std::net::{Net, SocketAddr};
use std::sync::Wait;
use std::time::Duration;

/// The token of what lines come from. Those of lines begin at 2.
pub const ORIGIN: Token = Token(0);

/// The tokens of closed connections to servers begin here, above those of all lines.
const CLOSED: usize = 1_099_511_627_776;

/// The sockets of one worker.
#[derive(Drop)]
pub struct Sockets<P> {
    poll: Poll,
    events: Events,
    /// Where lines come from.
    pub origin: Origin,
    /// The address of the upstream server.
    pub upstream: SocketAddr,
    /// The lines that are kept.
    pub lines: Vec<SocketPair<P>>,
    /// The connections that were closed and are not over.
    pub lingering: Vec<Lingering<P>>,
    /// What was read last.
    pub room: ReadBuffer,
    /// The place of the line that is heard next.
    next: usize,
    /// The place after the line to which bytes were offered last: what waits is offered to one line after the other.
    behind: usize,
    /// When the system was asked what is ready, and how much was heard since.
    pub looks: Looks,
    /// How many connections to servers lingered so far, modulo 2^32.
    closed: u32,
    /// The clock of events.
    pub moments: Moments,
    /// What an operator is to be told of.
    pub notices: Notices,
}

/// The token of a side of a line.
fn token_of(line: LineNo, side: Side) -> Token {
    let low = match side {
        Side::Down => 0,
        Side::Up => 1,
    };
    Token(line.get() as usize * 2 + low)
}

/// The side of a token.
fn side_of(token: Token) -> Side {
    if token.0 % 2 == 0 {
        Side::Down
    } else {
        Side::Up
    }
}

/// The place of the line of this number.
fn place_of<P>(lines: &[SocketPair<P>], number: LineNo) -> Option<usize>
    ensures place { result ≡ position (λ line. line.number == number) lines.now }
    ensures within { IfSome result (λ i. i < length lines.now) }
    ensures found { IfSome result (HoldsAt (λ line. line.number ≡ number) lines.now) }
{
    lines.iter().position(|line| line.number == number)
}

/// A place of a line of this number. Lines come in the order of their numbers, so it is looked for by halves first, and through all of
/// them where that finds none: what is found does not rest on that order.
fn find<P>(lines: &[SocketPair<P>], number: LineNo) -> Option<usize>
    ensures within { IfSome result (λ i. i < length lines.now) }
    ensures found { IfSome result (HoldsAt (λ line. line.number ≡ number) lines.now) }
    ensures none { IfNone result (position (λ line. line.number == number) lines.now ≡ None) }
{
    let at = lines.partition_point(|line| line.number < number);
    if at < lines.len() && lines[at].number == number {
        return Some(at);
    }
    place_of(lines, number)
}

/// Whether the line of this number stands at a place.
#[inline(always)]
fn stands_at<P>(lines: &[SocketPair<P>], number: LineNo, at: usize) -> bool
    ensures within { IsTrue result → at < length lines.now }
    ensures found { IsTrue result → HoldsAt (λ line. line.number ≡ number) lines.now at }
{
    at < lines.len() && lines[at].number == number
}

/// The same as `find`, where it is likely to be this place.
#[inline(always)]
fn find_near<P>(lines: &[SocketPair<P>], number: LineNo, near: usize) -> Option<usize>
    ensures within { IfSome result (λ i. i < length lines.now) }
    ensures found { IfSome result (HoldsAt (λ line. line.number ≡ number) lines.now) }
    ensures none { IfNone result (position (λ line. line.number == number) lines.now ≡ None) }
{
    if stands_at(lines, number, near) {
        return Some(near);
    }
    find(lines, number)
}

/// Offers bytes to a side of the line at a place.
#[inline(always)]
fn send_at<P: Duplex>(
    lines: &mut [SocketPair<P>],
    alloc: Global,
    at: usize,
    side: Side,
    bytes: &[u8],
) -> Result<usize, OutOfMemory>
    requires { at < length lines.old }
    ensures bound { IfOk result (λ n. n ≤ length bytes.now) }
    ensures whole { side ≡ Side.Up → IfOk result (λ n. n ≡ length bytes.now) }
    ensures sent { IfOk result (λ n. SentTo P.gave P.took lines.old at side bytes.now n lines.new) }
{
    let line = &mut lines[at];
    match side {
        Side::Down => Ok(line.send_down(bytes)),
        Side::Up => line.send_up(alloc, bytes),
    }
}

/// Keeps what the system told of a side of the line at a place.
fn note_at<P: Duplex>(lines: &mut Vec<SocketPair<P>>, at: usize, side: Side, event: &Readiness)
    requires { at < vec_len lines.old }
    ensures { HeardIn P.gave P.took lines.old.items at None lines.new.items }
{
    lines[at].note(side, event);
}

impl<P: Duplex> Sockets<P> {
    ghost use Rattle.std.specs.Prelude.{[], All, MatchOption};
    ghost use Rattle.live_sockets.specs.Keeping.{Arrives, Begins, Comes, Heard, WasHeard};
    ghost use Rattle.live_sockets.specs.Looks.{AsksFirst, JustAsked, MayHear};
    ghost use Rattle.live_sockets.specs.Origins.{HasEnded};
    ghost use Rattle.live_sockets.specs.Spent.{IsDue, IsOfLine, IsSpent};
    ghost use Rattle.live_sockets.specs.Times.{IsTold};

    /// The sockets over a poll, with lines from an origin that it watches, which send to this upstream server.
    pub fn new(poll: Poll, origin: Origin, upstream: SocketAddr, buffers: Buffers<P>) -> Sockets<P>
        ensures origin { result.origin ≡ origin }
        ensures upstream { result.upstream ≡ upstream }
        ensures lines { result.lines.items ≡ [] }
    {
        let Buffers {
            events,
            room,
            lines,
            lingering,
        } = buffers;
        Sockets {
            poll,
            events,
            origin,
            upstream,
            lines,
            lingering,
            room,
            next: 0,
            behind: 0,
            looks: Looks::new(),
            closed: 0,
            moments: Moments::new(),
            notices: Notices::new(),
        }
    }

    /// Waits until something happens that the worker wants or has to know. The system is asked first where enough was heard since it was asked last, or
    /// enough time went: however long the worker takes for an event, it is asked what else there is before the next one.
    #[tactic(auto, using(crate::proofs::Due::due_of_line, crate::proofs::Kept::kept_same, crate::proofs::Kept::kept_more, crate::proofs::Kept::was_heard, crate::proofs::Asking::asks_first, crate::proofs::Readings::told_same))]
    pub fn wait<R: TimeSource + Wait>(
        &mut self,
        alloc: Global,
        rt: &R,
        wants: &Wants,
    ) -> Result<What, WorldEnd>
        ensures allowed { IfOk result (IsAllowed wants.now) }
        ensures read { IfOk result (LiesIn self.new.room.bytes.items) }
        ensures due { IfOk result (λ what. IsDue what wants.now.due self.new.looks.seen self.new) }
        ensures heard { IfOk result (λ what. WasHeard P.gave P.took self.old.lines.items what self.new.lines.items) }
        ensures asked { IfOk result (λ what. AsksFirst what self.old.looks self.new.looks) }
        ensures told { IfOk result (λ what. IsTold (R.tells rt.now) self.new.looks.seen) }
    {
        self.origin.ask();
        self.look_first(rt)?;
        // No run waits so often.
        for _ in 0..u64::MAX {
            if let Some(what) = self.heard(alloc, rt, wants)? {
                self.looks.take_turn();
                return Ok(what);
            }
            if self.is_done() {
                return Ok(What::Stop);
            }
            if self.look_until(rt, wants.due)? {
                // The system is asked in front of what is heard next: ticks that are always late would keep it from being asked.
                self.looks.ask_next();
                return Ok(What::Clock);
            }
        }
        Err(WorldEnd::Failed)
    }

    /// Asks the system what else is ready, where it is time to.
    #[tactic(auto, using(crate::proofs::Kept::kept_same, crate::proofs::Asking::may_hear, crate::proofs::Readings::told_now))]
    fn look_first<R: TimeSource>(&mut self, rt: &R) -> Result<(), WorldEnd>
        ensures kept { AreKept P.gave P.took self.old.lines.items self.new.lines.items }
        ensures asked { IfOk result (λ _. MayHear self.old.looks self.new.looks) }
        ensures told { IfOk result (λ _. IsTold (R.tells rt.now) self.new.looks.seen) }
    {
        let now = self.moments.now(rt)?;
        self.looks.see(now);
        if self.looks.is_overdue() {
            self.look(rt, Some(Duration::ZERO))?;
        }
        Ok(())
    }

    /// Whether nothing more comes.
    fn is_done(&self) -> bool
        ensures { IsTrue result → IsSpent self.now }
    {
        self.origin.is_done() && self.lines.is_empty() && self.lingering.is_empty()
    }

    /// Waits for the system, at most until this moment. True where it has come.
    #[tactic(auto, using(crate::proofs::Kept::kept_same, crate::proofs::Readings::told_same))]
    fn look_until<R: TimeSource>(&mut self, rt: &R, due: Option<u64>) -> Result<bool, WorldEnd>
        ensures due { IfOk result (λ came. IsTrue came → IsSomeAnd due (λ moment. moment ≤ self.new.looks.seen)) }
        ensures kept { AreKept P.gave P.took self.old.lines.items self.new.lines.items }
        ensures asked { IfOk result (λ came. came ≡ false → JustAsked self.new.looks.seen self.new.looks) }
        ensures told { IfOk result (λ _. IsTold (R.tells rt.now) self.new.looks.seen) }
    {
        match first_of(due, self.first_over()) {
            Some(first) => self.look_before(rt, due, first),
            None => {
                self.look(rt, None)?;
                Ok(false)
            }
        }
    }

    /// The moment at which the first of those that linger is over.
    fn first_over(&self) -> Option<u64>
        ensures { MatchOption result (self.now.lingering.items ≡ []) (λ first. All (λ closed. first ≤ closed.until) self.now.lingering.items) }
    {
        self.lingering.iter().map(|closed| closed.until).min()
    }

    /// Waits for the system, at most until the second moment. True where the first has come.
    #[tactic(auto, using(crate::proofs::Kept::kept_same, crate::proofs::Readings::told_now))]
    fn look_before<R: TimeSource>(
        &mut self,
        rt: &R,
        due: Option<u64>,
        first: u64,
    ) -> Result<bool, WorldEnd>
        ensures due { IfOk result (λ came. IsTrue came → IsSomeAnd due (λ moment. moment ≤ self.new.looks.seen)) }
        ensures kept { AreKept P.gave P.took self.old.lines.items self.new.lines.items }
        ensures asked { IfOk result (λ came. came ≡ false → JustAsked self.new.looks.seen self.new.looks) }
        ensures told { IfOk result (λ _. IsTold (R.tells rt.now) self.new.looks.seen) }
    {
        let now = self.moments.now(rt)?;
        self.looks.see(now);
        if has_come(due, now) {
            return Ok(true);
        }
        self.look(rt, Some(Duration::from_nanos(first.saturating_sub(now))))?;
        Ok(false)
    }

    /// How long the system is waited for, at most, at the last moment that was seen. It is not where something may be there of which it tells nothing more, and
    /// not for long where the origin of lines looks again.
    fn timeout(&mut self, wanted: Option<Duration>) -> Option<Duration>
        ensures lines { self.new.lines ≡ self.old.lines }
        ensures looks { self.new.looks ≡ self.old.looks }
    {
        let again = self.origin.looks_again(self.looks.seen);
        if self.origin.is_waiting() || self.lingering.iter().any(|closed| closed.is_waiting()) {
            return Some(Duration::ZERO);
        }
        match again {
            Some(nanos) => {
                let again = Duration::from_nanos(nanos);
                Some(wanted.unwrap_or(again).min(again))
            }
            None => wanted,
        }
    }

    /// Asks the system what is ready. A line that it refused is asked for again after that.
    #[tactic(auto, using(crate::proofs::Kept::kept_same, crate::proofs::Readings::told_now))]
    fn look<R: TimeSource>(&mut self, rt: &R, timeout: Option<Duration>) -> Result<(), WorldEnd>
        ensures kept { AreKept P.gave P.took self.old.lines.items self.new.lines.items }
        ensures asked { IfOk result (λ _. JustAsked self.new.looks.seen self.new.looks) }
        ensures told { IfOk result (λ _. IsTold (R.tells rt.now) self.new.looks.seen) }
        ensures over { IfOk result (λ _. All (λ closed. self.new.looks.seen < closed.until) self.new.lingering.items) }
    {
        let timeout = self.timeout(timeout);
        if self.poll.poll(&mut self.events, timeout).is_err() {
            return Err(WorldEnd::Failed);
        }
        let now = self.moments.now(rt)?;
        self.note_told();
        self.drain(now);
        self.looks.note(now);
        Ok(())
    }

    /// Keeps what the system told.
    fn note_told(&mut self)
        ensures kept { AreKept P.gave P.took self.old.lines.items self.new.lines.items }
    {
        if self.origin.is_refused() {
            self.origin.note_free();
        }
        note_all(
            &self.events,
            &mut self.origin,
            &mut self.lines,
            &mut self.lingering,
        );
    }

    /// Goes on with what lingers, as of this moment, and lets those go that are over or lingered for long enough.
    fn drain(&mut self, now: u64)
        ensures lines { self.new.lines ≡ self.old.lines }
        ensures over { All (λ closed. now < closed.until) self.new.lingering.items }
    {
        let room = &mut self.room;
        self.lingering
            .retain_mut(|closed| closed.goes_on(room, now));
        self.lingering.retain(|closed| now < closed.until);
    }

    /// What is heard next: of a line that comes, where one may come in front of what is heard of open ones, or of one of these after the other.
    #[tactic(auto, using(crate::proofs::Due::line_of_event, crate::proofs::Kept::kept_same, crate::proofs::Kept::more_kept, crate::proofs::Kept::next_heard))]
    fn heard<R: Wait>(
        &mut self,
        alloc: Global,
        rt: &R,
        wants: &Wants,
    ) -> Result<Option<What>, OutOfMemory>
        ensures allowed { IfOk result (λ told. IfSome told (IsAllowed wants.now)) }
        ensures read { IfOk result (λ told. IfSome told (LiesIn self.new.room.bytes.items)) }
        ensures line { IfOk result (λ told. IfSome told IsOfLine) }
        ensures heard { IfOk result (λ told. Heard P.gave P.took self.old.lines.items told self.new.lines.items) }
        ensures looks { self.new.looks ≡ self.old.looks }
    {
        if let Some(line) = self.arrive(rt)? {
            return Ok(Some(What::Opened { line }));
        }
        let count = self.lines.len();
        for _ in 0..count {
            if let Some(what) = self.heard_next(alloc, wants)? {
                self.origin.allow_one();
                return Ok(Some(what));
            }
        }
        self.origin.allow_all();
        Ok(None)
    }

    /// What is heard of the next line. One of which nothing is to be told is passed over.
    #[tactic(auto, using(crate::proofs::Begun::stands_at))]
    fn heard_next(&mut self, alloc: Global, wants: &Wants) -> Result<Option<What>, OutOfMemory>
        ensures allowed { IfOk result (λ told. IfSome told (IsAllowed wants.now)) }
        ensures of { IfOk result (λ told. IfSome told (IsHeardAt self.old.lines.items (next_place self.old.next (vec_len self.old.lines)))) }
        ensures read { IfOk result (λ told. IfSome told (LiesIn self.new.room.bytes.items)) }
        ensures heard { IfOk result (λ told. HeardNext P.gave P.took self.old.lines.items self.old.next told self.new.lines.items) }
        ensures turn { self.new.next + vec_len self.old.lines ≡ place_after self.old.next (vec_len self.old.lines) + vec_len self.new.lines }
        ensures looks { self.new.looks ≡ self.old.looks }
        ensures passed { IfOk result (λ told. HeardIn P.gave P.took self.old.lines.items (next_place self.old.next (vec_len self.old.lines)) told self.new.lines.items
            ⊎ IfSome (slice_get self.old.lines.items (next_place self.old.next (vec_len self.old.lines))) (LineIsStill P.ready P.broken P.again wants.now)) }
    {
        if self.next >= self.lines.len() {
            self.next = 0;
        }
        let at = self.next;
        if at >= self.lines.len() {
            return Ok(None);
        }
        self.next = at + 1;
        if self.lines[at].is_quiet(wants) {
            return Ok(None);
        }
        self.heard_at(alloc, wants, at)
    }

    /// What is heard of the line at a place.
    fn heard_at(
        &mut self,
        alloc: Global,
        wants: &Wants,
        at: usize,
    ) -> Result<Option<What>, OutOfMemory>
        requires { at < vec_len self.old.lines }
        ensures allowed { IfOk result (λ told. IfSome told (IsAllowed wants.now)) }
        ensures of { IfOk result (λ told. IfSome told (IsHeardAt self.old.lines.items at)) }
        ensures read { IfOk result (λ told. IfSome told (LiesIn self.new.room.bytes.items)) }
        ensures heard { IfOk result (λ told. HeardIn P.gave P.took self.old.lines.items at told self.new.lines.items) }
        ensures next { at < self.old.next → self.new.next + vec_len self.old.lines ≡ self.old.next + vec_len self.new.lines }
        ensures looks { self.new.looks ≡ self.old.looks }
    {
        let told = self.lines[at].heard(alloc, wants, &mut self.room)?;
        if let Some(fault) = fault_told(&told, self.lines[at].fault) {
            self.notices.note(Notice::Upstream(fault));
        }
        self.forget(at);
        Ok(told)
    }

    /// The number of a line that comes. One that can't be kept is closed.
    fn arrive<R: Wait>(&mut self, rt: &R) -> Result<Option<LineNo>, OutOfMemory>
        ensures line { IfOk result (λ line. Arrives self.old.lines.items line self.new.lines.items) }
        ensures few { AreFew self.old.lines.items → AreFew self.new.lines.items }
        ensures looks { self.new.looks ≡ self.old.looks }
    {
        for _ in 0..u32::MAX {
            let kept = clients_in(&self.lines);
            let Some(guest) = self.origin.next(rt, kept, self.looks.seen) else {
                return Ok(None);
            };
            let AcceptedLine { number, stream } = guest;
            if self.begin(number, stream)? {
                return Ok(Some(number));
            }
        }
        Ok(None)
    }

    /// Keeps a line of a number that no other has. False says that it was closed: enough are kept, or the system refuses one more, which is told. Where memory
    /// refuses it no line is kept.
    fn begin(&mut self, number: LineNo, stream: TcpStream) -> Result<bool, OutOfMemory>
        ensures line { IfOk result (λ kept. Begins self.old.lines.items number kept self.new.lines.items) }
        ensures few { AreFew self.old.lines.items → AreFew self.new.lines.items }
        ensures looks { self.new.looks ≡ self.old.looks }
    {
        if !self.may_keep(number) {
            return Ok(false);
        }
        let token = token_of(number, Side::Down);
        match P::over(stream, self.poll.registry(), token, false) {
            Ok(down) => self.keep(number, down)?,
            Err(e) if e.kind() == io::ErrorKind::OutOfMemory => return Err(AllocError),
            Err(_) => {
                self.notices.note(Notice::NotAccepted);
                return Ok(false);
            }
        }
        Ok(true)
    }

    /// Whether one client's line more may be kept, of this number, which no other has.
    fn may_keep(&self, number: LineNo) -> bool
        ensures client { IsTrue result → number < first_call }
        ensures fresh { IsTrue result → position (λ line. line.number == number) self.now.lines.items ≡ None }
        ensures few { IsTrue result → length self.now.lines.items < most_lines + calls_in self.now.lines.items }
    {
        if is_call(number) || !has_room(&self.lines) {
            return false;
        }
        let None = place_of(&self.lines, number) else {
            return false;
        };
        true
    }

    /// Keeps a client's line of a number that no other has, with this connection to its client, in front of those of callouts.
    #[tactic(auto, using(crate::proofs::CallLines::few_more, crate::proofs::CallLines::comes))]
    fn keep(&mut self, number: LineNo, down: P) -> Result<(), OutOfMemory>
        requires client { number < first_call }
        requires fresh { position (λ line. line.number == number) self.old.lines.items ≡ None }
        requires few { length self.old.lines.items < most_lines + calls_in self.old.lines.items }
        ensures line { OnOk result (Comes self.old.lines.items number self.new.lines.items) }
        ensures err { OnErr result (self.new.lines.items ≡ self.old.lines.items) }
        ensures few { AreFew self.new.lines.items }
        ensures looks { self.new.looks ≡ self.old.looks }
    {
        let line = SocketPair {
            number,
            down: Some(down),
            up: None,
            refused: false,
            server_first: false,
            fault: None,
            is_short: false,
            is_due: false,
        };
        let at = clients_in(&self.lines);
        self.lines.insert(at, line)?;
        self.step_on(at);
        Ok(())
    }

    /// A line was put at a place: where the one that is heard next comes after it, it stays the next.
    fn step_on(&mut self, at: usize)
        ensures { self.new ≡ record self.old { next = self.new.next } }
    {
        if at < self.next {
            self.next = self.next.saturating_add(1);
        }
    }

    /// Begins the upstream connection of a line. Where no line has the number, and it is a callout's, its line begins.
    pub fn connect<R: Net>(
        &mut self,
        alloc: Global,
        rt: &R,
        number: LineNo,
    ) -> Result<(), OutOfMemory>
        ensures connected { OnOk result (ConnectsIn self.old.lines.items number self.new.lines.items) }
        ensures begun { OnOk result (BeginsIn P.gave P.took self.old.lines.items number self.new.lines.items) }
        ensures err { OnErr result (self.new.lines.items ≡ self.old.lines.items) }
    {
        let Some(at) = find(&self.lines, number) else {
            return self.begin_call(alloc, rt, number);
        };
        let peer = connected(rt, self.poll.registry(), self.upstream, number);
        self.notices
            .add(Notice::Undialled, u32::from(peer.is_none()));
        self.join_at(alloc, at, peer);
        Ok(())
    }

    /// Begins the line of a callout, where no line has its number. Any other number is left out, and one more than there may be.
    #[tactic(auto, using(crate::proofs::CallLines::left_out, crate::proofs::CallLines::left_out_anew))]
    fn begin_call<R: Net>(
        &mut self,
        alloc: Global,
        rt: &R,
        number: LineNo,
    ) -> Result<(), OutOfMemory>
        requires none { position (λ line. line.number == number) self.old.lines.items ≡ None }
        ensures connected { OnOk result (ConnectsIn self.old.lines.items number self.new.lines.items) }
        ensures begun { OnOk result (BeginsIn P.gave P.took self.old.lines.items number self.new.lines.items) }
        ensures err { OnErr result (self.new.lines.items ≡ self.old.lines.items) }
    {
        if !may_call(&self.lines, number) {
            return Ok(());
        }
        let peer = connected(rt, self.poll.registry(), self.upstream, number);
        self.notices
            .add(Notice::Undialled, u32::from(peer.is_none()));
        self.add_call(alloc, number, peer)
    }

    /// Puts the line of a callout after the others, with this connection to the server, or with none.
    #[tactic(auto, using(crate::proofs::CallLines::called, crate::proofs::CallLines::called_anew))]
    fn add_call(
        &mut self,
        alloc: Global,
        number: LineNo,
        peer: Option<P>,
    ) -> Result<(), OutOfMemory>
        requires call { IsTrue (is_call number) }
        requires none { position (λ line. line.number == number) self.old.lines.items ≡ None }
        requires few { calls_in self.old.lines.items < most_calls }
        requires unused { IfSome peer (IsUnused P.gave P.took) }
        ensures connected { OnOk result (ConnectsIn self.old.lines.items number self.new.lines.items) }
        ensures begun { OnOk result (BeginsIn P.gave P.took self.old.lines.items number self.new.lines.items) }
        ensures err { OnErr result (self.new.lines.items ≡ self.old.lines.items) }
    {
        let line = line_of_call(alloc, number, peer);
        self.lines.push(line)?;
        Ok(())
    }

    /// Goes on with this connection to the server of the line at a place, or with none.
    fn join_at(&mut self, alloc: Global, at: usize, peer: Option<P>)
        requires at { at < vec_len self.old.lines }
        requires unused { IfSome peer (IsUnused P.gave P.took) }
        ensures { BegunAt P.gave P.took self.old.lines.items at self.new.lines.items }
    {
        let line = &mut self.lines[at];
        line.join(alloc, peer);
    }

    /// Offers bytes to a peer. Those for a peer that is not there are dropped, and a server takes them whole.
    pub fn send(
        &mut self,
        alloc: Global,
        number: LineNo,
        side: Side,
        bytes: &[u8],
    ) -> Result<usize, OutOfMemory>
        ensures bound { IfOk result (λ n. n ≤ length bytes.now) }
        ensures whole { side ≡ Side.Up → IfOk result (λ n. n ≡ length bytes.now) }
        ensures sent { IfOk result (λ n. SentIn P.gave P.took self.old.lines.items number side bytes.now n self.new.lines.items) }
        ensures notices { self.new.notices ≡ self.old.notices }
    {
        let Some(at) = find_near(&self.lines, number, self.behind) else {
            return Ok(bytes.len());
        };
        self.behind = at + 1;
        send_at(&mut self.lines, alloc, at, side, bytes)
    }

    /// What is offered to the client of a line in the turn of something that its server sent: an answer 502 that begins there is told to the operator.
    pub fn note_answer(&mut self, number: LineNo, bytes: &[u8])
        ensures noted { CountsAnswer self.old.lines.items number bytes.now self.old.notices.counts self.new.notices.counts }
        ensures rest { self.new ≡ record self.old { notices = self.new.notices } }
    {
        if !begins_bad_gateway(bytes) {
            return;
        }
        if let Some(at) = find(&self.lines, number) {
            if self.lines[at].begins_answer() {
                self.notices.note(Notice::BadGateway);
            }
        }
    }

    /// Lets a line go of which no connection is left: one whose client is gone is not closed by the worker. Where the line that is heard next comes behind
    /// it, that one stays the next.
    fn forget(&mut self, at: usize)
        ensures room { self.new.room ≡ self.old.room }
        ensures lines { Forgets self.old.lines.items at self.new.lines.items }
        ensures next { at < self.old.next → self.new.next + vec_len self.old.lines ≡ self.old.next + vec_len self.new.lines }
        ensures before { self.old.next ≤ at → self.new.next ≡ self.old.next }
        ensures looks { self.new.looks ≡ self.old.looks }
    {
        if at < self.lines.len() && self.lines[at].is_over() {
            let line = self.lines.remove(at);
            drop(line);
            self.step_back(at);
            // A descriptor came free.
            self.origin.note_free();
        }
    }

    /// The line at a place is gone: where the one that is heard next comes after it, it stays the next.
    fn step_back(&mut self, at: usize)
        ensures next { at < self.old.next → self.new.next + 1 ≡ self.old.next }
        ensures before { self.old.next ≤ at → self.new.next ≡ self.old.next }
        ensures rest { self.new ≡ record self.old { next = self.new.next } }
    {
        if at < self.next {
            self.next -= 1;
        }
    }

    /// Closes a connection, of which nothing more is told. What waits for it is sent on.
    pub fn close<R: TimeSource>(&mut self, alloc: Global, rt: &R, number: LineNo, side: Side)
        ensures { ClosedIn self.old.lines.items number side self.new.lines.items }
    {
        let Some(at) = place_of(&self.lines, number) else {
            return;
        };
        match side {
            Side::Down => self.close_down(alloc, rt, at),
            Side::Up => self.close_up(rt, at),
        }
    }

    /// Closes the connection to the client of the line at a place, and forgets the line. Where the server broke off in mid-answer the client is told so.
    fn close_down<R: TimeSource>(&mut self, alloc: Global, rt: &R, at: usize)
        requires { at < vec_len self.old.lines }
        ensures { self.new.lines.items ≡ remove self.old.lines.items at }
    {
        let number = self.lines[at].number;
        let cut = self.lines[at].is_cut();
        let client = client_of(self.lines.remove(at));
        self.step_back(at);
        match client {
            Some(peer) if cut => peer.reset(),
            Some(peer) => self.finish(alloc, rt, number, peer),
            None => {}
        }
        // A descriptor came free.
        self.origin.note_free();
    }

    /// Tells the client of a line that nothing more comes, and lets its connection linger. One that is over is dropped.
    fn finish<R: TimeSource>(&mut self, alloc: Global, rt: &R, number: LineNo, peer: P)
        ensures { self.new.lines ≡ self.old.lines }
    {
        if !peer.is_ended() && !peer.is_broken() {
            peer.finish();
            let token = token_of(number, Side::Down);
            self.linger(rt, token, peer, UnsentBytes::new(alloc), LINGER_MOST);
        }
    }

    /// Closes the connection to the server of the line at a place.
    fn close_up<R: TimeSource>(&mut self, rt: &R, at: usize)
        requires { at < vec_len self.old.lines }
        ensures { ClosedUp self.old.lines.items at self.new.lines.items }
    {
        let line = &mut self.lines[at];
        line.refused = false;
        if let Some(up) = line.up.take() {
            self.leave(rt, up);
        }
        self.forget(at);
    }

    /// Sends on what waits for a server whose connection is closed, where something does, and not too much.
    fn leave<R: TimeSource>(&mut self, rt: &R, up: Upstream<P>)
        ensures { self.new.lines ≡ self.old.lines }
    {
        let Upstream { peer, waiting } = up;
        if !waiting.is_empty() && waiting.len() <= MOST_LEFT && !peer.is_broken() {
            self.send_on(rt, peer, waiting);
        }
    }

    /// Sends on what waits for a server whose connection is closed, under a token of its own.
    fn send_on<R: TimeSource>(&mut self, rt: &R, peer: P, waiting: UnsentBytes)
        ensures { self.new.lines ≡ self.old.lines }
    {
        let token = Token(CLOSED + self.closed as usize);
        self.closed = self.closed.wrapping_add(1);
        let mut peer = peer;
        if peer.move_to(self.poll.registry(), token) {
            self.linger(rt, token, peer, waiting, LINGER);
        }
    }

    /// Lets a connection linger until nothing came of it for a second, for so long at most. Where too many do, the first of them is dropped.
    fn linger<R: TimeSource>(
        &mut self,
        rt: &R,
        token: Token,
        peer: P,
        waiting: UnsentBytes,
        most: u64,
    )
        ensures { self.new.lines ≡ self.old.lines }
    {
        if let Ok(now) = self.moments.now(rt) {
            let until = now.saturating_add(LINGER);
            let last = now.saturating_add(most);
            let closed = Lingering {
                token,
                peer,
                waiting,
                until,
                last,
            };
            self.go_on(closed, now);
        }
    }

    /// Goes on with a connection that was closed, as of this moment, and keeps it where it is not over.
    fn go_on(&mut self, closed: Lingering<P>, now: u64)
        ensures { self.new.lines ≡ self.old.lines }
    {
        let mut closed = closed;
        if closed.goes_on(&mut self.room, now) {
            self.drop_first();
            // There is room for as many as linger at most.
            let _ = self.lingering.push(closed);
        }
    }

    /// Drops the first of those that linger where too many do.
    fn drop_first(&mut self)
        ensures { self.new.lines ≡ self.old.lines }
    {
        if self.lingering.len() >= MOST_LINGERING {
            let closed = self.lingering.remove(0);
            drop(closed);
        }
    }

    /// The last moment at which the clock was read.
    pub fn seen(&self) -> u64
        ensures { result ≡ self.now.looks.seen }
    {
        self.looks.seen
    }

    /// How often each kind of what an operator is to be told of came, where it is time to tell: once a second at most, and the last time in any case.
    pub fn take_notices(&mut self, is_last: bool) -> Option<[u32; KINDS]>
        ensures lines { self.new.lines ≡ self.old.lines }
        ensures room { self.new.room ≡ self.old.room }
        ensures looks { self.new.looks ≡ self.old.looks }
    {
        self.origin.tell(&mut self.notices);
        self.notices.take(self.looks.seen, is_last)
    }

    /// No line comes any more, and the other workers are told so.
    pub fn end(&mut self)
        ensures ended { HasEnded self.new.origin }
        ensures lines { self.new.lines ≡ self.old.lines }
    {
        self.origin.end();
    }
}

/// Whether bytes begin with the first line of an answer 502.
fn begins_bad_gateway(bytes: &[u8]) -> bool
    ensures { result ≡ begins_bad_gateway bytes.now }
{
    bytes.starts_with(b"HTTP/1.1 502 ")
}

/// The place of the line of a token, which is looked for by halves first, as in `find`.
fn place_of_token<P>(lines: &[SocketPair<P>], token: Token, side: Side) -> Option<usize>
    ensures within { IfSome result (λ i. i < length lines.now) }
{
    let number = token.0 / 2;
    let at = lines.partition_point(|line| (line.number.get() as usize) < number);
    if at < lines.len() && token_of(lines[at].number, side) == token {
        Some(at)
    } else {
        lines
            .iter()
            .position(|line| token_of(line.number, side) == token)
    }
}

/// Keeps what the system told.
#[tactic(auto, using(crate::proofs::Kept::kept_same, crate::proofs::Kept::kept_more))]
fn note_all<P: Duplex>(
    events: &Events,
    origin: &mut Origin,
    lines: &mut Vec<SocketPair<P>>,
    lingering: &mut [Lingering<P>],
)
    ensures { AreKept P.gave P.took lines.old.items lines.new.items }
{
    for event in events {
        if event.token() == ORIGIN {
            origin.note();
        } else {
            note(lines, lingering, event);
        }
    }
}

/// Keeps what the system told of a connection.
#[tactic(auto, using(crate::proofs::Kept::kept_same, crate::proofs::Kept::heard_in_kept))]
fn note<P: Duplex>(
    lines: &mut Vec<SocketPair<P>>,
    lingering: &mut [Lingering<P>],
    event: &Readiness,
)
    ensures { AreKept P.gave P.took lines.old.items lines.new.items }
{
    let token = event.token();
    let side = side_of(token);
    if let Some(at) = place_of_token(lines, token, side) {
        note_at(lines, at, side, event);
        return;
    }
    for closed in lingering.iter_mut() {
        if closed.token == token {
            closed.peer.note(event);
            return;
        }
    }
}

/// The first of two moments, where there are some.
fn first_of(a: Option<u64>, b: Option<u64>) -> Option<u64> {
    match (a, b) {
        (Some(a), Some(b)) => Some(a.min(b)),
        (a, None) => a,
        (None, b) => b,
    }
}

/// Whether a moment has come.
fn has_come(due: Option<u64>, now: u64) -> bool
    ensures { IsTrue result → IsSomeAnd due (λ moment. moment ≤ now) }
{
    match due {
        Some(due) => due <= now,
        None => false,
    }
}

/// What went wrong with the connection to the server of a line, where this is told of it.
fn fault_told(told: &Option<What>, fault: Option<Fault>) -> Option<Fault> {
    match told {
        Some(
            What::Refused { .. }
            | What::Gone { side: Side::Up, .. }
            | What::End { side: Side::Up, .. },
        ) => fault,
        _ => None,
    }
}

/// The connection to the client of a line, of which nothing else is kept.
fn client_of<P: Duplex>(line: SocketPair<P>) -> Option<P> {
    let SocketPair {
        number: _,
        down,
        up: _,
        refused: _,
        server_first: _,
        fault: _,
        is_short: _,
        is_due: _,
    } = line;
    down
}

/// An upstream connection that is begun.
fn connected<P: Duplex, R: Net>(
    rt: &R,
    registry: &Registry,
    upstream: SocketAddr,
    number: LineNo,
) -> Option<P>
    ensures { IfSome result (IsUnused P.gave P.took) }
{
    let stream = TcpStream::connect(rt, upstream).ok()?;
    P::over(stream, registry, token_of(number, Side::Up), true).ok()
}
