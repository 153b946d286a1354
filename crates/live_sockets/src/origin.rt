// Where a worker's lines come from.
ghost use Rattle.std.specs.Prelude.{◌≡◌, ℕ, ◌+◌, ◌<◌, ◌≤◌, ◌⊎◌, ◌||◌, [], ◌∷◌, ◌++◌, false, length, nat_le, vec_len, IsTrue, IfOk, IfSome, IfNone, IsSome, IsSomeAnd};
ghost use Rattle.std.specs.Arc.{arc_value};
ghost use Rattle.live_sockets.specs.Calls.{first_call};
ghost use Rattle.live_sockets.specs.Numbers.{MayGain, home_of};
ghost use Rattle.live_sockets.specs.Offers.{OffersOnce};
ghost use Rattle.live_sockets.specs.Places.{HasWaited, most_places};

use crate::desk::{AcceptState, Desk};
use crate::notices::{Notice, Notices};
use gate_base::{LineNo, OutOfMemory};
use handoff::{Giver, Handoff, HasLine, Taker};
use mio::Waker;
use mio::net::{TcpListener, TcpStream};
use std::alloc::Global;
use std::io;
use std::sync::{Arc, Wait};

/// So many lines may come in front of what is told of open ones. Once they came, one more may for each event of an open line, and as many again once
/// none is told of any.
const ARRIVALS: u32 = 32;

/// So many lines a worker has open at most. Where it keeps as many, with those that wait to be closed, it has no place for a further one.
const PLACES: u64 = 128;

/// The last number of a client's line: those after it are of callouts.
const LAST: u32 = 2_147_483_647;

/// So many nanoseconds pass until a line that the system refused is asked for again.
const REFUSED: u64 = 100_000_000;

/// So many nanoseconds pass until a place is looked for again for a line that waits for one.
const FULL: u64 = 10_000_000;

/// So many nanoseconds pass until it is looked again whether a worker asks for events.
const BEGINS: u64 = 1_000_000_000;

/// So many nanoseconds a line waits where no worker has a place for one, before it is accepted all the same.
const PATIENCE: u64 = 1_000_000_000;

/// So many nanoseconds after the beginning of a life a worker may take until it asks for events.
const GIVE_UP: u64 = 10_000_000_000;

/// A line that was accepted.
#[derive(Drop)]
pub struct AcceptedLine {
    pub number: LineNo,
    pub stream: TcpStream,
}

impl HasLine for AcceptedLine {
    ghost line = { λ guest. guest.number };
}

/// The queue to another worker.
#[derive(Drop)]
pub struct Neighbor {
    queue: Arc<Handoff<AcceptedLine>>,
    giver: Giver<AcceptedLine>,
    waker: Waker,
    /// What the worker tells.
    desk: Arc<Desk>,
    /// How many lines were handed over.
    given: u64,
    /// What is seen of its beginning.
    silence: Silence,
    ghost same: { giver.queue ≡ arc_value queue },
}

/// What one worker sees of another that began a life and does not ask for events in it.
#[derive(Clone, Copy)]
enum Silence {
    /// It asks for events.
    Over,
    /// It does not since this moment.
    Since(u64),
    /// It did not for ten seconds, which was noticed.
    Noticed,
}

impl Silence {
    /// What is seen at this moment, where the worker asks for events or does not.
    fn after(self, asks: bool, now: u64) -> Silence {
        if asks {
            return Silence::Over;
        }
        match self {
            Silence::Over => Silence::Since(now),
            Silence::Since(since) if now.saturating_sub(since) >= GIVE_UP => Silence::Noticed,
            Silence::Since(since) => Silence::Since(since),
            Silence::Noticed => Silence::Noticed,
        }
    }
}

/// The queue from the worker that accepts.
#[derive(Drop)]
pub struct Mailbox {
    queue: Arc<Handoff<AcceptedLine>>,
    taker: Taker<AcceptedLine>,
    /// A line may be there to take.
    ready: bool,
    /// So many may be taken before an open line is heard.
    left: u32,
    /// What this worker tells the one that accepts.
    desk: Arc<Desk>,
    /// How many lines were taken.
    taken: u64,
    /// How far the worker that accepts is.
    stage: Arc<AcceptState>,
    /// Since when that worker was seen to begin a life and not to ask for events, where it does.
    begins: Option<u64>,
    /// All lines were taken that are ever offered.
    empty: bool,
    /// How often it was given up that the worker that accepts asks for events, since that was told.
    given_up: u32,
    ghost same: { taker.queue ≡ arc_value queue },
}

/// The listening socket, from which lines go to all workers in turn.
#[derive(Drop)]
pub struct Acceptor {
    listener: TcpListener,
    ready: bool,
    /// A line that waits was refused by the system, as where no descriptor is left, and it tells nothing more of it.
    refused: bool,
    /// So many may be accepted before an open line is heard.
    left: u32,
    /// How many lines were accepted.
    accepted: u32,
    /// The number of the last of them.
    number: u32,
    /// How many are to be accepted.
    most: u32,
    /// Since when no worker had a place for the next line, where none has.
    waits: Option<u64>,
    /// How many lines were accepted for which no worker had a place, since that was told.
    forced: u32,
    /// How often the system refused a line, since that was told.
    refusals: u32,
    /// How many other workers began a life and did not ask for events for ten seconds, since that was told.
    silent: u32,
    others: Vec<Neighbor>,
    /// How far this worker is.
    stage: Arc<AcceptState>,
}

/// Where a worker's lines come from.
#[derive(Drop)]
pub enum Origin {
    Listener(Acceptor),
    Mailbox(Mailbox),
}

/// A queue from the worker that accepts to another one, which this waker wakes.
pub fn join_queue(
    alloc: Global,
    waker: Waker,
    stage: Arc<AcceptState>,
) -> Result<(Neighbor, Mailbox), OutOfMemory>
    ensures { IfOk result (λ ends. ends.0.giver.lines ≡ []) }
{
    let Queue {
        queue,
        theirs,
        giver,
        taker,
    } = queue_of(alloc)?;
    let desk = Arc::new(alloc, Desk::new())?;
    let told = Arc::try_clone(&desk)?;
    Ok((
        Neighbor {
            queue,
            giver,
            waker,
            desk: told,
            given: 0,
            silence: Silence::Over,
        },
        Mailbox {
            queue: theirs,
            taker,
            ready: true,
            left: ARRIVALS,
            desk,
            taken: 0,
            stage,
            begins: None,
            empty: false,
            given_up: 0,
        },
    ))
}

/// A queue, twice, with both of its ends.
#[derive(Drop)]
struct Queue {
    queue: Arc<Handoff<AcceptedLine>>,
    theirs: Arc<Handoff<AcceptedLine>>,
    giver: Giver<AcceptedLine>,
    taker: Taker<AcceptedLine>,
    ghost gives: { giver.queue ≡ arc_value queue },
    ghost takes: { taker.queue ≡ arc_value theirs },
}

/// A queue to which nothing was offered.
fn queue_of(alloc: Global) -> Result<Queue, OutOfMemory>
    ensures { IfOk result (λ queue. queue.giver.lines ≡ []) }
{
    let (queue, giver, taker) = Handoff::new(alloc)?;
    let queue = Arc::new(alloc, queue)?;
    let theirs = Arc::try_clone(&queue)?;
    Ok(Queue {
        queue,
        theirs,
        giver,
        taker,
    })
}

impl Neighbor {
    /// Hands a line over. One that comes back is closed, never before 128 were handed over.
    fn hand<R: Wait>(&mut self, rt: &R, guest: AcceptedLine)
        ensures gains { MayGain self.old.giver.lines guest.number self.new.giver.lines }
        ensures full { (self.new.giver.lines ≡ self.old.giver.lines ++ guest.number ∷ []) ⊎ (128 ≤ length self.old.giver.lines) }
        ensures offered { OffersOnce self.old.giver guest.number self.new.giver }
    {
        if self.queue.offer(rt, &mut self.giver, guest).is_ok() {
            self.given = self.given.wrapping_add(1);
            let _ = self.waker.wake();
        }
    }

    /// Looks at this moment whether its worker asks for events, and answers with what was seen before.
    fn watch(&mut self, now: u64) -> Silence
        ensures { self.new.giver ≡ self.old.giver }
    {
        let before = self.silence;
        self.silence = before.after(self.desk.asks(), now);
        before
    }

    /// Whether its worker has a place for one line more. One that began a life and did not ask for events in it has none.
    fn has_place(&self) -> bool {
        self.desk.asks() && self.given.wrapping_sub(self.desk.over()) < PLACES
    }
}

impl Mailbox {
    /// A line that was handed over. None comes where the queue gives none, and once as many came as may before an open line is heard.
    fn take<R: Wait>(&mut self, rt: &R) -> Option<AcceptedLine>
        ensures few { IfSome result (λ guest. self.new.left < self.old.left) }
        ensures some { IfSome result (λ guest. self.new.taker.lines ≡ self.old.taker.lines ++ guest.number ∷ []) }
        ensures none { IfNone result (self.new.taker.lines ≡ self.old.taker.lines) }
        ensures asked { IfNone result ((self.old.ready ≡ false) ⊎ ((self.old.left ≡ 0) ⊎ (self.new.taker.refusals ≡ self.old.taker.refusals + 1))) }
        ensures stays { (self.new.ready ≡ self.old.ready) ⊎ (self.new.taker.refusals ≡ self.old.taker.refusals + 1) }
    {
        if !self.ready {
            return None;
        }
        if self.left == 0 {
            return None;
        }
        self.left -= 1;
        // Read first: where it is so, nothing comes after what the queue holds.
        let ended = self.stage.has_ended();
        match self.queue.take(rt, &mut self.taker) {
            Some(guest) => {
                self.taken = self.taken.wrapping_add(1);
                Some(guest)
            }
            None => {
                self.ready = false;
                self.empty = ended;
                None
            }
        }
    }

    /// So many lines are kept: the others that were taken are over.
    fn note_kept(&self, kept: usize) {
        self.desk.note_over(self.taken.wrapping_sub(kept as u64));
    }

    /// Looks at this moment whether the worker that accepts asks for events. One that began a life and did not for ten seconds never will: then no line
    /// comes any more. True where it began one and does not yet.
    fn watch(&mut self, now: u64) -> bool
        ensures { self.new.taker ≡ self.old.taker }
    {
        if self.stage.has_ended() {
            self.ready = !self.empty;
        }
        if !self.stage.is_beginning() {
            self.begins = None;
            return false;
        }
        let since = self.begins.unwrap_or(now);
        self.begins = Some(since);
        if now.saturating_sub(since) >= GIVE_UP {
            self.stage.end();
            self.given_up = 1;
            self.ready = true;
        }
        true
    }
}

/// The place of the worker of a line, where so many others are beside the first, whose place is 0.
fn home_of(number: LineNo, others: usize) -> usize
    ensures { result ≡ home_of number others }
{
    (number.get() as usize - 1) % (others.saturating_add(1))
}

/// A number of a client's line.
fn client_number(number: u32) -> Option<LineNo>
    ensures client { IfSome result (λ line. line < first_call) }
    ensures same { IfSome result (λ line. line ≡ number) }
{
    if number > LAST {
        return None;
    }
    LineNo::new(number)
}

impl Acceptor {
    ghost use Rattle.live_sockets.specs.Homes.{AreHome, offers};

    /// Accepts at a listener so many lines, for this worker and the others.
    pub fn new(
        listener: TcpListener,
        most: u32,
        others: Vec<Neighbor>,
        stage: Arc<AcceptState>,
    ) -> Self
        ensures none { result.accepted ≡ 0 }
        ensures number { result.number ≡ 0 }
        ensures most { result.most ≡ most }
        ensures others { result.others ≡ others }
    {
        Acceptor {
            listener,
            ready: true,
            refused: false,
            left: ARRIVALS,
            accepted: 0,
            number: 0,
            most,
            waits: None,
            forced: 0,
            refusals: 0,
            silent: 0,
            others,
            stage,
        }
    }

    /// Whether all lines were accepted, or all numbers given.
    fn is_done(&self) -> bool
        ensures { result ≡ (nat_le self.now.most self.now.accepted || nat_le 2147483647 self.now.number) }
    {
        self.accepted >= self.most || self.number >= LAST
    }

    /// Tells the other workers that no line comes any more.
    fn end(&self) {
        self.stage.end();
        self.wake_others();
    }

    /// Has the other workers look at what they were told.
    fn wake_others(&self) {
        for other in &self.others {
            let _ = other.waker.wake();
        }
    }

    /// Looks at this moment whether the other workers ask for events. True where one began a life and does not yet.
    fn watch_others(&mut self, now: u64) -> bool {
        let mut begins = false;
        for at in 0..self.others.len() {
            let before = self.others[at].watch(now);
            match (before, self.others[at].silence) {
                (_, Silence::Since(_)) => begins = true,
                (Silence::Since(_), Silence::Noticed) => {
                    self.silent = self.silent.saturating_add(1);
                }
                _ => {}
            }
        }
        begins
    }

    /// For how many nanoseconds the system is waited for at most, as in `Origin::looks_again`.
    fn looks_again(&mut self, now: u64) -> Option<u64> {
        if self.is_done() {
            return None;
        }
        let begins = self.watch_others(now);
        if self.refused {
            Some(REFUSED)
        } else if self.waits.is_some() {
            Some(FULL)
        } else if begins {
            Some(BEGINS)
        } else {
            None
        }
    }

    /// The next line of this worker, which keeps so many, at this moment. Those of others that came before it are handed over. Lines are numbered as they
    /// come; numbers of workers that have no place are passed over, and where none has one no line is accepted before it has waited for a second. None
    /// comes once as many were accepted as may be before an open line is heard.
    #[tactic(auto, using(crate::proofs::Homes::next_home))]
    fn accept<R: Wait>(&mut self, rt: &R, kept: usize, now: u64) -> Option<AcceptedLine>
        ensures grows { self.old.accepted ≤ self.new.accepted }
        ensures rises { self.old.number ≤ self.new.number }
        ensures most { self.new.most ≡ self.old.most }
        ensures within { self.old.accepted ≤ self.old.most → self.new.accepted ≤ self.new.most }
        ensures few { self.new.accepted + self.new.left ≤ self.old.accepted + self.old.left }
        ensures number { IfSome result (λ guest. (self.old.number < guest.number) × (guest.number ≡ self.new.number)) }
        ensures client { IfSome result (λ guest. guest.number < first_call) }
        ensures home { IfSome result (λ guest. home_of guest.number (vec_len self.new.others) ≡ 0) }
        ensures all { (k : ℕ) → self.old.number < k → k ≤ self.new.number → home_of k (vec_len self.new.others) ≡ 0 → IsSomeAnd result (λ guest. guest.number ≡ k) ⊎ (most_places ≤ kept) }
        ensures place { IfSome result (λ _. (kept < most_places) ⊎ HasWaited self.new.waits now) }
        ensures offered { AreHome self.old.number self.old.others.items → AreHome self.new.number self.new.others.items }
        ensures given { IfNone result (self.new.accepted + offers self.old.others.items ≡ self.old.accepted + offers self.new.others.items) }
        ensures own { IfSome result (λ _. self.new.accepted + offers self.old.others.items ≡ self.old.accepted + offers self.new.others.items + 1) }
    {
        for _ in 0..u32::MAX {
            if !self.ready || self.left == 0 || self.is_done() {
                return None;
            }
            let number = self.choose(kept, now)?;
            self.left -= 1;
            match self.listener.accept() {
                Ok((stream, _)) => match self.place(rt, number, stream) {
                    Some(guest) => return Some(guest),
                    None => {}
                },
                Err(e) if e.kind() == io::ErrorKind::ConnectionAborted => {}
                Err(e) => {
                    self.ready = false;
                    self.waits = None;
                    self.refused = e.kind() != io::ErrorKind::WouldBlock;
                    self.refusals = self.refusals.saturating_add(u32::from(self.refused));
                }
            }
        }
        None
    }

    /// The number of the next line, where this worker keeps so many: the next one whose worker has a place for it. Where none has one, the line waits for a
    /// second, and then has the next number all the same: so long none comes.
    fn choose(&mut self, kept: usize, now: u64) -> Option<LineNo>
        ensures client { IfSome result (λ number. number < first_call) }
        ensures rest { self.new ≡ record self.old { waits = self.new.waits; forced = self.new.forced } }
        ensures next { IfSome result (λ number. self.old.number < number) }
        ensures passed { IfSome result (λ number. (k : ℕ) → self.old.number < k → k < number → home_of k (vec_len self.old.others) ≡ 0 → most_places ≤ kept) }
        ensures place { IfSome result (λ number. home_of number (vec_len self.old.others) ≡ 0 → (kept < most_places) ⊎ HasWaited self.new.waits now) }
    {
        if let Some(number) = self.free_number(kept) {
            self.waits = None;
            return Some(number);
        }
        let since = self.waits.unwrap_or(now);
        self.waits = Some(since);
        if now.saturating_sub(since) < PATIENCE {
            return None;
        }
        self.forced = self.forced.saturating_add(1);
        client_number(self.number.checked_add(1)?)
    }

    /// The next number of a worker that has a place, where this worker keeps so many lines.
    fn free_number(&self, kept: usize) -> Option<LineNo>
        ensures client { IfSome result (λ number. number < first_call) }
        ensures next { IfSome result (λ number. self.now.number < number) }
        ensures passed { IfSome result (λ number. (k : ℕ) → self.now.number < k → k < number → home_of k (vec_len self.now.others) ≡ 0 → most_places ≤ kept) }
        ensures place { IfSome result (λ number. home_of number (vec_len self.now.others) ≡ 0 → kept < most_places) }
    {
        let mut number = self.number;
        for _ in 0..=self.others.len() {
            number = number.checked_add(1)?;
            let next = client_number(number)?;
            if self.has_place(next, kept) {
                return Some(next);
            }
        }
        None
    }

    /// Whether the worker of a number has a place, where this one keeps so many lines.
    fn has_place(&self, number: LineNo, kept: usize) -> bool
        ensures own { IsTrue result → home_of number (vec_len self.now.others) ≡ 0 → kept < most_places }
        ensures none { home_of number (vec_len self.now.others) ≡ 0 → kept < most_places → IsTrue result }
    {
        let place = home_of(number, self.others.len());
        if place == 0 {
            (kept as u64) < PLACES
        } else {
            self.others[place - 1].has_place()
        }
    }

    /// Gives a line a number after the last, and hands it over where it is another worker's.
    fn place<R: Wait>(&mut self, rt: &R, number: LineNo, stream: TcpStream) -> Option<AcceptedLine>
        requires few { self.old.accepted < self.old.most }
        requires next { self.old.number < number }
        ensures next { self.new.accepted ≡ self.old.accepted + 1 }
        ensures last { self.new.number ≡ number }
        ensures most { self.new.most ≡ self.old.most }
        ensures left { self.new.left ≡ self.old.left }
        ensures waits { self.new.waits ≡ self.old.waits }
        ensures number { IfSome result (λ guest. guest.number ≡ number) }
        ensures home { IfSome result (λ guest. home_of guest.number (vec_len self.new.others) ≡ 0) }
        ensures keeps { home_of number (vec_len self.new.others) ≡ 0 → IsSome result }
        ensures others { vec_len self.new.others ≡ vec_len self.old.others }
        ensures offered { AreHome self.old.number self.old.others.items → AreHome self.new.number self.new.others.items }
        ensures given { IfNone result (offers self.new.others.items ≡ offers self.old.others.items + 1) }
        ensures kept { IfSome result (λ _. offers self.new.others.items ≡ offers self.old.others.items) }
    {
        self.accepted += 1;
        self.number = number.get();
        let own = self.route(rt, AcceptedLine { number, stream });
        if self.is_done() {
            self.end();
        }
        own
    }

    /// Keeps a line of this worker, and hands over one of another.
    fn route<R: Wait>(&mut self, rt: &R, guest: AcceptedLine) -> Option<AcceptedLine>
        ensures own { IfSome result (λ own. own ≡ guest) }
        ensures home { IfSome result (λ own. home_of guest.number (vec_len self.new.others) ≡ 0) }
        ensures keeps { home_of guest.number (vec_len self.new.others) ≡ 0 → IsSome result }
        ensures others { vec_len self.new.others ≡ vec_len self.old.others }
        ensures stays { (self.new.accepted ≡ self.old.accepted) × (self.new.most ≡ self.old.most) × (self.new.number ≡ self.old.number) × (self.new.waits ≡ self.old.waits) }
        ensures left { self.new.left ≡ self.old.left }
        ensures offered { (last : ℕ) → last < guest.number → AreHome last self.old.others.items → AreHome guest.number self.new.others.items }
        ensures given { IfNone result (offers self.new.others.items ≡ offers self.old.others.items + 1) }
        ensures kept { IfSome result (λ _. offers self.new.others.items ≡ offers self.old.others.items) }
    {
        let place = home_of(guest.number, self.others.len());
        if place == 0 {
            return Some(guest);
        }
        self.others[place - 1].hand(rt, guest);
        None
    }
}

impl Origin {
    ghost use Rattle.live_sockets.specs.Origins.{GivesNext, HasEnded, IsReady, is_done};

    /// The next line, where so many are kept, at this moment.
    pub fn next<R: Wait>(&mut self, rt: &R, kept: usize, now: u64) -> Option<AcceptedLine>
        ensures { GivesNext kept now self.old result self.new }
    {
        match self {
            Origin::Listener(acceptor) => acceptor.accept(rt, kept, now),
            Origin::Mailbox(mailbox) => {
                mailbox.note_kept(kept);
                mailbox.take(rt)
            }
        }
    }

    /// The worker begins a life: it is told to the others where it asks for events in it.
    pub fn begin_life(&self) {
        match self {
            Origin::Listener(acceptor) => {
                acceptor.stage.begin();
                acceptor.wake_others();
            }
            Origin::Mailbox(mailbox) => mailbox.desk.begin(),
        }
    }

    /// Tells what happened where lines come from.
    pub fn tell(&mut self, notices: &mut Notices) {
        match self {
            Origin::Listener(acceptor) => {
                notices.add(Notice::NoPlace, acceptor.forced);
                notices.add(Notice::NotAccepted, acceptor.refusals);
                notices.add(Notice::BeginsAnew, acceptor.stage.further_lives());
                notices.add(Notice::Silent, acceptor.silent);
                acceptor.forced = 0;
                acceptor.refusals = 0;
                acceptor.silent = 0;
            }
            Origin::Mailbox(mailbox) => {
                notices.add(Notice::NeverAsked, mailbox.given_up);
                notices.add(Notice::BeginsAnew, mailbox.desk.further_lives());
                mailbox.given_up = 0;
            }
        }
    }

    /// The worker asks for an event. Where the others gave up that the one that accepts ever would, it accepts no line.
    pub fn ask(&mut self) {
        match self {
            Origin::Listener(acceptor) => {
                if !acceptor.stage.ask() {
                    acceptor.most = 0;
                }
            }
            Origin::Mailbox(mailbox) => mailbox.desk.ask(),
        }
    }

    /// For how many nanoseconds the system is waited for at most, at this moment, where nothing is told meanwhile: not for long where a worker begins a life, and
    /// where a line waits for a place or was refused.
    pub fn looks_again(&mut self, now: u64) -> Option<u64> {
        match self {
            Origin::Listener(acceptor) => acceptor.looks_again(now),
            Origin::Mailbox(mailbox) => {
                if mailbox.watch(now) {
                    Some(BEGINS)
                } else {
                    None
                }
            }
        }
    }

    /// There may be a line.
    pub fn note(&mut self)
        ensures { IsReady self.new }
    {
        match self {
            Origin::Listener(acceptor) => acceptor.ready = true,
            Origin::Mailbox(mailbox) => mailbox.ready = true,
        }
    }

    /// So many lines may come before an open line is heard.
    fn left(&mut self) -> &mut u32 {
        match self {
            Origin::Listener(acceptor) => &mut acceptor.left,
            Origin::Mailbox(mailbox) => &mut mailbox.left,
        }
    }

    /// An open line was heard: one line more may come.
    pub fn allow_one(&mut self) {
        let left = self.left();
        *left = ARRIVALS.min(left.saturating_add(1));
    }

    /// Nothing is told of an open line: as many lines may come again.
    pub fn allow_all(&mut self) {
        *self.left() = ARRIVALS;
    }

    /// Whether lines may be there of which the system tells nothing more: not all were taken that were told of.
    pub fn is_waiting(&self) -> bool {
        match self {
            Origin::Listener(acceptor) => {
                acceptor.ready && acceptor.waits.is_none() && !acceptor.is_done()
            }
            Origin::Mailbox(mailbox) => mailbox.ready,
        }
    }

    /// Whether a line waits that the system refused, of which it tells nothing more.
    pub fn is_refused(&self) -> bool {
        match self {
            Origin::Listener(acceptor) => acceptor.refused && !acceptor.is_done(),
            Origin::Mailbox(_) => false,
        }
    }

    /// What the system refused may be asked for again.
    pub fn note_free(&mut self) {
        if let Origin::Listener(acceptor) = self {
            acceptor.ready = true;
            acceptor.refused = false;
        }
    }

    /// No line is accepted any more, and the other workers are told so.
    pub fn end(&mut self)
        ensures { HasEnded self.new }
    {
        if let Origin::Listener(acceptor) = self {
            acceptor.most = 0;
            acceptor.end();
        }
    }

    /// Whether no line comes any more.
    pub fn is_done(&self) -> bool
        ensures { result ≡ is_done self.now }
    {
        match self {
            Origin::Listener(acceptor) => acceptor.is_done(),
            Origin::Mailbox(mailbox) => mailbox.empty,
        }
    }
}
