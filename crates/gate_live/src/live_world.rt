// A worker's outside over sockets.
ghost use Rattle.std.specs.Prelude.{◌≡◌, ◌≤◌, ◌⊎◌, ◌↔◌, IsTrue, IfOk, IfSome, IfNone, IsSomeAnd, OnOk, OnErr};
ghost use Rattle.gate_io.specs.Events.{Follows, Obeys, is_stop};
ghost use Rattle.live_sockets.specs.Spent.{IsBefore, IsEarly, IsOfLine, is_clock};
ghost use Rattle.live_sockets.specs.Times.{IsTold};
ghost use Rattle.gate_live.specs.LogLine.{line_of};
ghost use Rattle.gate_live.specs.Logged.{notice_of};
ghost use Rattle.gate_io.specs.declared.event.What.TheVariants as whats;
ghost use Rattle.gate_live.specs.Timed.{IsMoment, IsTimed};
ghost use Rattle.gate_live.specs.Worlds.{IsAnswer, server_of, server_of_side, server_of_what};

use crate::log_line::log_line;
use crate::stderr::{LogStream, put_line};
use gate_base::{Level, LineNo, OutOfMemory};
use gate_io::{Event, Side, Wants, What, World, WorldEnd};
use live_lines::Duplex;
use live_sockets::{KINDS, LEVEL, Moments, Notice, Sockets, TEXTS, TimeSource};
use std::alloc::Global;
use std::net::Net;
use std::sync::Wait;

/// The outside of one worker over sockets, which writes the log to standard error. As a world it tells nothing of content: what its calls add to the
/// clauses of the trait is of its lines, over any connections.
#[derive(Drop)]
pub struct LiveWorld<R, P> {
    rt: R,
    seed: [u8; 32],
    sockets: Sockets<P>,
    now: u64,
    /// The last event was Clock.
    told: bool,
    stopped: bool,
    faults: u64,
    /// The last line for standard error was cut off.
    is_cut: bool,
    /// How many lines of the log were dropped, since that was told.
    dropped: u32,
    /// The line of whose server the last event brought bytes, or their end.
    answering: Option<LineNo>,
}

impl<R, P> LiveWorld<R, P> {
    ghost use Rattle.std.specs.Prelude.{◌≡◌, []};
    ghost use Rattle.gate_live.specs.Sites.{IsUntouched};
    ghost use Rattle.gate_live.specs.Worlds.{log_in};

    /// A world in which nothing has happened, over these sockets.
    pub(crate) fn new(rt: R, seed: [u8; 32], sockets: Sockets<P>) -> Self
        ensures untouched { sockets.lines.items ≡ [] → IsUntouched sockets.upstream result }
        ensures sockets { result.sockets ≡ sockets }
        ensures seed { result.seed ≡ seed }
        ensures rt { result.rt ≡ rt }
    {
        LiveWorld {
            rt,
            seed,
            sockets,
            now: 0,
            told: false,
            stopped: false,
            faults: 0,
            is_cut: false,
            dropped: 0,
            answering: None,
        }
    }

    /// A Clock comes at this moment.
    fn tick(&mut self, now: u64)
        ensures now { self.new.now ≡ now }
        ensures stopped { self.new.stopped ≡ self.old.stopped }
        ensures seed { self.new.seed ≡ self.old.seed }
        ensures faults { self.new.faults ≡ self.old.faults }
        ensures lines { self.new.sockets.lines ≡ self.old.sockets.lines }
        ensures log { log_in self.new ≡ log_in self.old }
    {
        // The system is asked in front of what is heard next, as in `Sockets::wait`.
        self.sockets.looks.ask_next();
        self.now = now;
        self.told = true;
    }
}

impl<R: Net + TimeSource + Wait + LogStream, P: Duplex> World for LiveWorld<R, P> {
    ghost use Rattle.std.specs.Prelude.{None, false, length};
    ghost use Rattle.gate_io.specs.Events.{after_next};
    ghost use Rattle.gate_io.specs.Told.{Rose};
    ghost use Rattle.live_lines.specs.Allowed.{no_promise};
    ghost use Rattle.gate_live.specs.Worlds.{last_in, nature_of, AcceptsNone, Asks, Gives, Sends, Connects, Begins, Closes, Counts, LogsNotices, log_in};
    ghost use Rattle.gate_live.specs.Logged.{IsLogged};

    ghost trace = { λ _. None };

    ghost last = { last_in };

    ghost nature = { nature_of };

    ghost faults = { λ w. w.faults };

    ghost faultless = { λ w h. no_promise h };

    ghost ends_at_last = { λ w. tt };

    ghost keeps_to_script = { λ w. tt };

    // The first clause of each method tells of the lines, `asked` of when the system was asked, `log` and `notices` of what is written of the log, `err` and `ended`
    // of what a failure leaves. The others repeat those of the trait.
    fn next(&mut self, alloc: Global, wants: &Wants) -> Result<Event, WorldEnd>
        ensures heard { IfOk result (λ event. Gives P.gave P.took self.old event.what self.new) }
        ensures asked { IfOk result (λ event. Asks self.old event.what self.new) }
        ensures timed { self.old.stopped ≡ false → IfOk result (IsTimed (IsTold (R.tells self.old.rt)) self.old.now wants.now.due) }
        ensures notices { LogsNotices R.logged R.refuses self.old self.new }
        ensures answering { self.new.answering ≡ server_of result }
        ensures event { IfOk result (Follows (last_in self.old)) }
        ensures last { last_in self.new ≡ after_next (last_in self.old) result }
        ensures obeys { IfOk result (λ event. Obeys wants.now event.what) }
        ensures nature { nature_of self.new ≡ nature_of self.old }
        ensures faults { self.old.faults ≤ self.new.faults }
        ensures failed { result ≡ Err WorldEnd.Failed → Rose self.old.faults self.new.faults }
        ensures ended { result ≡ Err WorldEnd.Failed → AcceptsNone self.new }
    {
        let answer = self.following(alloc, wants);
        self.answering = server_of(&answer);
        let is_last = self.stopped || answer.is_err();
        self.tell(alloc, is_last);
        if let Err(WorldEnd::Failed) = answer {
            self.faults = self.faults.saturating_add(1);
            self.sockets.end();
        }
        answer
    }

    fn send(
        &mut self,
        alloc: Global,
        line: LineNo,
        side: Side,
        bytes: &[u8],
    ) -> Result<usize, OutOfMemory>
        ensures sent { IfOk result (λ n. Sends P.gave P.took self.old line side bytes.now n self.new) }
        ensures counted { Counts self.old line side bytes.now self.new }
        ensures bound { IfOk result (λ n. n ≤ length bytes.now) }
        ensures log { log_in self.new ≡ log_in self.old }
        ensures last { last_in self.new ≡ last_in self.old }
        ensures nature { nature_of self.new ≡ nature_of self.old }
        ensures faults { self.new.faults ≡ self.old.faults }
    {
        if is_answer(self.answering, line, side) {
            self.sockets.note_answer(line, bytes);
        }
        self.sockets.send(alloc, line, side, bytes)
    }

    fn connect(&mut self, alloc: Global, line: LineNo) -> Result<(), OutOfMemory>
        ensures connected { OnOk result (Connects self.old line self.new) }
        ensures begun { OnOk result (Begins P.gave P.took self.old line self.new) }
        ensures err { OnErr result (self.new.sockets.lines.items ≡ self.old.sockets.lines.items) }
        ensures log { log_in self.new ≡ log_in self.old }
        ensures last { last_in self.new ≡ last_in self.old }
        ensures nature { nature_of self.new ≡ nature_of self.old }
        ensures faults { self.new.faults ≡ self.old.faults }
    {
        self.sockets.connect(alloc, &self.rt, line)
    }

    fn close(&mut self, alloc: Global, line: LineNo, side: Side) -> Result<(), OutOfMemory>
        ensures closed { Closes self.old line side self.new }
        ensures log { log_in self.new ≡ log_in self.old }
        ensures last { last_in self.new ≡ last_in self.old }
        ensures nature { nature_of self.new ≡ nature_of self.old }
        ensures faults { self.new.faults ≡ self.old.faults }
    {
        self.sockets.close(alloc, &self.rt, line, side);
        Ok(())
    }

    fn log(&mut self, alloc: Global, level: Level, text: &[u8]) -> Result<(), OutOfMemory>
        ensures log { OnOk result (IsLogged R.logged R.refuses (log_in self.old) (line_of level text.now) (log_in self.new)) }
        ensures err { OnErr result (log_in self.new ≡ log_in self.old) }
        ensures sockets { self.new.sockets ≡ self.old.sockets }
        ensures last { last_in self.new ≡ last_in self.old }
        ensures nature { nature_of self.new ≡ nature_of self.old }
        ensures faults { self.new.faults ≡ self.old.faults }
    {
        let line = log_line(alloc, level, text)?;
        self.show(&line);
        Ok(())
    }

    // A worker asks for it as it begins a life.
    fn seed(&self) -> [u8; 32] {
        self.sockets.origin.begin_life();
        self.seed
    }
}

impl<R: LogStream, P: Duplex> LiveWorld<R, P> {
    ghost use Rattle.std.specs.Prelude.{◌≡◌};
    ghost use Rattle.gate_live.specs.Logged.{IsLogged, MayNotice, Notices};
    ghost use Rattle.gate_live.specs.Worlds.{LogsNotices, log_in};

    /// Writes a line of the log. One that standard error does not take is dropped, and counted.
    fn show(&mut self, line: &[u8])
        ensures log { IsLogged R.logged R.refuses (log_in self.old) line.now (log_in self.new) }
        ensures rest { self.new ≡ record self.old { rt = self.new.rt; is_cut = self.new.is_cut; dropped = self.new.dropped } }
    {
        if !put_line(&mut self.rt, line, &mut self.is_cut) {
            self.dropped = self.dropped.saturating_add(1);
        }
    }

    /// Tells the operator what happened since the last time, once a second at most, and the last time in any case. Where there is no memory for a line it is not told.
    #[tactic(auto, using(crate::proofs::Logged::no_notices))]
    fn tell(&mut self, alloc: Global, is_last: bool)
        ensures notices { LogsNotices R.logged R.refuses self.old self.new }
        ensures lines { self.new.sockets.lines ≡ self.old.sockets.lines }
        ensures room { self.new.sockets.room ≡ self.old.sockets.room }
        ensures looks { self.new.sockets.looks ≡ self.old.sockets.looks }
        ensures now { self.new.now ≡ self.old.now }
        ensures stopped { self.new.stopped ≡ self.old.stopped }
        ensures seed { self.new.seed ≡ self.old.seed }
        ensures faults { self.new.faults ≡ self.old.faults }
        ensures answering { self.new.answering ≡ self.old.answering }
    {
        self.sockets.notices.add(Notice::Dropped, self.dropped);
        self.dropped = 0;
        if let Some(counts) = self.sockets.take_notices(is_last) {
            self.tell_all(alloc, &counts);
        }
    }

    /// Tells how often each kind of notice came that did.
    #[tactic(auto, using(crate::proofs::Logged::no_notices, crate::proofs::Logged::more_notices))]
    fn tell_all(&mut self, alloc: Global, counts: &[u32; KINDS])
        ensures notices { Notices R.logged R.refuses 12 (log_in self.old) (log_in self.new) }
        ensures rest { self.new ≡ record self.old { rt = self.new.rt; is_cut = self.new.is_cut; dropped = self.new.dropped } }
    {
        for kind in 0..KINDS {
            self.tell_one(alloc, counts[kind], TEXTS[kind]);
        }
    }

    /// Tells how often a kind of notice came, where it did.
    fn tell_one(&mut self, alloc: Global, count: u32, text: &str)
        ensures notice { MayNotice R.logged R.refuses (log_in self.old) (log_in self.new) }
        ensures rest { self.new ≡ record self.old { rt = self.new.rt; is_cut = self.new.is_cut; dropped = self.new.dropped } }
    {
        if count == 0 {
            return;
        }
        if let Ok(line) = notice_line(alloc, text, count) {
            self.show(&line);
        }
    }
}

/// The line that tells of a kind of notice and how often it came.
fn notice_line(alloc: Global, text: &str, count: u32) -> Result<Vec<u8>, OutOfMemory>
    ensures { IfOk result (λ line. line.items ≡ notice_of text.now count) }
{
    let told = format!(in alloc; "{text}: {count}")?;
    log_line(alloc, LEVEL, told.as_bytes())
}

impl<R: Net + TimeSource + Wait, P: Duplex> LiveWorld<R, P> {
    ghost use Rattle.std.specs.Prelude.{false};
    ghost use Rattle.live_sockets.specs.Spent.{IsDue, IsEarly};
    ghost use Rattle.gate_live.specs.Worlds.{Asks, Gives, log_in};

    /// The next event, at the clock's moment, or that of the last one where the clock went back. What has fallen due comes by a Clock of its own, in
    /// front of what happens to lines or after one event more: that event has a moment before it, whatever the clock says. A turn does what is due in
    /// front of its event, and may open another connection for the event's line then; so it would take what the former server said for the new one's.
    #[tactic(auto, using(crate::proofs::Worlds::kept_lines))]
    fn following(&mut self, alloc: Global, wants: &Wants) -> Result<Event, WorldEnd>
        ensures event { IfOk result (Follows (record { now = self.old.now; stopped = self.old.stopped })) }
        ensures last { IfOk result (λ event. (self.new.now ≡ event.now) × (self.new.stopped ≡ is_stop event.what)) }
        ensures err { OnErr result ((self.new.now ≡ self.old.now) × (self.new.stopped ≡ self.old.stopped)) }
        ensures obeys { IfOk result (λ event. Obeys wants.now event.what) }
        ensures seed { self.new.seed ≡ self.old.seed }
        ensures faults { self.new.faults ≡ self.old.faults }
        ensures due { self.old.stopped ≡ false → IfOk result (λ event. IsDue event.what wants.now.due event.now self.new.sockets) }
        ensures early { self.old.stopped ≡ false → IfOk result (λ event. IsEarly event.what wants.now.due event.now) }
        ensures timed { self.old.stopped ≡ false → IfOk result (IsTimed (IsTold (R.tells self.old.rt)) self.old.now wants.now.due) }
        ensures heard { IfOk result (λ event. Gives P.gave P.took self.old event.what self.new) }
        ensures asked { IfOk result (λ event. Asks self.old event.what self.new) }
        ensures log { log_in self.new ≡ log_in self.old }
    {
        if self.stopped {
            return Ok(Event {
                now: self.now,
                what: What::Stop,
            });
        }
        let moments = &mut self.sockets.moments;
        match fallen_due(&self.rt, moments, wants.due, self.now, self.told)? {
            Some(now) => {
                self.tick(now);
                Ok(Event {
                    now,
                    what: What::Clock,
                })
            }
            None => self.happening(alloc, wants),
        }
    }

    /// The next event where the last one was not Stop, and at it nothing that the worker asked for was due.
    #[tactic(auto, using(crate::proofs::Timed::timed_by))]
    fn happening(&mut self, alloc: Global, wants: &Wants) -> Result<Event, WorldEnd>
        requires goes_on { self.old.stopped ≡ false }
        requires before { IsBefore wants.now.due self.old.now }
        ensures event { IfOk result (Follows (record { now = self.old.now; stopped = self.old.stopped })) }
        ensures last { IfOk result (λ event. (self.new.now ≡ event.now) × (self.new.stopped ≡ is_stop event.what)) }
        ensures err { OnErr result ((self.new.now ≡ self.old.now) × (self.new.stopped ≡ self.old.stopped)) }
        ensures obeys { IfOk result (λ event. Obeys wants.now event.what) }
        ensures seed { self.new.seed ≡ self.old.seed }
        ensures faults { self.new.faults ≡ self.old.faults }
        ensures due { IfOk result (λ event. IsDue event.what wants.now.due event.now self.new.sockets) }
        ensures early { IfOk result (λ event. IsEarly event.what wants.now.due event.now) }
        ensures timed { IfOk result (IsTimed (IsTold (R.tells self.old.rt)) self.old.now wants.now.due) }
        ensures heard { IfOk result (λ event. Gives P.gave P.took self.old event.what self.new) }
        ensures asked { IfOk result (λ event. Asks self.old event.what self.new) }
        ensures log { log_in self.new ≡ log_in self.old }
    {
        let what = self.sockets.wait(alloc, &self.rt, wants)?;
        let moment = self.now.max(self.sockets.seen());
        let now = moment_of(&what, wants.due, self.now, moment);
        self.now = now;
        self.told = is_clock(&what);
        self.stopped = is_stop(&what);
        Ok(Event { now, what })
    }
}

/// The moment of a Clock that comes now: something is due, and the last event, at this moment, was no Clock. Where none comes, nothing was due at the
/// last event.
#[tactic(auto, using(crate::proofs::Timed::timed_at_once, crate::proofs::Timed::timed_later))]
fn fallen_due<R: TimeSource>(
    rt: &R,
    moments: &mut Moments,
    due: Option<u64>,
    last: u64,
    told: bool,
) -> Result<Option<u64>, WorldEnd>
    ensures rises { IfOk result (λ clock. IfSome clock (λ now. last ≤ now)) }
    ensures due { IfOk result (λ clock. IfSome clock (λ now. IsSomeAnd due (λ moment. moment ≤ now))) }
    ensures none { IfOk result (λ clock. IfNone clock (IsBefore due last)) }
    ensures told { IfOk result (λ clock. IfSome clock (IsMoment (IsTold (R.tells rt.now)) last due whats.Clock)) }
{
    let Some(due) = due else {
        return Ok(None);
    };
    if due <= last {
        return Ok(Some(last));
    }
    if told {
        return Ok(None);
    }
    let now = last.max(moments.now(rt)?);
    if due <= now { Ok(Some(now)) } else { Ok(None) }
}

/// The moment of an event after the last one: that of the clock, or one before anything is due where it is of a line.
fn moment_of(what: &What, due: Option<u64>, last: u64, now: u64) -> u64
    requires rises { last ≤ now }
    requires before { IsBefore due last }
    ensures early { IsEarly what.now due result }
    ensures rises { last ≤ result }
    ensures timed { IsOfLine what.now ⊎ (result ≡ now) }
    ensures low { result ≤ now }
{
    if is_clock(what) || is_stop(what) {
        return now;
    }
    match due {
        Some(due) => now.min(due - 1),
        None => now,
    }
}

/// Whether bytes for a side of a line go to the client of the line of whose server the last event was.
fn is_answer(answering: Option<LineNo>, line: LineNo, side: Side) -> bool
    ensures { IsTrue result ↔ IsAnswer answering line side }
{
    match side {
        Side::Down => match answering {
            Some(answering) => answering == line,
            None => false,
        },
        Side::Up => false,
    }
}

/// The line of whose server an event brought bytes, or their end.
fn server_of(answer: &Result<Event, WorldEnd>) -> Option<LineNo>
    ensures { result ≡ server_of answer.now }
{
    match answer {
        Ok(event) => server_of_what(&event.what),
        Err(_) => None,
    }
}

/// A line, where this is the side of its server.
fn server_of_side(line: LineNo, side: Side) -> Option<LineNo>
    ensures { result ≡ server_of_side line side }
{
    match side {
        Side::Up => Some(line),
        Side::Down => None,
    }
}

/// The line of whose server this brings bytes, or their end.
fn server_of_what(what: &What) -> Option<LineNo>
    ensures { result ≡ server_of_what what.now }
{
    match what {
        What::Bytes { line, side, .. } => server_of_side(*line, *side),
        What::End { line, side } => server_of_side(*line, *side),
        What::Opened { .. } => None,
        What::Gone { .. } => None,
        What::Joined { .. } => None,
        What::Refused { .. } => None,
        What::Room { .. } => None,
        What::Clock => None,
        What::Stop => None,
    }
}

/// Whether time passed.
fn is_clock(what: &What) -> bool
    ensures { result ≡ is_clock what.now }
{
    matches!(what, What::Clock)
}

/// Whether nothing more comes.
fn is_stop(what: &What) -> bool
    ensures { result ≡ is_stop what.now }
{
    matches!(what, What::Stop)
}
