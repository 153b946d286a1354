// What happens, and lines that come and go.
ghost use Rattle.std.specs.Prelude.{◌≡◌, ◌-◌, [], ◌∷◌, ◌++◌, OnOk, IfOk, option_copied, Some, None};
ghost use Rattle.gate_io.specs.declared.event.Side.TheVariants.{Down};
ghost use Rattle.worker_model.specs.declared.types.Job.TheVariants as job;
ghost use Rattle.worker_model.specs.Changes.{apply_change};
ghost use Rattle.worker_room.specs.Fate.{fate_of};
ghost use Rattle.worker_model.specs.Rooms.{room_with_sent, on_number};
ghost use Rattle.worker_model.specs.Steps.{drop_line, close_line, read_side, end_line, fixed_answer, refusal_sent, refuse_in, refuse_line, accept_line, receive, receive_on, is_answered_in, is_read_in, lose_client, is_missed, lose_server, line_without_client, take_event, expire_all, line_in, exchange_of_line, exchange_on, take_notice_reply, with_jobs_first, with_agenda_first};

use crate::room::Room;
use exchange::{Exchange, is_final, send};
use gate_base::{LineNo, OutOfMemory, VmNo};
use gate_io::{Sent, Side, What};
use gate_queue::Queue;
use header_maps::HeaderList;
use local_reply::local;
use std::alloc::Global;
use store_model::Reply;
use worker_lines::{exchange_of, is_open};
use worker_model::{Change, Job, Line, ReadBatch};

/// So many lines are open at most.
const MOST_LINES: usize = 128;

/// Whether an exchange was answered.
fn is_answered(x: Option<&Exchange>) -> bool
    ensures { result ≡ is_answered_in (option_copied x.entry) }
{
    match x {
        None => false,
        Some(x) => x.is_answered,
    }
}

/// Whether what comes of a side is read.
fn is_read(x: Option<&Exchange>, up: bool) -> bool
    ensures { result ≡ is_read_in up (option_copied x.entry) }
{
    match x {
        None => !up,
        Some(x) => {
            if up {
                !x.is_answered
            } else {
                !x.is_answered && !x.asked.whole
            }
        }
    }
}

/// Whether a response is missed that was not read whole.
fn is_missed(x: Option<&Exchange>) -> bool
    ensures { result ≡ is_missed (option_copied x.entry) }
{
    match x {
        None => false,
        Some(x) => x.reader.is_some() && !(x.is_read || x.is_answered),
    }
}

/// What becomes of a line after an exchange.
#[derive(Clone, Copy)]
enum Fate {
    Nothing,
    Drop,
    Close,
    Read,
}

/// What becomes of a line after an exchange.
fn fate_of(line: Option<&Line>, stays: bool) -> Fate
    ensures { result ≡ fate_of stays (option_copied line.entry) }
{
    match line {
        None => Fate::Nothing,
        Some(line) => {
            if line.is_gone {
                Fate::Drop
            } else if stays {
                Fate::Read
            } else {
                Fate::Close
            }
        }
    }
}

impl Room {
    /// A line is there no more.
    fn drop_line(&mut self, number: LineNo)
        ensures { self.new ≡ drop_line number self.old }
    {
        let place = self.lines.place_in(number);
        self.lines.remove(place);
    }

    /// A line is closed.
    fn close_line(&mut self, number: LineNo) -> Result<(), OutOfMemory>
        ensures { OnOk result (self.new ≡ close_line number self.old) }
    {
        self.drop_line(number);
        self.send(Sent::Close {
            line: number,
            side: Side::Down,
        })
    }

    /// A side of a line is read.
    fn read_side(&mut self, alloc: Global, number: LineNo, up: bool)
        ensures { self.new ≡ read_side number up self.old }
    {
        self.reading = Some(ReadBatch {
            line: number,
            up,
            batch: Queue::new(alloc),
        });
    }

    /// After an exchange the line stays open, or is closed.
    pub fn end_line(
        &mut self,
        alloc: Global,
        number: LineNo,
        stays: bool,
    ) -> Result<(), OutOfMemory>
        ensures { OnOk result (self.new ≡ end_line (line_in number self.old.lines) number stays self.old) }
    {
        match fate_of(self.lines.line(number), stays) {
            Fate::Nothing => Ok(()),
            Fate::Drop => {
                self.drop_line(number);
                Ok(())
            }
            Fate::Close => self.close_line(number),
            Fate::Read => {
                self.read_side(alloc, number, false);
                Ok(())
            }
        }
    }

    /// An answer where there is no exchange, if it is a final one.
    fn send_refusal(
        &mut self,
        alloc: Global,
        number: LineNo,
        status: u16,
    ) -> Result<(), OutOfMemory>
        ensures { OnOk result (self.new ≡ refusal_sent number status self.old) }
    {
        if !is_final(status) {
            return Ok(());
        }
        let fields = HeaderList::new(alloc);
        let moment = self.hub.moment;
        let bytes = local(alloc, status, &fields, &[], false, true, moment)?;
        send(&mut self.hub, number, Side::Down, bytes)
    }

    /// An answer where there is no exchange; the line is closed.
    fn refuse_text(&mut self, alloc: Global, number: LineNo, status: u16) -> Result<(), OutOfMemory>
        ensures { OnOk result (self.new ≡ refuse_in number status None self.old) }
    {
        self.send_refusal(alloc, number, status)?;
        self.close_line(number)
    }

    /// What was read on a line is refused.
    pub fn refuse_line(
        &mut self,
        alloc: Global,
        number: LineNo,
        status: u16,
    ) -> Result<(), OutOfMemory>
        ensures { OnOk result (self.new ≡ refuse_line (line_in number self.old.lines) number status self.old) }
    {
        let Some(line) = self.lines.line(number) else {
            return Ok(());
        };
        if line.exchange.is_none() {
            return self.refuse_text(alloc, number, status);
        }
        self.on_number(alloc, number, Change::Refuse { status })
    }

    /// A connection was opened.
    fn open(&mut self, alloc: Global, number: LineNo) -> Result<(), OutOfMemory>
        ensures { OnOk result (self.new ≡ accept_line number self.old) }
    {
        if self.lines.place_in(number).is_some() {
            return Ok(());
        }
        if self.lines.len() < MOST_LINES {
            return self.lines.open(alloc, number);
        }
        self.send(Sent::Close {
            line: number,
            side: Side::Down,
        })
    }

    /// A side of a line has more, or has ended.
    fn come(
        &mut self,
        alloc: Global,
        number: LineNo,
        up: bool,
        ends: bool,
        bytes: &[u8],
    ) -> Result<(), OutOfMemory>
        ensures { OnOk result (self.new ≡ receive up ends bytes.now number self.old) }
    {
        self.lines.see(number);
        let line = self.lines.line(number);
        let x = exchange_of(line);
        if !is_open(line, up) || (up && is_answered(x)) {
            return Ok(());
        }
        let reads = is_read(x, up);
        self.lines.come(number, up, ends, bytes)?;
        if reads {
            self.read_side(alloc, number, up);
        }
        Ok(())
    }

    /// The client's connection is gone.
    fn lose_down(&mut self, number: LineNo)
        ensures { self.new ≡ lose_client number (line_in number self.old.lines) self.old }
    {
        let Some(line) = self.lines.line(number) else {
            return;
        };
        if line.exchange.is_none() {
            self.drop_line(number);
            return;
        }
        self.lines.lose(number);
    }

    /// The server's connection is gone, or was refused.
    fn lose_up(&mut self, alloc: Global, number: LineNo) -> Result<(), OutOfMemory>
        ensures { OnOk result (self.new ≡ lose_server number (exchange_on number self.old) self.old) }
    {
        if !is_missed(exchange_of(self.lines.line(number))) {
            return Ok(());
        }
        self.on_number(alloc, number, Change::Refuse { status: 502 })
    }

    /// What happens.
    pub fn happen(&mut self, alloc: Global, what: &What) -> Result<(), OutOfMemory>
        ensures { OnOk result (self.new ≡ take_event what.now self.old) }
    {
        match what {
            What::Opened { line } => self.open(alloc, *line),
            What::Bytes {
                line,
                side: Side::Down,
                bytes,
            } => self.come(alloc, *line, false, false, bytes.as_slice()),
            What::Bytes {
                line,
                side: Side::Up,
                bytes,
            } => self.come(alloc, *line, true, false, bytes.as_slice()),
            What::End {
                line,
                side: Side::Down,
            } => self.come(alloc, *line, false, true, &[]),
            What::End {
                line,
                side: Side::Up,
            } => self.come(alloc, *line, true, true, &[]),
            What::Gone {
                line,
                side: Side::Down,
            } => {
                self.lose_down(*line);
                Ok(())
            }
            What::Gone {
                line,
                side: Side::Up,
            } => self.lose_up(alloc, *line),
            What::Refused { line } => self.lose_up(alloc, *line),
            What::Joined { .. } => Ok(()),
            What::Room { .. } => Ok(()),
            What::Clock => Ok(()),
            What::Stop => Ok(()),
        }
    }

    /// Responses that are due are answered for.
    pub fn expire(&mut self, alloc: Global) -> Result<(), OutOfMemory>
        ensures { OnOk result (self.new ≡ expire_all self.old) }
    {
        if !self.lines.is_any_late(self.hub.moment) {
            return Ok(());
        }
        self.lines.expire(alloc, &mut self.hub)
    }

    /// The next notice is taken once all is at rest.
    fn put_notice(&mut self, alloc: Global, vm: VmNo, left: u8) -> Result<(), OutOfMemory>
        ensures { OnOk result (self.new ≡ with_agenda_first (job.Notice vm (left - 1) ∷ []) self.old) }
    {
        let mut jobs = Queue::new(alloc);
        jobs.push(Job::Notice {
            vm,
            left: left.saturating_sub(1),
        })?;
        self.put_behind_rest(alloc, jobs)
    }

    /// A notice was taken, or there is none.
    pub fn notice(
        &mut self,
        alloc: Global,
        vm: VmNo,
        left: u8,
        reply: Reply,
    ) -> Result<(), OutOfMemory>
        ensures { OnOk result (self.new ≡ take_notice_reply vm left reply self.old) }
    {
        match reply {
            Reply::Owed { root, queue } => {
                self.put_notice(alloc, vm, left)?;
                let mut jobs = Queue::new(alloc);
                jobs.push(Job::Ready { vm, root, queue })?;
                self.put_in_front(alloc, jobs)
            }
            _ => Ok(()),
        }
    }
}
