// What a side of a line spells is read.
ghost use Rattle.worker_model.specs.Plan.{plan_of};
ghost use Rattle.std.specs.Prelude.{◌≡◌, [], ◌∷◌, ◌++◌, OnOk, IfOk, option_copied, Some, None};
ghost use Rattle.exchange.specs.Leaving.{hub_with_sent};
ghost use Rattle.exchange.specs.Maps.{put_response, put_request_trailers, put_response_trailers, with_fields};
ghost use Rattle.gate_io.specs.declared.event.Side.TheVariants.{Down};
ghost use Rattle.h1_head.specs.Seen.{seen_head};
ghost use Rattle.h1_stream.specs.Seen.{seen_part};
ghost use Rattle.header_maps.specs.Operations.{no_headers};
ghost use Rattle.h1_model.specs.Messages.{rest, over, refusal};
ghost use Rattle.h1_model.specs.Unread.{head_part, interim_part, piece, trailer_part};
ghost use Rattle.worker_lines.specs.Hearing.{takes_step};
ghost use Rattle.worker_model.specs.Rooms.{room_with_sent, with_contexts};
ghost use Rattle.worker_model.specs.Plan.{Plan};
ghost use Rattle.worker_model.specs.Steps.{ReadOn, ReadSo, reading_on, take_interim, take_part, end_of_read, take_read_item, add_read_item, head_item, interim_of, put_trailers, in_contexts, exchange_on, exchange_of_line, line_in, on_lines, change_line, with_response_head, with_read_mark, with_item, is_last, end_reading, jobs_of, begins_with_head, begin_jobs_for, exchange_jobs, create_jobs, put_jobs, refuse_jobs, begin_exchange_on, with_jobs_first};

use crate::room::Room;
use exchange::{
    Exchange, fields_map, interim_bytes, is_bare, put_request_trailers, put_response,
    put_response_trailers, send,
};
use filter_chain::ChainItem;
use gate_base::{LineNo, Octets, OutOfMemory};
use gate_io::Side;
use gate_queue::Queue;
use h1_head::{Head, Item as Part};
use h1_stream::Step;
use header_maps::HeaderList;
use std::alloc::Global;
use worker_lines::{exchange_of, is_last};
use worker_model::{Job, ReadBatch, Rules};

/// Whether a head is the first of some items.
fn begins_with_head(items: &[ChainItem]) -> bool
    ensures { result ≡ begins_with_head items.now }
{
    match items.first() {
        Some(ChainItem::Head { .. }) => true,
        _ => false,
    }
}

/// The contexts of so many filters are made.
fn push_creates(jobs: &mut Queue<Job>, line: LineNo, count: usize) -> Result<(), OutOfMemory>
    ensures { OnOk result (jobs.new ≡ jobs.old ++ create_jobs line count) }
{
    for at in 0..count {
        jobs.push(Job::Create { line, at })?;
    }
    Ok(())
}

/// Items come to a chain, if there are any.
fn push_puts(
    jobs: &mut Queue<Job>,
    line: LineNo,
    response: bool,
    items: Queue<ChainItem>,
) -> Result<(), OutOfMemory>
    ensures { OnOk result (jobs.new ≡ jobs.old ++ put_jobs line response items) }
{
    if items.is_empty() {
        return Ok(());
    }
    jobs.push(Job::Put {
        line,
        response,
        items,
    })
}

/// What was read is refused, where it is.
fn push_refusal(jobs: &mut Queue<Job>, line: LineNo, status: Option<u16>) -> Result<(), OutOfMemory>
    ensures { OnOk result (jobs.new ≡ jobs.old ++ refuse_jobs line status) }
{
    match status {
        None => Ok(()),
        Some(status) => jobs.push(Job::Refuse { line, status }),
    }
}

/// What is done after a request's head.
fn begin_jobs(
    alloc: Global,
    r: ReadBatch,
    status: Option<u16>,
    x: &Exchange,
) -> Result<Queue<Job>, OutOfMemory>
    ensures { IfOk result (λ jobs. jobs ≡ exchange_jobs r status x.now x.now.refusal) }
{
    let mut jobs = Queue::new(alloc);
    if let Some(refusal) = x.refusal {
        jobs.push(Job::Refuse {
            line: r.line,
            status: refusal,
        })?;
        return Ok(jobs);
    }
    push_creates(&mut jobs, r.line, x.filters.len())?;
    jobs.push(Job::Enter { line: r.line })?;
    push_puts(&mut jobs, r.line, false, r.batch)?;
    push_refusal(&mut jobs, r.line, status)?;
    Ok(jobs)
}

/// What is done behind other items.
fn put_jobs(alloc: Global, r: ReadBatch, status: Option<u16>) -> Result<Queue<Job>, OutOfMemory>
    ensures { IfOk result (λ jobs. jobs ≡ put_jobs r.line r.up r.batch ++ refuse_jobs r.line status) }
{
    let mut jobs = Queue::new(alloc);
    push_puts(&mut jobs, r.line, r.up, r.batch)?;
    push_refusal(&mut jobs, r.line, status)?;
    Ok(jobs)
}

impl Room {
    /// What is done after what was read.
    fn jobs_of(
        &self,
        alloc: Global,
        r: ReadBatch,
        status: Option<u16>,
    ) -> Result<Queue<Job>, OutOfMemory>
        ensures { IfOk result (λ jobs. jobs ≡ jobs_of r status self.now) }
    {
        if !r.up && begins_with_head(r.batch.as_slice()) {
            return match exchange_of(self.lines.line(r.line)) {
                None => Ok(Queue::new(alloc)),
                Some(x) => begin_jobs(alloc, r, status, x),
            };
        }
        put_jobs(alloc, r, status)
    }

    /// The reading ends.
    fn end_reading(
        &mut self,
        alloc: Global,
        r: ReadBatch,
        status: Option<u16>,
    ) -> Result<(), OutOfMemory>
        ensures { OnOk result (self.new ≡ end_reading r status self.old) }
    {
        let jobs = self.jobs_of(alloc, r, status)?;
        self.reading = None;
        self.put_in_front(alloc, jobs)
    }

    /// An item joins what was read.
    fn join(&mut self, alloc: Global, r: ReadBatch, item: ChainItem) -> Result<(), OutOfMemory>
        ensures { OnOk result (self.new ≡ add_read_item r item self.old) }
    {
        let last = is_last(&item);
        let mut r = r;
        r.batch.push(item)?;
        if last {
            return self.end_reading(alloc, r, None);
        }
        self.reading = Some(r);
        Ok(())
    }

    /// An item was read.
    fn take(&mut self, alloc: Global, r: ReadBatch, item: ChainItem) -> Result<(), OutOfMemory>
        ensures { OnOk result (self.new ≡ take_read_item r item self.old) }
    {
        self.lines.note(r.line, r.up, &item);
        self.join(alloc, r, item)
    }

    /// The head of a response was read.
    fn hear_response(&mut self, number: LineNo, head: Head)
        ensures { self.new ≡ on_lines (change_line (with_response_head (seen_head head))) number (in_contexts (put_response (seen_head head).fields) (exchange_on number self.old) self.old) }
    {
        let place = match exchange_of(self.lines.line(number)) {
            None => None,
            Some(x) => Some(x.place),
        };
        self.lines.keep_response(number, &head);
        if let Some(place) = place {
            put_response(&mut self.hub.contexts, place, head.fields);
        }
    }

    /// A head was read.
    fn hear_head(
        &mut self,
        alloc: Global,
        rules: &Rules,
        r: ReadBatch,
        head: Head,
    ) -> Result<(), OutOfMemory>
        ensures { OnOk result (self.new ≡ take_part (plan_of rules.now) r (head_part (seen_head head)) self.old) }
    {
        let end = is_bare(head.length);
        if r.up {
            self.hear_response(r.line, head);
        } else {
            self.begin_exchange(alloc, rules, r.line, head)?;
        }
        self.take(alloc, r, ChainItem::Head { end })
    }

    /// The bytes of an interim head, if it goes down.
    fn interim_of(&self, alloc: Global, number: LineNo, head: &Head) -> Result<Octets, OutOfMemory>
        ensures { IfOk result (λ bytes. bytes ≡ interim_of (exchange_on number self.now) (seen_head head.now)) }
    {
        match exchange_of(self.lines.line(number)) {
            None => Ok(Octets::new(alloc)),
            Some(x) => {
                if x.asked.old_client {
                    return Ok(Octets::new(alloc));
                }
                interim_bytes(alloc, &head.fields)
            }
        }
    }

    /// An interim head was read.
    fn hear_interim(&mut self, alloc: Global, r: ReadBatch, head: Head) -> Result<(), OutOfMemory>
        ensures { OnOk result (self.new ≡ take_interim r (seen_head head) self.old) }
    {
        let bytes = self.interim_of(alloc, r.line, &head)?;
        send(&mut self.hub, r.line, Side::Down, bytes)?;
        self.reading = Some(r);
        Ok(())
    }

    /// Trailers are in their map.
    fn keep_trailers(
        &mut self,
        alloc: Global,
        number: LineNo,
        up: bool,
        fields: &HeaderList,
    ) -> Result<(), OutOfMemory>
        ensures { OnOk result (self.new ≡ in_contexts (put_trailers up (with_fields no_headers fields.now.pairs)) (exchange_on number self.old) self.old) }
    {
        let Some(x) = exchange_of(self.lines.line(number)) else {
            return Ok(());
        };
        let place = x.place;
        let map = fields_map(alloc, fields)?;
        if up {
            put_response_trailers(&mut self.hub.contexts, place, map);
        } else {
            put_request_trailers(&mut self.hub.contexts, place, map);
        }
        Ok(())
    }

    /// A part was read.
    fn hear_part(
        &mut self,
        alloc: Global,
        rules: &Rules,
        r: ReadBatch,
        part: Part,
    ) -> Result<(), OutOfMemory>
        ensures { OnOk result (self.new ≡ take_part (plan_of rules.now) r (seen_part part) self.old) }
    {
        match part {
            Part::Head { head, .. } => self.hear_head(alloc, rules, r, head),
            Part::Interim { head } => self.hear_interim(alloc, r, head),
            Part::Piece { bytes, end } => self.take(alloc, r, ChainItem::Piece { bytes, end }),
            Part::Trailers { fields } => {
                self.keep_trailers(alloc, r.line, r.up, &fields)?;
                self.take(alloc, r, ChainItem::Trailers)
            }
        }
    }

    /// The text is over.
    fn hear_over(&mut self, alloc: Global, r: ReadBatch) -> Result<(), OutOfMemory>
        ensures { OnOk result (self.new ≡ end_of_read r over self.old) }
    {
        let line = r.line;
        let closes = !r.up && exchange_of(self.lines.line(line)).is_none();
        self.end_reading(alloc, r, None)?;
        if closes {
            let mut jobs = Queue::new(alloc);
            jobs.push(Job::Close { line, stays: false })?;
            return self.put_in_front(alloc, jobs);
        }
        Ok(())
    }

    /// A reader answered.
    fn hear_step(
        &mut self,
        alloc: Global,
        rules: &Rules,
        r: ReadBatch,
        step: Step,
    ) -> Result<(), OutOfMemory>
        ensures { OnOk result (self.new ≡ takes_step (plan_of rules.now) r step self.old) }
    {
        match step {
            Step::Item { item } => self.hear_part(alloc, rules, r, item),
            Step::NotYet => self.end_reading(alloc, r, None),
            Step::Over => self.hear_over(alloc, r),
            Step::Refused { number } => self.end_reading(alloc, r, Some(number)),
        }
    }

    /// What is being read is read on.
    pub fn read(&mut self, alloc: Global, rules: &Rules) -> Result<(), OutOfMemory>
        ensures { OnOk result (ReadOn (plan_of rules.now) self.old.reading self.old self.new) }
    {
        let Some(r) = std::mem::replace(&mut self.reading, None) else {
            return Ok(());
        };
        self.read_on(alloc, rules, r)
    }

    /// The same of a reading that is in hand.
    fn read_on(&mut self, alloc: Global, rules: &Rules, r: ReadBatch) -> Result<(), OutOfMemory>
        ensures { OnOk result (ReadSo (plan_of rules.now) r (reading_on r self.old) self.old self.new) }
    {
        self.reading = None;
        let heard = self.lines.hear(r.line, r.up)?;
        match heard {
            None => Ok(()),
            Some(step) => self.hear_step(alloc, rules, r, step),
        }
    }
}
