// What a worker is, but for its machines and its rules.
ghost use Rattle.std.specs.List.{list_any};
ghost use Rattle.std.specs.Prelude.{◌≡◌, [], ◌∷◌, ◌++◌, ◌==◌, ◌<◌, length, OnOk, IfOk, position, slice_get, codes, Some, None};
ghost use Rattle.contexts.specs.Creating.{end_exchange, await_done_of, delete_id};
ghost use Rattle.contexts.specs.Reached.{vm_in, contains};
ghost use Rattle.exchange.specs.Leaving.{hub_with_sent};
ghost use Rattle.gate_io.specs.declared.event.Side.TheVariants.{Up};
ghost use Rattle.worker_model.specs.Changes.{apply_change};
ghost use Rattle.worker_model.specs.Rooms.{next_of, next_part, is_dead, is_released, on_number, on_context, with_contexts, room_with_sent, is_own, apply_effect, effects_of, without_effects, trap_word, death_word, death_text, lose_vm_in, after_callback, value_of_end, take_callback_end};
ghost use Rattle.worker_model.specs.Steps.{with_jobs_first, unless_zero, is_zero, action_of, has_vm, await_done, last_jobs, finish_context, delete_context, apply_stage_action, done_jobs, close_up, end_exchange_of, end_at, begin_first_job, release, release_at, nothing_more, with_agenda_first};

use callouts::Callout;
use contexts::{Contexts, Effect, EffectKind};
use exchange::{Exchange, Filter, Hub, drop_stages};
use filter_host::{CallbackEnd, Death};
use gate_base::{Cause, ContextId, Level, LineNo, Members, Octets, OutOfMemory, VmNo};
use gate_io::{Sent, SentList, Side};
use gate_queue::{Queue, queued};
use h1_stream::MessageReader;
use std::alloc::Global;
use std::marker::Model;
use worker_lines::Lines;
use worker_model::{Asked, Change, ContextAt, Job, Next, Owner, ReadBatch, TcpLine};

/// A worker within a turn: its lines, what they have in common, and what is still to be done. Clauses see it as the record `Room` of the
/// definitions, with the list of the lines.
#[derive(Drop)]
pub struct Room {
    pub lines: Lines,
    pub hub: Hub,
    /// What is being read.
    pub reading: Option<ReadBatch>,
    /// What is in hand.
    pub jobs: Queue<Job>,
    /// The parts of the event that are still to come.
    pub agenda: Queue<Job>,
    /// The contexts that wait for `proxy_done`.
    pub waits: Queue<ContextAt>,
    /// The VMs that died.
    pub dead: Queue<VmNo>,
    /// The VMs were started.
    pub is_begun: bool,
    /// The callouts that are under way.
    pub calls: Queue<Callout>,
    /// The lines whose connections are streams of bytes.
    pub tcp: Queue<TcpLine>,
}

impl Model for Room {
    ghost use Rattle.worker_model.specs.Room as model;

    ghost Value = { model.Room };

    ghost view = { λ r. record {
      lines = r.lines;
      hub = r.hub;
      reading = r.reading;
      jobs = r.jobs;
      agenda = r.agenda;
      waits = r.waits;
      dead = r.dead;
      is_begun = r.is_begun;
      calls = r.calls;
      tcp = r.tcp;
    } };
}

/// Whether an effect is on the stage whose callback it is.
pub fn is_own_stage(own: &Owner, context: ContextId, response: bool) -> bool
    ensures { result ≡ is_own own.now context response }
{
    match own {
        Owner::Nobody => false,
        Owner::Stage {
            context: c,
            response: r,
        } => *c == context && *r == response,
    }
}

/// The word of a trap.
fn trap_word(cause: Cause) -> &'static [u8]
    ensures { result.now ≡ trap_word cause }
{
    match cause {
        Cause::Unreachable => b"unreachable",
        Cause::Divide => b"divide",
        Cause::Overflow => b"overflow",
        Cause::Memory => b"memory",
        Cause::Table => b"table",
        Cause::Type => b"type",
        Cause::Stack => b"stack",
        Cause::Exit => b"exit",
    }
}

/// The word of a death.
fn death_word(death: Death) -> &'static [u8]
    ensures { result.now ≡ death_word death }
{
    match death {
        Death::Trapped { cause } => trap_word(cause),
        Death::FuelSpent => b"fuel",
        Death::Start => b"start",
        Death::Configure => b"configure",
        Death::Ids => b"ids",
    }
}

/// What is said of a death in the log.
fn death_text(alloc: Global, name: &[u8], death: Death) -> Result<Octets, OutOfMemory>
    ensures { IfOk result (λ text. text ≡ death_text name.now death) }
{
    let mut text = Octets::new(alloc);
    text.extend_from_slice(b"vm ")?;
    text.extend_from_slice(name)?;
    text.extend_from_slice(b" died: ")?;
    text.extend_from_slice(death_word(death))?;
    Ok(text)
}

/// The same of a VM of the contexts.
fn death_of(alloc: Global, h: &Contexts, vm: VmNo, death: Death) -> Result<Octets, OutOfMemory>
    ensures { IfOk result (λ text. text ≡ death_text (vm_in h.now vm).name death) }
{
    match h.vms.as_slice().get(vm.get() as usize) {
        None => death_text(alloc, &[], death),
        Some(v) => death_text(alloc, v.name.as_slice(), death),
    }
}

/// Whether a list has an id, which is looked for at a place first.
#[tactic(auto, using(crate::proofs::Places::contains_at))]
fn has_id(ids: &[ContextId], at: usize, id: ContextId) -> bool
    ensures { result ≡ contains id ids.now }
{
    if at < ids.len() && ids[at] == id {
        return true;
    }
    ids.iter().any(|m| *m == id)
}

/// Whether a context of a VM waits, which is looked for at a place first.
fn is_waiting(h: &Contexts, vm: VmNo, at: usize, context: ContextId) -> bool
    ensures { result ≡ contains context (vm_in h.now vm).waiting }
{
    match h.vms.as_slice().get(vm.get() as usize) {
        None => false,
        Some(v) => has_id(v.waiting.as_slice(), at, context),
    }
}

/// What a callback returned, if it did.
pub fn value_of(end: CallbackEnd) -> Option<Option<u32>>
    ensures { result ≡ value_of_end end }
{
    match end {
        CallbackEnd::Returned { value } => Some(value),
        CallbackEnd::Died { .. } => None,
    }
}

/// Whether a callback answered 0.
pub fn is_zero(value: Option<u32>) -> bool
    ensures { result ≡ is_zero value }
{
    match value {
        None => false,
        Some(value) => value == 0,
    }
}

/// The action that a callback answered.
pub fn action_of(value: Option<u32>) -> u32
    ensures { result ≡ action_of value }
{
    match value {
        None => 0,
        Some(value) => value,
    }
}

/// The contexts of an exchange that are done with.
pub fn done_jobs(alloc: Global, filters: &[Filter]) -> Result<Queue<Job>, OutOfMemory>
    ensures { IfOk result (λ jobs. jobs ≡ done_jobs filters.now) }
{
    let mut jobs = Queue::new(alloc);
    for f in filters {
        if f.created {
            jobs.push(Job::Done {
                of: ContextAt {
                    vm: f.vm,
                    context: f.context,
                },
            })?;
        }
    }
    Ok(jobs)
}

impl Room {
    /// Whether a VM died.
    pub fn is_dead(&self, vm: VmNo) -> bool
        ensures { result ≡ is_dead vm self.now }
    {
        self.dead.as_slice().iter().any(|d| *d == vm)
    }

    /// Whether a context waits no more. It is looked for at a place among those of its VM first.
    fn is_released(&self, of: ContextAt, at: usize) -> bool
        ensures { result ≡ is_released self.now of }
    {
        self.is_dead(of.vm) || !is_waiting(&self.hub.contexts, of.vm, at, of.context)
    }

    /// The first context that waits no more. Those of a VM stand here as they stand among its own, so that one walk through both finds it.
    pub fn released(&self) -> Option<usize>
        ensures { result ≡ position (is_released self.now) self.now.waits }
    {
        let mut places = [0; 16];
        let waits = self.waits.as_slice();
        for at in 0..waits.len() {
            let of = waits[at];
            let vm = of.vm.get() as usize;
            if self.is_released(of, places[vm]) {
                return Some(at);
            }
            places[vm] = places[vm].saturating_add(1);
        }
        None
    }

    /// What is next where the chains are at rest and nothing is in hand.
    fn next_part(&self) -> Next
        ensures { result ≡ next_part self.now }
    {
        if let Some(at) = self.released() {
            return Next::Free { at };
        }
        if let Some(place) = self.lines.ending() {
            return Next::End { place };
        }
        if self.agenda.is_empty() {
            Next::Rest
        } else {
            Next::Begin
        }
    }

    /// What is next.
    pub fn next(&self) -> Next
        ensures { result ≡ next_of self.now }
    {
        if self.reading.is_some() {
            return Next::Read;
        }
        if let Some(place) = self.lines.moving() {
            return Next::Move { place };
        }
        if self.jobs.is_empty() {
            self.next_part()
        } else {
            Next::Work
        }
    }

    /// Sends something.
    pub fn send(&mut self, sent: Sent) -> Result<(), OutOfMemory>
        ensures { OnOk result (self.new ≡ room_with_sent (sent ∷ []) self.old) }
    {
        self.hub.sent.push(sent)
    }

    /// Something is done to the exchange of the line of a number.
    pub fn on_number(
        &mut self,
        alloc: Global,
        number: LineNo,
        what: Change,
    ) -> Result<(), OutOfMemory>
        ensures { OnOk result (self.new ≡ on_number (apply_change what) number self.old) }
    {
        let place = self.lines.place_in(number);
        self.lines.change(alloc, &mut self.hub, place, what)
    }

    /// Something is done to the open exchange that has a context.
    fn on_context(
        &mut self,
        alloc: Global,
        vm: VmNo,
        context: ContextId,
        what: Change,
    ) -> Result<(), OutOfMemory>
        ensures { OnOk result (self.new ≡ on_context (apply_change what) vm context self.old) }
    {
        let place = self.lines.place_of(vm, context);
        self.lines.change(alloc, &mut self.hub, place, what)
    }

    /// An effect of a callback.
    fn one_effect(
        &mut self,
        alloc: Global,
        vm: VmNo,
        own: &Owner,
        effect: Effect,
    ) -> Result<(), OutOfMemory>
        ensures { OnOk result (self.new ≡ apply_effect vm own.now effect.context effect.what self.old) }
    {
        let context = effect.context;
        match effect.what {
            EffectKind::Continue { is_response } => {
                if is_own_stage(own, context, is_response) {
                    return Ok(());
                }
                let what = Change::Resume {
                    vm,
                    context,
                    response: is_response,
                };
                self.on_context(alloc, vm, context, what)
            }
            EffectKind::Close => self.on_context(alloc, vm, context, Change::Close),
            EffectKind::Answer {
                status,
                fields,
                body,
            } => {
                let what = Change::Answer {
                    status,
                    fields,
                    body,
                };
                self.on_context(alloc, vm, context, what)
            }
            EffectKind::Call { request } => self.begin_call(alloc, &request),
        }
    }

    /// The effects of a callback, in the order of its calls.
    fn all_effects(
        &mut self,
        alloc: Global,
        vm: VmNo,
        own: &Owner,
        effects: Queue<Effect>,
    ) -> Result<(), OutOfMemory>
        ensures { OnOk result (self.new ≡ effects_of vm own.now effects self.old) }
    {
        let mut rest = effects.drain();
        while let Some(effect) = rest.pop_first() {
            self.one_effect(alloc, vm, own, effect)?;
        }
        Ok(())
    }

    /// A VM died.
    pub fn die(&mut self, alloc: Global, vm: VmNo, death: Death) -> Result<(), OutOfMemory>
        ensures { OnOk result (self.new ≡ lose_vm_in vm death self.old) }
    {
        let text = death_of(alloc, &self.hub.contexts, vm, death)?;
        self.send(Sent::Log {
            level: Level::Critical,
            text,
        })?;
        self.dead.push(vm)?;
        self.lines.die(alloc, &mut self.hub, vm)
    }

    /// After a callback: its effects, or the VM's death.
    fn go_behind(
        &mut self,
        alloc: Global,
        vm: VmNo,
        own: &Owner,
        end: CallbackEnd,
        effects: Queue<Effect>,
    ) -> Result<(), OutOfMemory>
        ensures { OnOk result (self.new ≡ after_callback vm own.now end effects self.old) }
    {
        match end {
            CallbackEnd::Returned { .. } => self.all_effects(alloc, vm, own, effects),
            CallbackEnd::Died { death } => self.die(alloc, vm, death),
        }
    }

    /// Takes the effects out.
    pub fn take_effects(&mut self, alloc: Global) -> Members<Effect>
        ensures effects { result ≡ self.old.hub.contexts.effects }
        ensures rest { self.new ≡ without_effects self.old }
    {
        std::mem::replace(&mut self.hub.contexts.effects, Members::new(alloc))
    }

    /// Sends what a callback wrote into the log.
    #[tactic(auto, using(crate::proofs::Quiet::nothing_sent))]
    pub fn send_lines(&mut self, alloc: Global, lines: SentList) -> Result<(), OutOfMemory>
        ensures { OnOk result (self.new ≡ room_with_sent lines self.old) }
    {
        if lines.is_empty() {
            return Ok(());
        }
        self.hub.sent.append(queued(alloc, lines)?)
    }

    /// The effects of a callback are done, or its VM is dead.
    #[tactic(auto, using(crate::proofs::Quiet::no_effects))]
    fn do_effects(
        &mut self,
        alloc: Global,
        vm: VmNo,
        own: &Owner,
        end: CallbackEnd,
    ) -> Result<(), OutOfMemory>
        ensures { OnOk result (self.new ≡ after_callback vm own.now end self.old.hub.contexts.effects (without_effects self.old)) }
    {
        if self.hub.contexts.effects.is_empty() {
            return self.go_behind(alloc, vm, own, end, Queue::new(alloc));
        }
        let effects = queued(alloc, self.take_effects(alloc))?;
        self.go_behind(alloc, vm, own, end, effects)
    }

    /// What a callback wrote into the log is sent, and then come its effects, or the VM's death.
    pub fn answer(
        &mut self,
        alloc: Global,
        vm: VmNo,
        own: &Owner,
        end: CallbackEnd,
        lines: SentList,
    ) -> Result<(), OutOfMemory>
        ensures { OnOk result (self.new ≡ take_callback_end vm own.now end lines self.old.hub.contexts self.old) }
    {
        self.send_lines(alloc, lines)?;
        self.do_effects(alloc, vm, own, end)
    }

    /// These jobs come first.
    pub fn put_in_front(&mut self, alloc: Global, more: Queue<Job>) -> Result<(), OutOfMemory>
        ensures { OnOk result (self.new ≡ with_jobs_first more self.old) }
    {
        let mut jobs = more;
        jobs.append(std::mem::replace(&mut self.jobs, Queue::new(alloc)))?;
        self.jobs = jobs;
        Ok(())
    }

    /// These jobs are the next parts of the turn.
    pub(crate) fn put_behind_rest(
        &mut self,
        alloc: Global,
        more: Queue<Job>,
    ) -> Result<(), OutOfMemory>
        ensures { OnOk result (self.new ≡ with_agenda_first more self.old) }
    {
        let mut agenda = more;
        agenda.append(std::mem::replace(&mut self.agenda, Queue::new(alloc)))?;
        self.agenda = agenda;
        Ok(())
    }

    /// A VM is dead where it answered 0.
    pub fn unless_zero(
        &mut self,
        alloc: Global,
        vm: VmNo,
        death: Death,
        value: Option<Option<u32>>,
    ) -> Result<(), OutOfMemory>
        ensures { OnOk result (self.new ≡ unless_zero vm death value self.old) }
    {
        match value {
            None => Ok(()),
            Some(value) => {
                if is_zero(value) {
                    return self.die(alloc, vm, death);
                }
                Ok(())
            }
        }
    }

    /// A context waits for `proxy_done`.
    fn wait(&mut self, of: ContextAt) -> Result<(), OutOfMemory>
        ensures { OnOk result (self.new ≡ await_done of self.old) }
    {
        if of.vm.get() as usize >= self.hub.contexts.vms.len() {
            return Ok(());
        }
        self.hub.contexts.wait_for_done(of.vm, of.context)?;
        self.waits.push(of)
    }

    /// The last calls of a context come first: its log, and then its deletion.
    fn call_last(&mut self, of: ContextAt) -> Result<(), OutOfMemory>
        ensures { OnOk result (self.new ≡ with_jobs_first (last_jobs of) self.old) }
    {
        let again = ContextAt {
            vm: of.vm,
            context: of.context,
        };
        self.jobs.push_first(Job::Delete { of: again })?;
        self.jobs.push_first(Job::Log { of })
    }

    /// A context is done with.
    pub fn done_with(
        &mut self,
        of: ContextAt,
        value: Option<Option<u32>>,
    ) -> Result<(), OutOfMemory>
        ensures { OnOk result (self.new ≡ finish_context of value self.old) }
    {
        match value {
            None => self.call_last(of),
            Some(value) => {
                if is_zero(value) {
                    return self.wait(of);
                }
                self.call_last(of)
            }
        }
    }

    /// A context is there no more.
    pub fn delete(&mut self, of: ContextAt)
        ensures { self.new ≡ delete_context of None self.old }
    {
        if (of.vm.get() as usize) >= self.hub.contexts.vms.len() {
            return;
        }
        if self.hub.contexts.has(of.vm, of.context) {
            match self.hub.contexts.delete(of.vm, of.context) {
                Ok(()) => {}
                Err(_) => {}
            }
        }
    }

    /// The action of a callback of a stage is put in force.
    pub fn act_on(
        &mut self,
        alloc: Global,
        a: Asked,
        value: Option<Option<u32>>,
    ) -> Result<(), OutOfMemory>
        ensures { OnOk result (self.new ≡ apply_stage_action a value self.old) }
    {
        match value {
            None => Ok(()),
            Some(value) => {
                let what = Change::Act {
                    response: a.response,
                    stage: a.ask.stage,
                    value: action_of(value),
                };
                self.on_number(alloc, a.line, what)
            }
        }
    }

    /// The connection up is closed, where there is one.
    fn close_up(
        &mut self,
        number: LineNo,
        reader: &Option<MessageReader>,
    ) -> Result<(), OutOfMemory>
        ensures { OnOk result (self.new ≡ room_with_sent (close_up number reader.now) self.old) }
    {
        match reader {
            None => Ok(()),
            Some(_) => self.send(Sent::Close {
                line: number,
                side: Side::Up,
            }),
        }
    }

    /// What is done after an exchange.
    fn jobs_behind(
        &self,
        alloc: Global,
        number: LineNo,
        x: &Exchange,
    ) -> Result<Queue<Job>, OutOfMemory>
        ensures { IfOk result (λ jobs. jobs ≡ done_jobs x.now.filters ++ Job.Close number x.now.stays ∷ []) }
    {
        let mut jobs = done_jobs(alloc, x.filters.as_slice())?;
        jobs.push(Job::Close {
            line: number,
            stays: x.stays,
        })?;
        Ok(jobs)
    }

    /// An exchange ends.
    fn end_exchange(
        &mut self,
        alloc: Global,
        number: LineNo,
        x: &mut Exchange,
    ) -> Result<(), OutOfMemory>
        ensures { OnOk result (self.new ≡ end_exchange_of (Some (number, x.old)) self.old) }
    {
        self.close_up(number, &x.reader)?;
        drop_stages(alloc, x, &mut self.hub);
        self.hub.contexts.end_exchange(x.place);
        let jobs = self.jobs_behind(alloc, number, x)?;
        self.put_in_front(alloc, jobs)
    }

    /// The exchange of the line at a place ends.
    pub fn end_at(&mut self, alloc: Global, place: usize) -> Result<(), OutOfMemory>
        ensures { OnOk result (self.new ≡ end_at place self.old) }
    {
        match self.lines.end(place) {
            None => Ok(()),
            Some((number, mut x)) => {
                let ended = self.end_exchange(alloc, number, &mut x);
                drop(x);
                ended
            }
        }
    }

    /// A context that waits no more gets its last calls.
    pub fn free(&mut self, at: usize) -> Result<(), OutOfMemory>
        ensures { OnOk result (self.new ≡ release at self.old) }
    {
        if at >= self.waits.len() {
            return Ok(());
        }
        let of = self.waits.remove(at);
        self.call_last(of)
    }

    /// The next part of the event.
    pub fn begin_first(&mut self) -> Result<(), OutOfMemory>
        ensures { OnOk result (self.new ≡ begin_first_job self.old.agenda self.old) }
    {
        self.lines.calm();
        match self.agenda.pop_first() {
            None => Ok(()),
            Some(job) => self.jobs.restart(job),
        }
    }
}
