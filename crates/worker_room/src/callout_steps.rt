// Callouts: they begin, what comes of their lines is read, and they end.
ghost use Rattle.std.specs.Prelude.{◌≡◌, [], ◌∷◌, length, OnOk, IfOk};
ghost use Rattle.callouts.specs.Callouts.{callout_in, line_of};
ghost use Rattle.contexts.specs.Stages.{own_at};
ghost use Rattle.gate_io.specs.declared.event.Sent.TheVariants.{Connect, Bytes, Close};
ghost use Rattle.gate_io.specs.declared.event.Side.TheVariants.{Up};
ghost use Rattle.worker_model.specs.Calls.{with_call_step, take_call_event, close_call, has_listener, with_call_answer, put_call_answer};
ghost use Rattle.worker_model.specs.Rooms.{room_with_sent, with_calls, count_calls, add_call, begin_call, with_contexts};
ghost use Rattle.worker_room.specs.Calls.{ReadsCall, close_if};

use crate::room::Room;
use callouts::{CallStep, Callout, begun, comes, line_of, read, request_bytes, take};
use contexts::{CallAnswer, Calls, Contexts, Request};
use gate_base::{ContextId, LineNo, Octets, OutOfMemory, VmNo};
use gate_io::{Sent, Side, What};
use gate_queue::Queue;
use std::alloc::{AllocError, Global};
use worker_model::{Job, OtherStep};

/// The line of a callout. Each id that is drawn has one.
fn line_for(id: u32) -> Result<LineNo, OutOfMemory>
    ensures { IfOk result (λ line. line ≡ line_of id) }
{
    match line_of(id) {
        None => Err(AllocError),
        Some(line) => Ok(line),
    }
}

/// A context has this of an answer.
fn set_answer(h: &mut Contexts, vm: VmNo, context: ContextId, answer: Option<CallAnswer>)
    ensures { h.new ≡ with_call_answer answer (own_at h.old vm context) vm context h.old }
{
    if vm.get() as usize >= h.vms.len() {
        return;
    }
    if let Some(own) = h.own_of_mut(vm, context) {
        own.answer = answer;
    }
}

impl Room {
    /// So many callouts are under way as the list has, and this id was drawn last.
    fn count_calls(&mut self, last: u32) -> Result<(), OutOfMemory>
        ensures { OnOk result (self.new ≡ with_contexts (count_calls (length self.old.calls) last self.old.hub.contexts) self.old) }
    {
        let count = self.calls.len();
        if count > u32::MAX as usize {
            return Err(AllocError);
        }
        self.hub.contexts.calls = Calls {
            under_way: count as u32,
            last,
        };
        Ok(())
    }

    /// One more callout is under way, with the id that was drawn last.
    fn add_call(&mut self, c: Callout) -> Result<(), OutOfMemory>
        ensures { OnOk result (self.new ≡ add_call c self.old) }
    {
        let id = c.id;
        self.calls.push(c)?;
        self.count_calls(id)
    }

    /// A connection is made to the server, and all of a request goes there.
    fn send_request(&mut self, line: LineNo, bytes: Octets) -> Result<(), OutOfMemory>
        ensures { OnOk result (self.new ≡ room_with_sent (Connect line ∷ Bytes line Up bytes ∷ []) self.old) }
    {
        self.send(Sent::Connect { line })?;
        self.send(Sent::Bytes {
            line,
            side: Side::Up,
            bytes,
        })
    }

    /// A callout begins, under the next id.
    pub fn begin_call(&mut self, alloc: Global, request: &Request) -> Result<(), OutOfMemory>
        ensures { OnOk result (self.new ≡ begin_call request.now self.old) }
    {
        let last = self.hub.contexts.calls.last;
        if last == u32::MAX {
            return Err(AllocError);
        }
        let id = last + 1;
        let line = line_for(id)?;
        let now = self.hub.moment;
        let c = begun(alloc, id, now, request)?;
        let bytes = request_bytes(alloc, request)?;
        self.add_call(c)?;
        self.send_request(line, bytes)
    }

    /// What comes next for a callout is the first job, if anything is.
    fn put_call_step(&mut self, next: Option<CallStep>) -> Result<(), OutOfMemory>
        ensures { OnOk result (self.new ≡ with_call_step next self.old) }
    {
        match next {
            None => Ok(()),
            Some(step) => self.jobs.push_first(Job::Other {
                step: OtherStep::Call { step },
            }),
        }
    }

    /// Something came of the line of a callout.
    pub fn take_call_event(&mut self, alloc: Global, what: &What) -> Result<(), OutOfMemory>
        ensures { OnOk result (self.new ≡ take_call_event what.now self.old) }
    {
        let next = comes(alloc, &mut self.calls, what)?;
        self.put_call_step(next)
    }

    /// The response of a callout is read on, by one part.
    pub fn read_call(&mut self, alloc: Global, id: u32) -> Result<(), OutOfMemory>
        ensures { OnOk result (ReadsCall id (callout_in id self.old.calls) self.old self.new) }
    {
        let next = read(alloc, &mut self.calls, id)?;
        self.put_call_step(next)
    }

    /// A callout is under way no more: so many are left, and its connection is closed.
    fn close_taken(&mut self, id: u32) -> Result<(), OutOfMemory>
        ensures { OnOk result (self.new ≡ room_with_sent (Close (line_of id) Up ∷ []) (with_calls self.old.calls self.old)) }
    {
        let line = line_for(id)?;
        let last = self.hub.contexts.calls.last;
        self.count_calls(last)?;
        self.send(Sent::Close {
            line,
            side: Side::Up,
        })
    }

    /// The callout of an id is taken out, if it is under way, and its connection is closed.
    pub fn close_call(&mut self, id: u32) -> Result<Option<Callout>, OutOfMemory>
        ensures call { IfOk result (λ c. c ≡ callout_in id self.old.calls) }
        ensures room { OnOk result (self.new ≡ close_if id (callout_in id self.old.calls) self.old) }
    {
        match take(&mut self.calls, id) {
            None => Ok(None),
            Some(c) => {
                self.close_taken(id)?;
                Ok(Some(c))
            }
        }
    }

    /// Whether the context of a callout is there still, and its VM lives.
    pub fn has_listener(&self, c: &Callout) -> bool
        ensures { result ≡ has_listener c.now self.now }
    {
        if c.vm.get() as usize >= self.hub.contexts.vms.len() {
            return false;
        }
        !self.is_dead(c.vm) && self.hub.contexts.has(c.vm, c.context)
    }

    /// A context has this of an answer, while it is told of it.
    pub fn put_call_answer(&mut self, vm: VmNo, context: ContextId, answer: Option<CallAnswer>)
        ensures { self.new ≡ put_call_answer answer vm context self.old }
    {
        set_answer(&mut self.hub.contexts, vm, context, answer);
    }
}
