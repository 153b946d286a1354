// A line whose connections are streams of bytes.
ghost use Rattle.std.specs.Prelude.{◌≡◌, ◌==◌, ◌&&◌, ◌||◌, not, [], IfOk, OnErr};
ghost use Rattle.filter_chain.specs.Chains.{is_of};
ghost use Rattle.tcp_filters.specs.Lines.{new_line, chain_of, put_item, is_response, fits_from, with_end, take_new, take_bytes, take_end, take_loss, is_of_line, take_own, take_event, cut_line, close_line, ask_line, may_ask, resume_at, let_through_at, pause_at, answer_at, place_at};

use crate::passing::pass_on;
use crate::{Action, TcpAsking, TcpOutcome};
use contexts::Contexts;
use filter_chain::{Asking, Chain, ChainItem, Stage};
use gate_base::{ContextId, LineNo, Octets, OutOfMemory, VmNo};
use gate_io::{Event, Side, What};
use gate_queue::Queue;
use std::alloc::Global;

/// A line whose connections are streams of bytes, with the stages that they pass.
#[derive(Drop)]
pub struct TcpLine {
    pub number: LineNo,
    /// From the client to the server, and back.
    pub down: Chain,
    pub up: Chain,
    /// New came.
    pub is_entered: bool,
    /// New left, and with it a connection to the server was opened.
    pub is_up: bool,
    /// Which peers sent their last byte, or are gone or refused.
    pub down_ended: bool,
    pub up_ended: bool,
    /// The client's connection is gone.
    pub is_gone: bool,
    /// The connection has come to its end.
    pub has_ended: bool,
}

/// Is an event of this line?
fn is_of_line(number: LineNo, what: &What) -> bool
    ensures { result ≡ is_of_line number what.now }
{
    match what {
        What::Opened { line } => *line == number,
        What::Bytes { line, .. } => *line == number,
        What::End { line, .. } => *line == number,
        What::Gone { line, .. } => *line == number,
        What::Joined { line } => *line == number,
        What::Refused { line } => *line == number,
        What::Room { line, .. } => *line == number,
        What::Clock => false,
        What::Stop => false,
    }
}

/// Which chain the bytes of a side pass.
fn is_response(side: Side) -> bool
    ensures { result ≡ is_response side }
{
    match side {
        Side::Down => false,
        Side::Up => true,
    }
}

/// Nothing is sent.
fn nothing(alloc: Global) -> TcpOutcome
    ensures { result ≡ TcpOutcome.Sends [] }
{
    TcpOutcome::Sends {
        sent: Queue::new(alloc),
    }
}

impl TcpLine {
    /// A line with these stages, in the order in which items pass them: from the client to the server, and back.
    pub fn new(line: LineNo, down: Vec<Stage>, up: Vec<Stage>) -> Self
        ensures { result ≡ new_line line down.items up.items }
    {
        TcpLine {
            number: line,
            down: Chain::new(down),
            up: Chain::new(up),
            is_entered: false,
            is_up: false,
            down_ended: false,
            up_ended: false,
            is_gone: false,
            has_ended: false,
        }
    }

    /// The chain of a direction.
    fn chain(&self, response: bool) -> &Chain
        ensures { result.now ≡ chain_of response self.now }
    {
        if response { &self.up } else { &self.down }
    }

    /// Do bytes of a side fit?
    fn fits_from(&self, side: Side) -> bool
        ensures { result ≡ fits_from side self.now }
    {
        match side {
            Side::Down => self.is_entered && !self.down_ended,
            Side::Up => self.is_up && !self.up_ended,
        }
    }

    /// The last byte of a side came.
    fn note_end(&mut self, side: Side)
        ensures { self.new ≡ with_end side self.old }
    {
        match side {
            Side::Down => self.down_ended = true,
            Side::Up => self.up_ended = true,
        }
    }

    /// An item comes to the chain of a direction.
    fn put(
        &mut self,
        alloc: Global,
        contexts: &Contexts,
        response: bool,
        item: ChainItem,
    ) -> Result<TcpOutcome, OutOfMemory>
        ensures { IfOk result (λ outcome. put_item response item contexts.now self.old ≡ (outcome, self.new, contexts.now)) }
    {
        let passed = if response {
            self.up.put(alloc, contexts, item)?
        } else {
            self.down.put(alloc, contexts, item)?
        };
        pass_on(alloc, response, passed, self)
    }

    /// New comes.
    fn take_new(&mut self, alloc: Global, contexts: &Contexts) -> Result<TcpOutcome, OutOfMemory>
        ensures { IfOk result (λ outcome. take_new contexts.now self.old ≡ (outcome, self.new, contexts.now)) }
    {
        if self.is_entered {
            return Ok(nothing(alloc));
        }
        self.is_entered = true;
        self.put(alloc, contexts, false, ChainItem::Head { end: false })
    }

    /// Bytes of a side come.
    fn take_bytes(
        &mut self,
        alloc: Global,
        contexts: &Contexts,
        side: Side,
        bytes: &Octets,
    ) -> Result<TcpOutcome, OutOfMemory>
        ensures { IfOk result (λ outcome. take_bytes side bytes.now contexts.now self.old ≡ (outcome, self.new, contexts.now)) }
    {
        if !self.fits_from(side) {
            return Ok(nothing(alloc));
        }
        let bytes = bytes.copy(alloc)?;
        self.put(
            alloc,
            contexts,
            is_response(side),
            ChainItem::Piece { bytes, end: false },
        )
    }

    /// The end of a side's bytes comes.
    fn take_end(
        &mut self,
        alloc: Global,
        contexts: &Contexts,
        side: Side,
    ) -> Result<TcpOutcome, OutOfMemory>
        ensures { IfOk result (λ outcome. take_end side contexts.now self.old ≡ (outcome, self.new, contexts.now)) }
    {
        if !self.fits_from(side) {
            return Ok(nothing(alloc));
        }
        self.note_end(side);
        let bytes = Octets::new(alloc);
        self.put(
            alloc,
            contexts,
            is_response(side),
            ChainItem::Piece { bytes, end: true },
        )
    }

    /// A side is gone, or the connection to the server was refused.
    fn take_loss(&mut self, alloc: Global, contexts: &mut Contexts, side: Side) -> TcpOutcome
        ensures { take_loss side contexts.old self.old ≡ (result, self.new, contexts.new) }
    {
        match side {
            Side::Down => {
                self.down_ended = true;
                self.is_gone = true;
                self.close(alloc, contexts);
            }
            Side::Up => {
                if self.is_up {
                    self.up_ended = true;
                    self.close(alloc, contexts);
                }
            }
        }
        nothing(alloc)
    }

    /// An event of this line.
    fn take_own(
        &mut self,
        alloc: Global,
        contexts: &mut Contexts,
        what: &What,
    ) -> Result<TcpOutcome, OutOfMemory>
        ensures { IfOk result (λ outcome. take_own what.now contexts.old self.old ≡ (outcome, self.new, contexts.new)) }
    {
        match what {
            What::Opened { .. } => self.take_new(alloc, contexts),
            What::Bytes { side, bytes, .. } => self.take_bytes(alloc, contexts, *side, bytes),
            What::End { side, .. } => self.take_end(alloc, contexts, *side),
            What::Gone { side, .. } => Ok(self.take_loss(alloc, contexts, *side)),
            What::Joined { .. } => Ok(nothing(alloc)),
            What::Refused { .. } => Ok(self.take_loss(alloc, contexts, Side::Up)),
            What::Room { .. } => Ok(nothing(alloc)),
            What::Clock => Ok(nothing(alloc)),
            What::Stop => Ok(nothing(alloc)),
        }
    }

    /// Something happens, whenever it may be. Of another line, or after the end of the connection, nothing comes of it.
    pub fn take(
        &mut self,
        alloc: Global,
        contexts: &mut Contexts,
        what: &What,
    ) -> Result<TcpOutcome, OutOfMemory>
        ensures { IfOk result (λ outcome. take_event what.now contexts.old self.old ≡ (outcome, self.new, contexts.new)) }
    {
        if self.has_ended || !is_of_line(self.number, what) {
            return Ok(nothing(alloc));
        }
        self.take_own(alloc, contexts, what)
    }

    /// An event comes.
    pub fn event(
        &mut self,
        alloc: Global,
        contexts: &mut Contexts,
        event: &Event,
    ) -> Result<TcpOutcome, OutOfMemory>
        ensures { IfOk result (λ outcome. take_event event.entry.now.what contexts.old self.old ≡ (outcome, self.new, contexts.new)) }
    {
        self.take(alloc, contexts, &event.what)
    }

    /// May a stage be asked?
    pub fn is_ready(&self) -> bool
        ensures { result ≡ may_ask self.now }
    {
        !self.has_ended && (self.down.is_ready() || self.up.is_ready())
    }

    /// The stage that is to be asked, those towards the server first, with what its callback is asked about.
    pub fn ask(&mut self, contexts: &mut Contexts) -> Result<TcpAsking, OutOfMemory>
        ensures ok { IfOk result (λ a. ask_line self.old contexts.old ≡ (a, self.new, contexts.new)) }
        ensures line { OnErr result (self.new ≡ self.old) }
        ensures contexts { OnErr result (contexts.new ≡ contexts.old) }
    {
        if self.has_ended {
            return Ok(TcpAsking {
                response: false,
                asking: Asking::Nothing,
            });
        }
        if self.down.is_ready() {
            let asking = self.down.ask(contexts)?;
            return Ok(TcpAsking {
                response: false,
                asking,
            });
        }
        let asking = self.up.ask(contexts)?;
        Ok(TcpAsking {
            response: true,
            asking,
        })
    }

    /// The callback of the stage at a place of a direction has returned.
    fn pause(&self, contexts: &mut Contexts, response: bool, at: usize)
        ensures { contexts.new ≡ pause_at response at self.now contexts.old }
    {
        let chain = self.chain(response);
        if at < chain.len() {
            chain.pause(contexts, at);
        }
    }

    /// The answer of the callback of the stage at a place of a direction is put in force.
    pub fn answer(
        &mut self,
        alloc: Global,
        contexts: &mut Contexts,
        response: bool,
        at: usize,
        action: Action,
    ) -> Result<TcpOutcome, OutOfMemory>
        ensures { IfOk result (λ outcome. answer_at action response at self.old contexts.old ≡ (outcome, self.new, contexts.new)) }
    {
        self.pause(contexts, response, at);
        match action {
            Action::Continue => self.resume(alloc, contexts, response, at),
            Action::Pause => Ok(nothing(alloc)),
        }
    }

    /// What the stage at a place of a direction holds goes on: the effect of a continue.
    pub fn resume(
        &mut self,
        alloc: Global,
        contexts: &mut Contexts,
        response: bool,
        at: usize,
    ) -> Result<TcpOutcome, OutOfMemory>
        ensures { IfOk result (λ outcome. resume_at response at self.old contexts.old ≡ (outcome, self.new, contexts.new)) }
    {
        if self.has_ended || at >= self.chain(response).len() {
            return Ok(nothing(alloc));
        }
        let passed = if response {
            self.up.release(alloc, contexts, at)?
        } else {
            self.down.release(alloc, contexts, at)?
        };
        pass_on(alloc, response, passed, self)
    }

    /// The stage at a place of a direction passes everything from here on, what it held first.
    pub fn let_through(
        &mut self,
        alloc: Global,
        contexts: &mut Contexts,
        response: bool,
        at: usize,
    ) -> Result<TcpOutcome, OutOfMemory>
        ensures { IfOk result (λ outcome. let_through_at response at self.old contexts.old ≡ (outcome, self.new, contexts.new)) }
    {
        if self.has_ended || at >= self.chain(response).len() {
            return Ok(nothing(alloc));
        }
        let passed = if response {
            self.up.let_through(alloc, contexts, at)?
        } else {
            self.down.let_through(alloc, contexts, at)?
        };
        pass_on(alloc, response, passed, self)
    }

    /// Where the stage of a context of a VM stands in a direction.
    pub fn place_of(&self, response: bool, vm: VmNo, context: ContextId) -> Option<usize>
        ensures { result ≡ place_at response vm context self.now }
    {
        self.chain(response).place_of(vm, context)
    }

    /// The connection has come to its end: nothing of it is held.
    fn cut(&mut self, alloc: Global, contexts: &mut Contexts)
        ensures { cut_line self.old contexts.old ≡ (self.new, contexts.new) }
    {
        self.down.clear(alloc, contexts);
        self.up.clear(alloc, contexts);
        self.has_ended = true;
    }

    /// The connection comes to its end, unless it has: a filter closes it, its VM died, or something was too much for a stage.
    pub fn close(&mut self, alloc: Global, contexts: &mut Contexts)
        ensures { close_line self.old contexts.old ≡ (self.new, contexts.new) }
    {
        if !self.has_ended {
            self.cut(alloc, contexts);
        }
    }
}
