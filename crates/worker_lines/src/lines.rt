// The open lines, by their numbers.
ghost use Rattle.std.specs.List.{list_any, position_or_len};
ghost use Rattle.worker_lines.specs.Wishes.{wish_of, lines_with, with_wishes, Listed};
ghost use Rattle.std.specs.Prelude.{◌≡◌, false, [], ◌∷◌, ◌++◌, ◌==◌, ◌&&◌, OnOk, IfOk, IfSome, length, map, filter, reverse, position, slice_get, option_map, Some, None, insert, nat_lt, not};
ghost use Rattle.worker_model.specs.Rooms.{has_move, is_over, exchange_moves, exchange_ends, has_open, place_in, place_of, with_marks, in_exchange, in_line, at_some, at_place, all_lines};
ghost use Rattle.worker_model.specs.Changes.{apply_change};
ghost use Rattle.worker_model.specs.Steps.{without_place, new_line, place_for, is_late, line_in};
ghost use Rattle.worker_model.specs.Moves.{count_of, asks_at, asks_line, asks_exchange, asks_response, asks_as, asks_stage, ended_at, ended_line};
ghost use Rattle.exchange.specs.Maps.{request_map, response_map, request_trailers, response_trailers};
ghost use Rattle.exchange.specs.Passing.{lose_vm, expire_exchange, chain_of, finish_put};

use crate::kept::{Kept, is_same};
use crate::span::Span;
use crate::wishes::Wishes;
use exchange::{
    Exchange, Filter, Hub, act, answer, close, die, expire, is_due, mark, pair_count, pass_on,
    put_in, refuse, resume,
};
use filter_chain::{Ask, AskKind, Asking, PassOutcome, Stage};
use gate_base::{ContextId, LineNo, OutOfMemory, VmNo};
use gate_io::Wants;
use gate_queue::Queue;
use h1_head::Kind;
use h1_stream::MessageReader;
use std::alloc::Global;
use std::marker::Model;
use worker_model::{Asked, Change, Line, Seen};

/// The open lines. Clauses see the list of them.
#[derive(Drop)]
pub struct Lines {
    pub(crate) list: Vec<Line>,
    /// Nothing is due on lines at other places, so that an event costs no more for lines on which nothing happens.
    pub(crate) due: Span,
    /// What each wants, so that it is asked again only of lines to which something was done.
    pub(crate) wishes: Wishes,
    /// Where the line stands of which the events of a turn speak, so that it is looked for once.
    pub(crate) seen: Option<Seen>,
}

impl Model for Lines {
    ghost use Rattle.std.specs.Prelude.{List};
    ghost use Rattle.worker_model.specs.declared.types.Line.{Line};
    ghost use Rattle.worker_lines.specs.Wishes.{Sound};

    ghost Value = { List Line };

    ghost view = { λ l. l.list.items };

    ghost invariant = { λ l. Sound l.due l.wishes l.seen l.list.items };
}

fn has_filter(filters: &[Filter], vm: VmNo, context: ContextId) -> bool
    ensures { result ≡ list_any (λ f. (f.created && f.vm == vm) && f.context == context) filters.now }
{
    filters
        .iter()
        .any(|f| (f.created && f.vm == vm) && f.context == context)
}

/// Whether a line has an open exchange with a context of a VM.
fn has_context(line: &Line, vm: VmNo, context: ContextId) -> bool
    ensures { result ≡ has_open vm context line.now.exchange }
{
    match &line.exchange {
        None => false,
        Some(x) => !x.has_ended && has_filter(x.filters.as_slice(), vm, context),
    }
}

/// Whether a stage of a line is to be asked.
fn is_moving(line: &Line) -> bool
    ensures { result ≡ has_move line.now }
{
    match &line.exchange {
        None => false,
        Some(x) => !x.has_ended && (x.request.is_ready() || x.response.is_ready()),
    }
}

/// Whether the end of a line's exchange is due.
fn is_over(line: &Line) -> bool
    ensures { result ≡ is_over line.now }
{
    match &line.exchange {
        None => false,
        Some(x) => x.has_ended,
    }
}

/// Whether the response on a line is due at a moment.
fn is_late(now: u64, line: &Line) -> bool
    ensures { result ≡ is_late now line.now }
{
    match &line.exchange {
        None => false,
        Some(x) => is_due(now, x),
    }
}

/// What host calls are told of an exchange goes with it.
fn tell(x: &Exchange, hub: &mut Hub)
    ensures { with_marks (x.now, hub.old) ≡ (x.now, hub.new) }
{
    mark(
        &mut hub.contexts,
        x.place,
        x.is_answered,
        x.has_ended,
        x.is_head_out,
    );
}

/// What is done to an exchange.
fn change(
    alloc: Global,
    what: Change,
    n: LineNo,
    x: &mut Exchange,
    hub: &mut Hub,
) -> Result<(), OutOfMemory>
    ensures { OnOk result (apply_change what n x.old hub.old ≡ (x.new, hub.new)) }
{
    match what {
        Change::Resume {
            vm,
            context,
            response,
        } => resume(alloc, vm, context, response, n, x, hub),
        Change::Close => {
            close(alloc, x, hub);
            Ok(())
        }
        Change::Answer {
            status,
            fields,
            body,
        } => answer(alloc, n, false, status, &fields, body, x, hub),
        Change::Act {
            response,
            stage,
            value,
        } => act(alloc, response, stage, value, n, x, hub),
        Change::Refuse { status } => refuse(alloc, status, n, x, hub),
        Change::Put { response, items } => put_in(alloc, response, items, n, x, hub),
    }
}

fn change_told(
    alloc: Global,
    what: Change,
    n: LineNo,
    x: &mut Exchange,
    hub: &mut Hub,
) -> Result<(), OutOfMemory>
    ensures { OnOk result (with_marks (apply_change what n x.old hub.old) ≡ (x.new, hub.new)) }
{
    change(alloc, what, n, x, hub)?;
    tell(x, hub);
    Ok(())
}

fn change_line(
    alloc: Global,
    what: Change,
    line: &mut Line,
    hub: &mut Hub,
) -> Result<(), OutOfMemory>
    ensures done { OnOk result (in_line (apply_change what) line.old hub.old ≡ (line.new, hub.new)) }
    ensures number { line.new.number ≡ line.old.number }
{
    match &mut line.exchange {
        None => Ok(()),
        Some(x) => change_told(alloc, what, line.number, x, hub),
    }
}

fn die_told(
    alloc: Global,
    vm: VmNo,
    n: LineNo,
    x: &mut Exchange,
    hub: &mut Hub,
) -> Result<(), OutOfMemory>
    ensures { OnOk result (with_marks (lose_vm vm n x.old hub.old) ≡ (x.new, hub.new)) }
{
    die(alloc, vm, n, x, hub)?;
    tell(x, hub);
    Ok(())
}

fn die_line(alloc: Global, vm: VmNo, line: Line, hub: &mut Hub) -> Result<Line, OutOfMemory>
    ensures { IfOk result (λ l. in_line (lose_vm vm) line hub.old ≡ (l, hub.new)) }
{
    let mut line = line;
    if let Some(x) = &mut line.exchange {
        die_told(alloc, vm, line.number, x, hub)?;
    }
    Ok(line)
}

#[tactic(auto, using(crate::proofs::Dying::in_front_more))]
fn die_all(
    alloc: Global,
    vm: VmNo,
    lines: Vec<Line>,
    hub: &mut Hub,
) -> Result<Vec<Line>, OutOfMemory>
    ensures { IfOk result (λ new. all_lines (lose_vm vm) lines.items hub.old ≡ (new.items, hub.new)) }
{
    let mut done = Vec::new(alloc);
    let mut rest = Queue::from_vec(lines).drain();
    while let Some(line) = rest.pop_first() {
        done.push(die_line(alloc, vm, line, hub)?)?;
    }
    Ok(done)
}

fn expire_told(alloc: Global, n: LineNo, x: &mut Exchange, hub: &mut Hub) -> Result<(), OutOfMemory>
    ensures { OnOk result (with_marks (expire_exchange n x.old hub.old) ≡ (x.new, hub.new)) }
{
    expire(alloc, n, x, hub)?;
    tell(x, hub);
    Ok(())
}

fn expire_line(alloc: Global, line: Line, hub: &mut Hub) -> Result<Line, OutOfMemory>
    ensures { IfOk result (λ l. in_line expire_exchange line hub.old ≡ (l, hub.new)) }
{
    let mut line = line;
    if let Some(x) = &mut line.exchange {
        expire_told(alloc, line.number, x, hub)?;
    }
    Ok(line)
}

#[tactic(auto, using(crate::proofs::Dying::in_front_more))]
fn expire_each(alloc: Global, lines: Vec<Line>, hub: &mut Hub) -> Result<Vec<Line>, OutOfMemory>
    ensures { IfOk result (λ new. all_lines expire_exchange lines.items hub.old ≡ (new.items, hub.new)) }
{
    let mut done = Vec::new(alloc);
    let mut rest = Queue::from_vec(lines).drain();
    while let Some(line) = rest.pop_first() {
        done.push(expire_line(alloc, line, hub)?)?;
    }
    Ok(done)
}

impl Lines {
    /// No line is open.
    #[tactic(auto, using(crate::proofs::Wished::sound_all))]
    pub fn new(alloc: Global) -> Self
        ensures { result ≡ [] }
    {
        Lines {
            list: Vec::new(alloc),
            due: Span::all(),
            wishes: Wishes::new(alloc),
            seen: None,
        }
    }

    /// The lines in order.
    pub fn as_slice(&self) -> &[Line]
        ensures { result.now ≡ self.now }
    {
        self.list.as_slice()
    }

    /// How many there are.
    pub fn len(&self) -> usize
        ensures { result ≡ length self.now }
    {
        self.list.len()
    }

    /// Where the line of a number stands.
    pub fn place_in(&self, number: LineNo) -> Option<usize>
        ensures { result ≡ place_in number self.now }
    {
        if let Some(seen) = self.seen {
            if seen.number == number {
                return Some(seen.place);
            }
        }
        self.list.iter().position(|line| line.number == number)
    }

    /// Looks for the line of a number, of which more is asked then.
    #[tactic(auto, using(crate::proofs::Wished::sound_seen))]
    pub fn see(&mut self, number: LineNo)
        ensures { self.new ≡ self.old }
    {
        if let Some(place) = self.place_in(number) {
            self.seen = Some(Seen { number, place });
        }
    }

    /// Where the line stands whose open exchange has a context of a VM.
    pub fn place_of(&self, vm: VmNo, context: ContextId) -> Option<usize>
        ensures { result ≡ place_of vm context self.now }
    {
        self.list
            .iter()
            .position(|line| has_context(line, vm, context))
    }

    /// The lowest line of which a stage is to be asked.
    pub fn moving(&self) -> Option<usize>
        ensures { result ≡ position has_move self.now }
    {
        for at in self.due.start()..self.due.end(self.list.len()) {
            if is_moving(&self.list[at]) {
                return Some(at);
            }
        }
        None
    }

    /// The lowest line on which an end is due.
    pub fn ending(&self) -> Option<usize>
        ensures { result ≡ position is_over self.now }
    {
        for at in self.due.start()..self.due.end(self.list.len()) {
            if is_over(&self.list[at]) {
                return Some(at);
            }
        }
        None
    }

    /// Forgets where something was due, where nothing is.
    #[tactic(auto, using(crate::proofs::Wished::sound_calm))]
    pub fn calm(&mut self)
        ensures { self.new ≡ self.old }
    {
        if self.moving().is_none() && self.ending().is_none() {
            self.due = Span::none();
        }
    }

    /// Asks again what is wanted on lines to which something was done.
    #[tactic(auto, using(crate::proofs::Wished::sound_renewed))]
    pub fn renew(&mut self)
        ensures { self.new ≡ self.old }
    {
        // Where there is no memory for it, it is asked of each line when it is needed.
        let _ = self.wishes.renew(self.list.as_slice());
    }

    /// What lines want, where nothing was done to any since it was asked.
    #[tactic(auto, using(crate::proofs::Wished::fits_whole, crate::proofs::Wished::lists_whole))]
    fn fresh(&self) -> Option<&Kept>
        ensures each { IfSome result (λ kept. kept.now.each.items ≡ map wish_of self.now) }
        ensures listed { IfSome result (λ kept. Listed kept.now) }
    {
        self.wishes.fresh()
    }

    /// When the first response is due, where that is known.
    pub fn first_due(&self) -> Option<Option<u64>>
        ensures { IfSome result (λ first. first ≡ with_wishes None (map wish_of self.now)) }
    {
        match self.fresh() {
            None => None,
            Some(kept) => Some(kept.first),
        }
    }

    /// The world is to be asked to call at a moment at the latest.
    #[tactic(auto, using(crate::proofs::Wished::sound_called))]
    pub fn call_at(&mut self, due: Option<u64>)
        ensures { self.new ≡ self.old }
    {
        self.wishes.kept.wants.due = due;
    }

    /// What the world is asked for where nothing waits and it is to call at a moment at the latest, where that is known.
    pub fn asked(&self, due: Option<u64>) -> Option<&Wants>
        ensures down { IfSome result (λ wants. wants.now.down ≡ lines_with (λ w. w.down) (map wish_of self.now)) }
        ensures up { IfSome result (λ wants. wants.now.up ≡ lines_with (λ w. w.up) (map wish_of self.now)) }
        ensures due { IfSome result (λ wants. wants.now.due ≡ due) }
    {
        let Some(kept) = self.fresh() else {
            return None;
        };
        if is_same(kept.wants.due, due) {
            Some(&kept.wants)
        } else {
            None
        }
    }

    /// Whether a response is due on some line.
    pub fn is_any_late(&self, now: u64) -> bool
        ensures { result ≡ list_any (is_late now) self.now }
    {
        self.list.iter().any(|line| is_late(now, line))
    }

    /// Something is done to the exchange of the line at a place.
    #[tactic(auto, using(crate::proofs::Wished::sound_set))]
    pub fn change(
        &mut self,
        alloc: Global,
        hub: &mut Hub,
        place: Option<usize>,
        what: Change,
    ) -> Result<(), OutOfMemory>
        ensures { OnOk result (at_place (apply_change what) self.old place hub.old ≡ (self.new, hub.new)) }
    {
        let Some(place) = place else {
            return Ok(());
        };
        if place >= self.list.len() {
            return Ok(());
        }
        self.due = self.due.with(place);
        self.wishes.touch(place);
        change_line(alloc, what, &mut self.list[place], hub)
    }

    /// The stage that is to be asked on the line at a place.
    #[tactic(auto, using(crate::proofs::Wished::sound_set))]
    pub fn ask(
        &mut self,
        alloc: Global,
        hub: &mut Hub,
        place: usize,
    ) -> Result<Option<Asked>, OutOfMemory>
        ensures { IfOk result (λ a. asks_at place (slice_get self.old place) self.old hub.old ≡ (a, self.new, hub.new)) }
    {
        if place >= self.list.len() {
            return Ok(None);
        }
        self.due = self.due.with(place);
        self.wishes.touch(place);
        ask_line(alloc, &mut self.list[place], hub)
    }

    /// The exchange of the line at a place, whose end has come.
    #[tactic(auto, using(crate::proofs::Wished::sound_set))]
    pub fn end(&mut self, place: usize) -> Option<(LineNo, Exchange)>
        ensures { ended_at place (slice_get self.old place) self.old ≡ (result, self.new) }
    {
        if place >= self.list.len() {
            return None;
        }
        self.due = self.due.with(place);
        self.wishes.touch(place);
        end_line(&mut self.list[place])
    }

    /// A VM died: all lines are answered or let through.
    #[tactic(auto, using(crate::proofs::Wished::sound_all))]
    pub fn die(&mut self, alloc: Global, hub: &mut Hub, vm: VmNo) -> Result<(), OutOfMemory>
        ensures { OnOk result (all_lines (lose_vm vm) self.old hub.old ≡ (self.new, hub.new)) }
    {
        self.due = Span::all();
        self.wishes.touch_all();
        self.seen = None;
        let old = std::mem::replace(&mut self.list, Vec::new(alloc));
        self.list = die_all(alloc, vm, old, hub)?;
        Ok(())
    }

    /// Responses that are due are answered for.
    #[tactic(auto, using(crate::proofs::Wished::sound_all))]
    pub fn expire(&mut self, alloc: Global, hub: &mut Hub) -> Result<(), OutOfMemory>
        ensures { OnOk result (all_lines expire_exchange self.old hub.old ≡ (self.new, hub.new)) }
    {
        self.due = Span::all();
        self.wishes.touch_all();
        self.seen = None;
        let old = std::mem::replace(&mut self.list, Vec::new(alloc));
        self.list = expire_each(alloc, old, hub)?;
        Ok(())
    }

    /// A line is there no more.
    #[tactic(auto, using(crate::proofs::Wished::sound_all))]
    pub fn remove(&mut self, place: Option<usize>)
        ensures { self.new ≡ without_place self.old place }
    {
        if let Some(place) = place {
            if place < self.list.len() {
                self.due = Span::all();
                self.wishes.touch_all();
                self.seen = None;
                let _ = self.list.remove(place);
            }
        }
    }

    /// A line more.
    #[tactic(auto, using(crate::proofs::Wished::sound_all, crate::proofs::Places::place_within))]
    pub fn open(&mut self, alloc: Global, number: LineNo) -> Result<(), OutOfMemory>
        ensures { OnOk result (self.new ≡ insert self.old (place_for number self.old) (new_line number)) }
    {
        let place = place_for(self.list.as_slice(), number);
        let line = Line {
            number,
            requests: MessageReader::new(alloc, Kind::Request)?,
            is_gone: false,
            exchange: None,
        };
        self.due = Span::all();
        self.wishes.touch_all();
        self.seen = None;
        self.list.insert(place, line)?;
        Ok(())
    }
}

/// The place of a new line.
fn place_for(lines: &[Line], number: LineNo) -> usize
    ensures { result ≡ place_for number lines.now }
{
    lines
        .iter()
        .take_while(|line| line.number <= number)
        .count()
}

/// How many pairs the map has, or how many bytes there are.
fn count_of(response: bool, ask: Ask, x: &Exchange, hub: &Hub) -> u32
    ensures { result ≡ count_of response ask.kind ask.count x.now.place hub.now }
{
    match ask.kind {
        AskKind::Piece => ask.count,
        AskKind::Head => pair_count(&hub.contexts, x.place, response, false),
        AskKind::Trailers => pair_count(&hub.contexts, x.place, response, true),
    }
}

/// The stage of an exchange that is to be asked.
fn ask_exchange(
    alloc: Global,
    n: LineNo,
    x: &mut Exchange,
    hub: &mut Hub,
) -> Result<Option<Asked>, OutOfMemory>
    ensures { IfOk result (λ a. asks_exchange n x.old hub.old ≡ (a, x.new, hub.new)) }
{
    if x.request.is_ready() {
        let asking = x.request.ask(&mut hub.contexts)?;
        asked_of(alloc, false, n, asking, x, hub)
    } else {
        let asking = x.response.ask(&mut hub.contexts)?;
        asked_of(alloc, true, n, asking, x, hub)
    }
}

/// The stage at a place.
fn stage_in(response: bool, x: &Exchange, at: usize) -> Option<(VmNo, ContextId)>
    ensures { result ≡ option_map (λ s. (s.vm, s.context)) (slice_get (chain_of response x.now) at) }
{
    if response {
        x.response.stage_at(at)
    } else {
        x.request.stage_at(at)
    }
}

/// Too much is answered for.
fn pass_over(
    alloc: Global,
    response: bool,
    n: LineNo,
    x: &mut Exchange,
    hub: &mut Hub,
) -> Result<(), OutOfMemory>
    ensures { OnOk result (with_marks (finish_put response n PassOutcome.Over x.old hub.old) ≡ (x.new, hub.new)) }
{
    pass_on(alloc, response, n, PassOutcome::Over, x, hub)?;
    tell(x, hub);
    Ok(())
}

fn asked_of(
    alloc: Global,
    response: bool,
    n: LineNo,
    asking: Asking,
    x: &mut Exchange,
    hub: &mut Hub,
) -> Result<Option<Asked>, OutOfMemory>
    ensures { IfOk result (λ a. asks_as response n asking x.old hub.old ≡ (a, x.new, hub.new)) }
{
    match asking {
        Asking::Nothing => Ok(None),
        Asking::Over { .. } => {
            pass_over(alloc, response, n, x, hub)?;
            Ok(None)
        }
        Asking::Asks { ask } => {
            let count = count_of(response, ask, x, hub);
            Ok(asked_by(response, n, ask, count, stage_in(response, x, ask.stage)))
        }
    }
}

fn asked_by(
    response: bool,
    n: LineNo,
    ask: Ask,
    count: u32,
    stage: Option<(VmNo, ContextId)>,
) -> Option<Asked>
    ensures { result ≡ asks_stage response n ask count stage }
{
    match stage {
        None => None,
        Some((vm, context)) => Some(Asked {
            vm,
            context,
            response,
            line: n,
            ask,
            count,
        }),
    }
}

fn ask_line(alloc: Global, line: &mut Line, hub: &mut Hub) -> Result<Option<Asked>, OutOfMemory>
    ensures done { IfOk result (λ a. asks_line line.old hub.old ≡ (a, line.new, hub.new)) }
    ensures number { line.new.number ≡ line.old.number }
{
    match &mut line.exchange {
        None => Ok(None),
        Some(x) => ask_exchange(alloc, line.number, x, hub),
    }
}

fn end_line(line: &mut Line) -> Option<(LineNo, Exchange)>
    ensures done { ended_line line.old ≡ (result, line.new) }
    ensures number { line.new.number ≡ line.old.number }
{
    let number = line.number;
    match std::mem::replace(&mut line.exchange, None) {
        None => None,
        Some(x) => Some((number, x)),
    }
}
