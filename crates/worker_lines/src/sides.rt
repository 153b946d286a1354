// The two sides of lines: what is read there, and the exchanges that are open.
ghost use Rattle.std.specs.Prelude.{◌≡◌, [], ◌∷◌, ◌++◌, ◌==◌, OnOk, IfOk, slice_get, option_copied, Some, None, ℕ};
ghost use Rattle.h1_model.specs.Unread.{reading_with_bytes, reading_with_end};
ghost use Rattle.h1_head.specs.Seen.{seen_head};
ghost use Rattle.worker_lines.specs.Hearing.{HearsExchange, HearsLine, HearsOn};
ghost use Rattle.worker_model.specs.Rooms.{at_place, at_some, in_line, in_exchange, with_marks};
ghost use Rattle.worker_model.specs.Steps.{line_in, in_place, line_reading, exchange_of_line, open_filter, filter_at, exchange_with_stages, enter_stages, with_filter, with_exchange, change_line, on_line, line_at, line_at_place, read_on, with_read_mark, is_last, with_response_head, with_reader, exchange_without_client, line_without_client, reading_with_more, with_further, side_with_more, is_open};

use crate::entering::enter;
use crate::lines::Lines;
use exchange::{Exchange, Filter, Hub, mark, response_of};
use filter_chain::ChainItem;
use gate_base::{LineNo, OutOfMemory, VmNo};
use h1_head::Head;
use h1_stream::{MessageReader, Step};
use std::alloc::Global;
use worker_model::Line;

/// The exchange that is open on a line.
pub fn exchange_of(line: Option<&Line>) -> Option<&Exchange>
    ensures { option_copied result ≡ exchange_of_line (option_copied line.entry) }
{
    match line {
        None => None,
        Some(line) => match &line.exchange {
            None => None,
            Some(x) => Some(x),
        },
    }
}

/// The filter at a place, unless the exchange has ended or was answered.
fn open_filter(x: Option<&Exchange>, k: usize) -> Option<Filter>
    ensures { result ≡ open_filter k (option_copied x.entry) }
{
    match x {
        None => None,
        Some(x) => {
            if x.has_ended || x.is_answered {
                return None;
            }
            match x.filters.as_slice().get(k) {
                None => None,
                Some(f) => Some(*f),
            }
        }
    }
}

/// The stages of an exchange are made, and host calls are told.
fn enter_told(
    alloc: Global,
    dead: &[VmNo],
    x: &mut Exchange,
    hub: &mut Hub,
) -> Result<(), OutOfMemory>
    ensures { OnOk result (with_marks (exchange_with_stages dead.now x.old, hub.old) ≡ (x.new, hub.new)) }
{
    enter(alloc, dead, x)?;
    mark(
        &mut hub.contexts,
        x.place,
        x.is_answered,
        x.has_ended,
        x.is_head_out,
    );
    Ok(())
}

/// The same on a line.
fn enter_line(
    alloc: Global,
    dead: &[VmNo],
    line: &mut Line,
    hub: &mut Hub,
) -> Result<(), OutOfMemory>
    ensures done { OnOk result (in_line (enter_stages dead.now) line.old hub.old ≡ (line.new, hub.new)) }
    ensures number { line.new.number ≡ line.old.number }
{
    match &mut line.exchange {
        None => Ok(()),
        Some(x) => enter_told(alloc, dead, x, hub),
    }
}

/// What the reader of a side of a line says next, if there is one.
fn hear_line(line: &mut Line, up: bool) -> Result<Option<Step>, OutOfMemory>
    ensures done { IfOk result (λ s. HearsLine up (line_reading up (Some line.old)) line.old s line.new) }
    ensures number { line.new.number ≡ line.old.number }
{
    if !up {
        return Ok(Some(line.requests.next_item()?));
    }
    let Some(x) = &mut line.exchange else {
        return Ok(None);
    };
    hear_exchange(x)
}

/// What the reader of the response says next, if there is one.
fn hear_exchange(x: &mut Exchange) -> Result<Option<Step>, OutOfMemory>
    ensures { IfOk result (λ s. HearsExchange x.old.reader x.old s x.new) }
{
    let Some(reader) = &mut x.reader else {
        return Ok(None);
    };
    Ok(Some(reader.next_item()?))
}

/// What an exchange keeps of an item that was read.
fn note(up: bool, item: &ChainItem, x: &mut Exchange)
    ensures { x.new ≡ with_read_mark up item.now x.old }
{
    let last = is_last(item);
    if up {
        x.is_read = last;
    } else {
        x.asked.whole = last;
    }
}

/// The same of the exchange that is open on a line.
fn note_line(line: &mut Line, up: bool, item: &ChainItem)
    ensures done { line.new ≡ change_line (with_read_mark up item.now) line.old }
    ensures number { line.new.number ≡ line.old.number }
{
    if let Some(x) = &mut line.exchange {
        note(up, item, x);
    }
}

/// Whether an item is the last one of a message.
pub fn is_last(item: &ChainItem) -> bool
    ensures { result ≡ is_last item.now }
{
    match item {
        ChainItem::Head { end } => *end,
        ChainItem::Piece { end, .. } => *end,
        ChainItem::Trailers => true,
    }
}

/// What an exchange keeps of the head of its response.
#[tactic(auto, using(crate::proofs::Heads::length_back))]
fn keep_response(head: &Head, x: &mut Exchange)
    ensures { x.new ≡ with_response_head (seen_head head.now) x.old }
{
    x.told = response_of(x.is_head_up, head);
    x.is_headed = true;
}

/// The same of the exchange that is open on a line.
fn keep_response_on(line: &mut Line, head: &Head)
    ensures done { line.new ≡ change_line (with_response_head (seen_head head.now)) line.old }
    ensures number { line.new.number ≡ line.old.number }
{
    if let Some(x) = &mut line.exchange {
        keep_response(head, x);
    }
}

/// The client of an exchange is gone.
fn lose_exchange(x: &mut Exchange)
    ensures { x.new ≡ exchange_without_client x.old }
{
    x.has_ended = true;
    x.stays = false;
}

/// The client of a line is gone.
fn lose_line(line: &mut Line)
    ensures done { line.new ≡ line_without_client line.old }
    ensures number { line.new.number ≡ line.old.number }
{
    if let Some(x) = &mut line.exchange {
        lose_exchange(x);
    }
    line.is_gone = true;
}

/// More comes of a text, or it has ended.
fn read_further(reader: &mut MessageReader, ends: bool, bytes: &[u8]) -> Result<(), OutOfMemory>
    ensures { OnOk result (reader.new ≡ reading_with_more ends bytes.now reader.old) }
{
    if reader.has_ended() {
        return Ok(());
    }
    if ends {
        reader.end();
        return Ok(());
    }
    reader.feed(bytes)
}

/// The same of the response of an exchange.
fn answer_further(x: &mut Exchange, ends: bool, bytes: &[u8]) -> Result<(), OutOfMemory>
    ensures { OnOk result (x.new ≡ with_further ends bytes.now x.old) }
{
    match &mut x.reader {
        None => Ok(()),
        Some(reader) => read_further(reader, ends, bytes),
    }
}

/// The same of a side of a line.
fn line_further(line: &mut Line, up: bool, ends: bool, bytes: &[u8]) -> Result<(), OutOfMemory>
    ensures done { OnOk result (line.new ≡ side_with_more up ends bytes.now line.old) }
    ensures number { line.new.number ≡ line.old.number }
{
    if !up {
        return read_further(&mut line.requests, ends, bytes);
    }
    match &mut line.exchange {
        None => Ok(()),
        Some(x) => answer_further(x, ends, bytes),
    }
}

/// Whether a side of a line is there and has not ended.
pub fn is_open(line: Option<&Line>, up: bool) -> bool
    ensures { result ≡ is_open (line_reading up (option_copied line.entry)) }
{
    let Some(line) = line else {
        return false;
    };
    if !up {
        return !line.requests.has_ended();
    }
    match &line.exchange {
        None => false,
        Some(x) => match &x.reader {
            None => false,
            Some(reader) => !reader.has_ended(),
        },
    }
}

/// What an exchange keeps of a filter.
fn put_filter(x: &mut Exchange, k: usize, f: Filter)
    ensures { x.new ≡ with_filter k f x.old }
{
    if k < x.filters.len() {
        x.filters.set(k, f);
    }
}

/// The same of the exchange that is open on a line.
fn put_filter_on(line: &mut Line, k: usize, f: Filter)
    ensures done { line.new ≡ change_line (with_filter k f) line.old }
    ensures number { line.new.number ≡ line.old.number }
{
    if let Some(x) = &mut line.exchange {
        put_filter(x, k, f);
    }
}

/// An exchange begins on a line.
fn begin_on(line: &mut Line, x: Exchange)
    ensures done { line.new ≡ with_exchange x line.old }
    ensures number { line.new.number ≡ line.old.number }
{
    line.exchange = Some(x);
}

impl Lines {
    /// The line of a number.
    pub fn line(&self, number: LineNo) -> Option<&Line>
        ensures { option_copied result ≡ line_in number self.now }
    {
        match self.place_in(number) {
            None => None,
            Some(place) => self.as_slice().get(place),
        }
    }

    /// The filter at a place of the exchange on a line, unless that has ended or was answered.
    pub fn filter_at(&self, number: LineNo, k: usize) -> Option<Filter>
        ensures { result ≡ filter_at number k self.now }
    {
        open_filter(exchange_of(self.line(number)), k)
    }

    /// The stages of the exchange of the line at a place are made.
    #[tactic(auto, using(crate::proofs::Wished::sound_set))]
    pub fn enter(
        &mut self,
        alloc: Global,
        hub: &mut Hub,
        place: Option<usize>,
        dead: &[VmNo],
    ) -> Result<(), OutOfMemory>
        ensures { OnOk result (at_place (enter_stages dead.now) self.old place hub.old ≡ (self.new, hub.new)) }
    {
        let Some(place) = place else {
            return Ok(());
        };
        if place >= self.list.len() {
            return Ok(());
        }
        self.due = self.due.with(place);
        self.wishes.touch(place);
        enter_line(alloc, dead, &mut self.list[place], hub)
    }

    /// What the reader of a side of a line says next, if there is one.
    #[tactic(auto, using(crate::proofs::Wished::sound_set))]
    pub fn hear(&mut self, number: LineNo, up: bool) -> Result<Option<Step>, OutOfMemory>
        ensures { IfOk result (λ s. HearsOn up number (line_reading up (line_in number self.old)) self.old s self.new) }
    {
        let Some(place) = self.place_in(number) else {
            return Ok(None);
        };
        if place >= self.list.len() {
            return Ok(None);
        }
        self.due = self.due.with(place);
        self.wishes.touch(place);
        hear_line(&mut self.list[place], up)
    }

    /// What is kept of an item that was read.
    #[tactic(auto, using(crate::proofs::Wished::sound_set))]
    pub fn note(&mut self, number: LineNo, up: bool, item: &ChainItem)
        ensures { self.new ≡ on_line (change_line (with_read_mark up item.now)) number self.old }
    {
        let Some(place) = self.place_in(number) else {
            return;
        };
        if place >= self.list.len() {
            return;
        }
        self.due = self.due.with(place);
        self.wishes.touch(place);
        note_line(&mut self.list[place], up, item);
    }

    /// What is kept of the head of a response.
    #[tactic(auto, using(crate::proofs::Wished::sound_set))]
    pub fn keep_response(&mut self, number: LineNo, head: &Head)
        ensures { self.new ≡ on_line (change_line (with_response_head (seen_head head.now))) number self.old }
    {
        let Some(place) = self.place_in(number) else {
            return;
        };
        if place >= self.list.len() {
            return;
        }
        self.due = self.due.with(place);
        self.wishes.touch(place);
        keep_response_on(&mut self.list[place], head);
    }

    /// A filter's context is known.
    #[tactic(auto, using(crate::proofs::Wished::sound_set))]
    pub fn note_filter(&mut self, number: LineNo, k: usize, f: Filter)
        ensures { self.new ≡ on_line (change_line (with_filter k f)) number self.old }
    {
        let Some(place) = self.place_in(number) else {
            return;
        };
        if place >= self.list.len() {
            return;
        }
        self.due = self.due.with(place);
        self.wishes.touch(place);
        put_filter_on(&mut self.list[place], k, f);
    }

    /// An exchange begins on a line.
    #[tactic(auto, using(crate::proofs::Wished::sound_set))]
    pub fn begin(&mut self, number: LineNo, x: Exchange)
        ensures { self.new ≡ on_line (with_exchange x) number self.old }
    {
        let Some(place) = self.place_in(number) else {
            return;
        };
        if place >= self.list.len() {
            return;
        }
        self.due = self.due.with(place);
        self.wishes.touch(place);
        begin_on(&mut self.list[place], x);
    }

    /// The client of a line is gone.
    #[tactic(auto, using(crate::proofs::Wished::sound_set))]
    pub fn lose(&mut self, number: LineNo)
        ensures { self.new ≡ on_line line_without_client number self.old }
    {
        let Some(place) = self.place_in(number) else {
            return;
        };
        if place >= self.list.len() {
            return;
        }
        self.due = self.due.with(place);
        self.wishes.touch(place);
        lose_line(&mut self.list[place]);
    }

    /// A side of a line has more, or has ended.
    #[tactic(auto, using(crate::proofs::Wished::sound_set))]
    pub fn come(
        &mut self,
        number: LineNo,
        up: bool,
        ends: bool,
        bytes: &[u8],
    ) -> Result<(), OutOfMemory>
        ensures { OnOk result (self.new ≡ on_line (side_with_more up ends bytes.now) number self.old) }
    {
        let Some(place) = self.place_in(number) else {
            return Ok(());
        };
        if place >= self.list.len() {
            return Ok(());
        }
        self.due = self.due.with(place);
        self.wishes.touch(place);
        line_further(&mut self.list[place], up, ends, bytes)
    }
}
