// Exchanges are opened and ended, and the effects of a callback are taken out.
ghost use Rattle.std.specs.Prelude.{◌≡◌, ◌<◌, ◌&&◌, [], length, is_none, not, map, IfOk, OnOk, OnErr, Some};
ghost use Rattle.std.specs.List.{list_any, position};
ghost use Rattle.header_maps.specs.Headers.{Headers};
ghost use Rattle.contexts.specs.Reached.{exchange_at};
ghost use Rattle.contexts.specs.Effects.{unmarked_at, without_effects};
ghost use Rattle.contexts.specs.Creating.{new_exchange, placed_at, place_or, open_exchange, refers_to, is_referred, has_ended, freed, freed_of, end_exchange};

use crate::{Context, Contexts, Effect, ExchangeEntry, ExchangeView, Maps, VmContexts};
use gate_base::{LineNo, Members, OutOfMemory};
use header_maps::HeaderList;
use std::alloc::Global;

/// An exchange that is new, with the fields of its request.
fn new_exchange(line: LineNo, request: HeaderList) -> ExchangeEntry
    ensures { result ≡ new_exchange line request }
{
    let maps = Maps {
        request: Some(request),
        request_trailers: None,
        response: None,
        response_trailers: None,
    };
    let view = ExchangeView {
        maps,
        is_answering: false,
        is_answered: false,
        has_ended: false,
        is_head_out: false,
    };
    ExchangeEntry { line, view }
}

/// The first free place.
fn free_place(exchanges: &[Option<ExchangeEntry>]) -> Option<usize>
    ensures { result ≡ position is_none exchanges.now }
{
    exchanges.iter().position(|x| x.is_none())
}

/// Whether a context is of the exchange at a place.
fn refers_to(place: usize, exchange: Option<usize>) -> bool
    ensures { result ≡ refers_to place exchange }
{
    match exchange {
        Some(n) => n == place,
        None => false,
    }
}

/// Whether one of these contexts is of the exchange at a place.
fn is_any_of(place: usize, contexts: &[Context]) -> bool
    ensures { result ≡ list_any (λ c. refers_to place c.exchange) contexts.now }
{
    contexts.iter().any(|c| refers_to(place, c.exchange))
}

/// Whether a context of any of these VMs is of the exchange at a place.
fn is_referred(place: usize, vms: &[VmContexts]) -> bool
    ensures { result ≡ is_referred place vms.now }
{
    vms.iter().any(|v| is_any_of(place, v.contexts.as_slice()))
}

/// Drops the mark of a local response that was asked for.
fn unmark_at(exchange: &mut Option<ExchangeEntry>)
    ensures { exchange.new ≡ unmarked_at exchange.old }
{
    if let Some(x) = exchange {
        x.view.is_answering = false;
    }
}

/// Drops the marks of all local responses that were asked for.
fn unmark(exchanges: &mut Members<Option<ExchangeEntry>>)
    ensures { exchanges.new ≡ map unmarked_at exchanges.old }
{
    for place in 0..exchanges.len() {
        unmark_at(exchanges.get_mut(place));
    }
}

impl Contexts {
    /// Opens an exchange on a line, and gives its place.
    pub fn open_exchange(&mut self, line: LineNo, request: HeaderList) -> Result<usize, OutOfMemory>
        ensures place { IfOk result (λ n. n ≡ place_or (length self.old.exchanges) (position is_none self.old.exchanges)) }
        ensures ok { OnOk result (self.new ≡ open_exchange line request self.old) }
        ensures err { OnErr result (self.new ≡ self.old) }
    {
        let exchange = Some(new_exchange(line, request));
        match free_place(self.exchanges.as_slice()) {
            Some(place) => {
                *self.exchanges.get_mut(place) = exchange;
                Ok(place)
            }
            None => {
                let place = self.exchanges.len();
                self.exchanges.push(exchange)?;
                Ok(place)
            }
        }
    }

    /// Frees the place of an exchange that has ended, where no context is of it.
    pub(crate) fn free(&mut self, place: usize)
        ensures { self.new ≡ freed place self.old }
    {
        let has_ended = match self.exchange_at(place) {
            Some(x) => x.has_ended,
            None => false,
        };
        if has_ended && !is_referred(place, self.vms.as_slice()) {
            *self.exchanges.get_mut(place) = None;
        }
    }

    /// Ends the exchange at a place. What its contexts see of it stands until the last of them is deleted.
    pub fn end_exchange(&mut self, place: usize)
        ensures { self.new ≡ end_exchange place self.old }
    {
        if let Some(x) = self.exchange_at_mut(place) {
            x.has_ended = true;
        }
        self.free(place);
    }

    /// Takes out what the callback asked for, in the order of the calls, with its marks.
    pub fn take_effects(&mut self, alloc: Global) -> Members<Effect>
        ensures effects { result ≡ self.old.effects }
        ensures left { self.new ≡ without_effects self.old }
    {
        unmark(&mut self.exchanges);
        std::mem::replace(&mut self.effects, Members::new(alloc))
    }
}
