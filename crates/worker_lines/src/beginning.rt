// An exchange that begins: its filters, and what is refused before any of them sees it.
ghost use Rattle.std.specs.List.{list_any};
ghost use Rattle.std.specs.Prelude.{◌≡◌, [], ◌∷◌, ◌++◌, ◌==◌, ◌+◌, map, filter, IfOk, OnOk, slice_get, Some, None, not};
ghost use Rattle.h1_head.specs.Seen.{seen_head};
ghost use Rattle.worker_model.specs.Plan.{plan_of};
ghost use Rattle.worker_model.specs.Steps.{is_gone, is_blocking, filter_of, filter_at_plugin, filters_by, filters_of, plugins_at, requests_at, responses_at, filters_requests, filters_responses, refusal_of, at_most_last, due_at, new_exchange, exchange_for};

use crate::entering::is_among;
use exchange::{Exchange, Filter, request_of, response_of};
use filter_chain::Chain;
use gate_base::{ContextId, OutOfMemory, VmNo};
use gate_config::{PluginEntry, RouteEntry};
use gate_queue::Queue;
use h1_head::Head;
use header_maps::Texts;
use std::alloc::Global;
use worker_model::{Bodies, Rules};

/// The plug-ins of a route.
fn plugins_at(routes: &[RouteEntry], route: Option<u16>) -> &[u16]
    ensures { result.now ≡ plugins_at routes.now route }
{
    match route {
        None => &[],
        Some(place) => match routes.get(place as usize) {
            None => &[],
            Some(entry) => entry.filters.as_slice(),
        },
    }
}

/// The filter of a plug-in, as an exchange begins.
fn filter_of(plugin: u16, entry: &PluginEntry) -> Filter
    ensures { result ≡ filter_of plugin entry.now }
{
    Filter {
        plugin,
        vm: entry.vm,
        fails_open: entry.fail_open,
        created: false,
        context: ContextId::new(0),
    }
}

/// The filter of the plug-in at a place, if there is one.
fn filter_at_plugin(plugins: &[PluginEntry], plugin: u16) -> Option<Filter>
    ensures { result ≡ filter_at_plugin plugins.now plugin }
{
    match plugins.get(plugin as usize) {
        None => None,
        Some(entry) => Some(filter_of(plugin, entry)),
    }
}

/// Puts the filter of a plug-in after others.
#[tactic(auto, using(crate::proofs::Places::filters_none, crate::proofs::Places::filters_some))]
fn push_filter(
    filters: &mut Queue<Filter>,
    plugins: &[PluginEntry],
    plugin: u16,
) -> Result<(), OutOfMemory>
    ensures { OnOk result (filters.new ≡ filters.old ++ filters_by (filter_at_plugin plugins.now plugin)) }
{
    match filter_at_plugin(plugins, plugin) {
        None => Ok(()),
        Some(f) => filters.push(f),
    }
}

/// The filters of plug-ins.
pub fn filters_of(
    alloc: Global,
    plugins: &[PluginEntry],
    list: &[u16],
) -> Result<Queue<Filter>, OutOfMemory>
    ensures { IfOk result (λ filters. filters ≡ filters_of plugins.now list.now) }
{
    let mut filters = Queue::new(alloc);
    for plugin in list {
        push_filter(&mut filters, plugins, *plugin)?;
    }
    Ok(filters)
}

/// Whether a filter's VM is dead.
fn is_gone(dead: &[VmNo], f: Filter) -> bool
    ensures { result ≡ is_gone dead.now f }
{
    is_among(dead, f.vm)
}

/// Those of the filters whose VM is not dead.
pub fn live_filters(
    alloc: Global,
    dead: &[VmNo],
    filters: &[Filter],
) -> Result<Queue<Filter>, OutOfMemory>
    ensures { IfOk result (λ live. live ≡ filter (λ f. not (is_gone dead.now f)) filters.now) }
{
    let mut live = Queue::new(alloc);
    for f in filters {
        if !is_gone(dead, *f) {
            live.push(*f)?;
        }
    }
    Ok(live)
}

/// Whether a plug-in filters the bodies of requests.
fn requests_at(bodies: &[Bodies], plugin: u16) -> bool
    ensures { result ≡ requests_at (slice_get bodies.now plugin) }
{
    match bodies.get(plugin as usize) {
        None => false,
        Some(b) => b.requests,
    }
}

/// Whether a plug-in filters the bodies of responses.
fn responses_at(bodies: &[Bodies], plugin: u16) -> bool
    ensures { result ≡ responses_at (slice_get bodies.now plugin) }
{
    match bodies.get(plugin as usize) {
        None => false,
        Some(b) => b.responses,
    }
}

/// Whether one of these plug-ins filters the bodies of requests.
fn filters_requests(bodies: &[Bodies], plugins: &[u16]) -> bool
    ensures { result ≡ filters_requests bodies.now plugins.now }
{
    plugins.iter().any(|p| requests_at(bodies, *p))
}

/// Whether one of these plug-ins filters the bodies of responses.
fn filters_responses(bodies: &[Bodies], plugins: &[u16]) -> bool
    ensures { result ≡ filters_responses bodies.now plugins.now }
{
    plugins.iter().any(|p| responses_at(bodies, *p))
}

/// Whether a filter lets nothing pass, since its VM is dead.
fn is_blocking(dead: &[VmNo], f: Filter) -> bool
    ensures { result ≡ is_blocking dead.now f }
{
    !f.fails_open && is_gone(dead, f)
}

/// Whether one of these filters does.
pub fn is_blocked(dead: &[VmNo], filters: &[Filter]) -> bool
    ensures { result ≡ list_any (is_blocking dead.now) filters.now }
{
    filters.iter().any(|f| is_blocking(dead, *f))
}

/// What is refused before any filter sees it.
fn refusal_of(route: Option<u16>, dead: &[VmNo], filters: &[Filter]) -> Option<u16>
    ensures { result ≡ refusal_of route dead.now filters.now }
{
    match route {
        None => Some(404),
        Some(_) => {
            if is_blocked(dead, filters) {
                return Some(503);
            }
            None
        }
    }
}

/// The moment at which a response's head is due, if it is.
fn due_at(now: u64, deadline: u32) -> Option<u64>
    ensures { result ≡ due_at now deadline }
{
    if deadline == 0 {
        return None;
    }
    Some(now.saturating_add(u64::from(deadline) * 1_000_000))
}

/// A new exchange, of a request with this head: its filters are those of the route's plug-ins whose VM is not dead, and it is refused where
/// no route takes it (404), or where a plug-in that lets nothing pass has a dead VM (503). `now` is in nanoseconds. Nothing was read of it yet.
pub fn new_exchange(
    alloc: Global,
    rules: &Rules,
    place: usize,
    now: u64,
    dead: &[VmNo],
    head: &Head,
    route: Option<u16>,
) -> Result<Exchange, OutOfMemory>
    ensures { IfOk result (λ x. x ≡ exchange_for (plan_of rules.now) place now dead.now (seen_head head.now) route) }
{
    let plugins = plugins_at(rules.config.routes.as_slice(), route);
    let filters = filters_of(alloc, rules.config.plugins.as_slice(), plugins)?;
    let live = live_filters(alloc, dead, filters.as_slice())?;
    Ok(Exchange {
        place,
        filters: live,
        request: Chain::new(Vec::new(alloc)),
        response: Chain::new(Vec::new(alloc)),
        filters_requests: filters_requests(rules.bodies.as_slice(), plugins),
        filters_responses: filters_responses(rules.bodies.as_slice(), plugins),
        asked: request_of(head),
        told: response_of(false, head),
        out: None,
        reader: None,
        due: due_at(now, rules.config.deadline_ms),
        refusal: refusal_of(route, dead, filters.as_slice()),
        is_head_up: false,
        connection_up: Texts::new(alloc),
        connection_down: Texts::new(alloc),
        is_read: false,
        is_entered: false,
        is_headed: false,
        is_answered: false,
        is_head_out: false,
        has_ended: false,
        stays: false,
        closes: false,
    })
}
