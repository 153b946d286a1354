// How an exchange is answered by the gateway or by a filter.
ghost use Rattle.std.specs.Prelude.{◌≡◌, ◌≤◌, true, false, not, [], ◌∷◌, ◌++◌, ◌-◌, length, drop, OnOk, IfOk, ℕ};
ghost use Rattle.gate_io.specs.declared.event.Side.TheVariants.{Down};
ghost use Rattle.header_maps.specs.Operations.{no_headers};
ghost use Rattle.h1_model.specs.LocalReply.{local_reply_of};
ghost use Rattle.filter_chain.specs.Chains.{put, reach_count, without_buffers};
ghost use Rattle.exchange.specs.Heads.{answer_of};
ghost use Rattle.exchange.specs.Maps.{put_response, answer_map};
ghost use Rattle.exchange.specs.Leaving.{bytes_sent_to, hub_with_sent, send_items};
ghost use Rattle.exchange.specs.Answering.{none_held, cut_off, stays_open, answer_directly, finish_response_put, take_response_put, put_response_item, reached_of, exchange_with_answer, with_answer, put_answer, answer_through_stages, with_closes, is_direct, answer_open, answer};

use crate::heads::{answer_of, is_bare, is_final, may_stay};
use crate::leaving::{leave_all, send};
use crate::maps::{answer_map, put_response};
use crate::types::{Exchange, Hub};
use contexts::Contexts;
use filter_chain::{ChainItem, PassOutcome};
use gate_base::{LineNo, Octets, OutOfMemory};
use gate_io::Side;
use header_maps::HeaderList;
use local_reply::local;
use std::alloc::Global;

/// No stage is left, and what they held is dropped.
pub fn drop_stages(alloc: Global, x: &mut Exchange, hub: &mut Hub)
    ensures exchange { x.new ≡ record x.old { request = []; response = [] } }
    ensures hub { hub.new ≡ none_held x.old hub.old }
{
    x.request.clear(alloc, &mut hub.contexts);
    x.response.clear(alloc, &mut hub.contexts);
}

/// Both connections are closed.
pub(crate) fn cut_off(alloc: Global, x: &mut Exchange, hub: &mut Hub)
    ensures { cut_off x.old hub.old ≡ (x.new, hub.new) }
{
    drop_stages(alloc, x, hub);
    x.has_ended = true;
    x.stays = false;
}

/// Whether the line stays open after an answer.
fn stays_open(x: &Exchange) -> bool
    ensures { result ≡ stays_open x.now }
{
    may_stay(x.asked) && !x.closes
}

/// Sends a whole answer, and no stage is left.
fn send_answer(
    alloc: Global,
    n: LineNo,
    status: u16,
    fields: &HeaderList,
    body: &[u8],
    x: &mut Exchange,
    hub: &mut Hub,
) -> Result<(), OutOfMemory>
    requires least { 200 ≤ status }
    requires most { status ≤ 599 }
    ensures exchange { OnOk result (x.new ≡ record x.old { request = []; response = []; is_head_out = true; has_ended = true; stays = stays_open x.old }) }
    ensures hub { OnOk result (hub.new ≡ hub_with_sent (bytes_sent_to n Down (local_reply_of status fields.now.pairs body.now x.old.asked.is_head (not (stays_open x.old)) hub.old.moment)) (none_held x.old hub.old)) }
{
    let stays = stays_open(x);
    let bytes = local(
        alloc,
        status,
        fields,
        body,
        x.asked.is_head,
        !stays,
        hub.moment,
    )?;
    send(hub, n, Side::Down, bytes)?;
    drop_stages(alloc, x, hub);
    x.is_head_out = true;
    x.has_ended = true;
    x.stays = stays;
    Ok(())
}

/// An answer that passes no stage.
pub(crate) fn answer_directly(
    alloc: Global,
    n: LineNo,
    status: u16,
    fields: &HeaderList,
    body: &[u8],
    x: &mut Exchange,
    hub: &mut Hub,
) -> Result<(), OutOfMemory>
    ensures { OnOk result (answer_directly n status fields.now.pairs body.now x.old hub.old ≡ (x.new, hub.new)) }
{
    if x.is_head_out || !is_final(status) {
        cut_off(alloc, x, hub);
        return Ok(());
    }
    send_answer(alloc, n, status, fields, body, x, hub)
}

/// An answer without fields and body that passes no stage.
pub(crate) fn answer_fixed(
    alloc: Global,
    n: LineNo,
    status: u16,
    x: &mut Exchange,
    hub: &mut Hub,
) -> Result<(), OutOfMemory>
    ensures { OnOk result (answer_directly n status [] [] x.old hub.old ≡ (x.new, hub.new)) }
{
    let fields = HeaderList::new(alloc);
    answer_directly(alloc, n, status, &fields, &[], x, hub)
}

/// What comes of passing items on in the chain of the response.
pub(crate) fn go_down(
    alloc: Global,
    n: LineNo,
    passed: PassOutcome,
    x: &mut Exchange,
    hub: &mut Hub,
) -> Result<(), OutOfMemory>
    ensures { OnOk result (finish_response_put n passed x.old hub.old ≡ (x.new, hub.new)) }
{
    match passed {
        PassOutcome::Over => answer_fixed(alloc, n, 500, x, hub),
        PassOutcome::Left { items } => leave_all(alloc, true, n, items, x, hub),
    }
}

/// An item comes to the chain of the response.
fn put_down(
    alloc: Global,
    n: LineNo,
    item: ChainItem,
    x: &mut Exchange,
    hub: &mut Hub,
) -> Result<(), OutOfMemory>
    ensures { OnOk result (put_response_item n item (x.old, hub.old) ≡ (x.new, hub.new)) }
{
    if x.has_ended {
        return Ok(());
    }
    let passed = x.response.put(alloc, &hub.contexts, item)?;
    go_down(alloc, n, passed, x, hub)
}

/// Only the response stages of the filters stay that were reached.
fn keep_reached(alloc: Global, x: &mut Exchange, contexts: &mut Contexts)
    ensures exchange { x.new ≡ record x.old { request = []; response = reached_of x.old } }
    ensures contexts { contexts.new ≡ without_buffers contexts.old x.old.request }
{
    let n = if x.is_entered { x.request.reached() } else { 0 };
    x.request.clear(alloc, contexts);
    x.response.keep_last(n);
}

/// What is told of the answer becomes what is told of the response.
fn begin_answer(
    alloc: Global,
    status: u16,
    fields: &HeaderList,
    body: &[u8],
    x: &mut Exchange,
    hub: &mut Hub,
) -> Result<(), OutOfMemory>
    requires least { 200 ≤ status }
    requires most { status ≤ 599 }
    ensures exchange { OnOk result (x.new ≡ exchange_with_answer status body.now x.old) }
    ensures hub { OnOk result (hub.new ≡ with_answer status fields.now.pairs x.old hub.old) }
{
    let map = answer_map(alloc, status, fields)?;
    put_response(&mut hub.contexts, x.place, map);
    keep_reached(alloc, x, &mut hub.contexts);
    x.told = answer_of(x.asked, status, body);
    x.is_answered = true;
    Ok(())
}

/// The head of an answer, and its body where that is sent, come to the chain of the response.
fn put_answer(
    alloc: Global,
    n: LineNo,
    body: Octets,
    x: &mut Exchange,
    hub: &mut Hub,
) -> Result<(), OutOfMemory>
    ensures { OnOk result (put_answer n body (x.old, hub.old) ≡ (x.new, hub.new)) }
{
    if is_bare(x.told.length) {
        return put_down(alloc, n, ChainItem::Head { end: true }, x, hub);
    }
    put_down(alloc, n, ChainItem::Head { end: false }, x, hub)?;
    let item = ChainItem::Piece {
        bytes: body,
        end: true,
    };
    put_down(alloc, n, item, x, hub)
}

/// An answer that passes the response stages of the filters that were reached.
fn answer_through(
    alloc: Global,
    n: LineNo,
    status: u16,
    fields: &HeaderList,
    body: Octets,
    x: &mut Exchange,
    hub: &mut Hub,
) -> Result<(), OutOfMemory>
    requires least { 200 ≤ status }
    requires most { status ≤ 599 }
    ensures { OnOk result (answer_through_stages n status fields.now.pairs body x.old hub.old ≡ (x.new, hub.new)) }
{
    begin_answer(alloc, status, fields, body.as_slice(), x, hub)?;
    put_answer(alloc, n, body, x, hub)
}

/// The line is closed after the answer, whatever the rule of persistence says.
pub(crate) fn shut(closes: bool, x: &mut Exchange)
    ensures { x.new ≡ with_closes closes x.old }
{
    x.closes = x.closes || closes;
}

/// Whether an answer passes no stage.
fn is_direct(x: &Exchange, status: u16) -> bool
    ensures { result ≡ is_direct status x.now }
{
    (x.is_head_out || x.is_headed) || !is_final(status)
}

/// An answer to an exchange that has none.
fn answer_open(
    alloc: Global,
    n: LineNo,
    status: u16,
    fields: &HeaderList,
    body: Octets,
    x: &mut Exchange,
    hub: &mut Hub,
) -> Result<(), OutOfMemory>
    ensures { OnOk result (answer_open n status fields.now.pairs body x.old hub.old ≡ (x.new, hub.new)) }
{
    if is_direct(x, status) {
        return answer_directly(alloc, n, status, fields, body.as_slice(), x, hub);
    }
    answer_through(alloc, n, status, fields, body, x, hub)
}

/// A local response, or a fixed answer that passes stages. An exchange is answered once.
pub fn answer(
    alloc: Global,
    n: LineNo,
    closes: bool,
    status: u16,
    fields: &HeaderList,
    body: Octets,
    x: &mut Exchange,
    hub: &mut Hub,
) -> Result<(), OutOfMemory>
    ensures { OnOk result (answer n closes status fields.now.pairs body x.old hub.old ≡ (x.new, hub.new)) }
{
    if x.has_ended || x.is_answered {
        return Ok(());
    }
    shut(closes, x);
    answer_open(alloc, n, status, fields, body, x, hub)
}

/// A fixed answer that passes stages.
pub(crate) fn answer_plainly(
    alloc: Global,
    n: LineNo,
    closes: bool,
    status: u16,
    x: &mut Exchange,
    hub: &mut Hub,
) -> Result<(), OutOfMemory>
    ensures { OnOk result (answer n closes status [] [] x.old hub.old ≡ (x.new, hub.new)) }
{
    let fields = HeaderList::new(alloc);
    let body = Octets::new(alloc);
    answer(alloc, n, closes, status, &fields, body, x, hub)
}
