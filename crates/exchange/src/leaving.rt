// What leaves the chains of an exchange, and what is sent then.
ghost use Rattle.std.specs.Prelude.{◌≡◌, ◌∷◌, [], ◌++◌, OnOk, IfOk, Some};
ghost use Rattle.gate_io.specs.declared.event.Sent.TheVariants.{Connect};
ghost use Rattle.gate_io.specs.declared.event.Side.TheVariants.{Down, Up};
ghost use Rattle.h1_model.specs.Framing.{head_wire, piece_wire, trailer_wire};
ghost use Rattle.h1_model.specs.Unread.{new_reading};
ghost use Rattle.h1_write.specs.Seen.{seen_framing};
ghost use Rattle.exchange.specs.Heads.{asked_by, is_head, status_in, sent_head, up_tail, down_tail, connection_fields, with_connection};
ghost use Rattle.exchange.specs.Maps.{request_map, response_map, request_trailers, response_trailers};
ghost use Rattle.exchange.specs.Leaving.{bytes_sent_to, hub_with_sent, request_framing, send_request_item, out_framing, written_framing, stays_behind, send_response_head, send_response_item, send_item, send_items};

use crate::heads::{
    is_head, out_framing, response_kind, status_in, stays_behind, up_framing, written_framing,
};
use crate::maps::{request_map, request_trailers, response_map, response_trailers};
use crate::types::{Exchange, Hub};
use crate::writing::{connection_fields, request_bytes, response_bytes, trailer_bytes};
use filter_chain::ChainItem;
use gate_base::{LineNo, Octets, OutOfMemory};
use gate_io::{Sent, Side};
use gate_queue::Queue;
use h1_head::Item as Part;
use h1_stream::MessageReader;
use h1_write::{Framing, write_item};
use header_maps::{HeaderList, Texts};
use std::alloc::Global;

/// Sends bytes to a side, if there are any.
pub fn send(hub: &mut Hub, n: LineNo, side: Side, bytes: Octets) -> Result<(), OutOfMemory>
    ensures { OnOk result (hub.new ≡ hub_with_sent (bytes_sent_to n side bytes) hub.old) }
{
    if bytes.is_empty() {
        return Ok(());
    }
    hub.sent.push(Sent::Bytes {
        line: n,
        side,
        bytes,
    })
}

/// The framing of a request on its way up.
fn goes_up(x: &Exchange) -> Framing
    ensures { seen_framing result ≡ request_framing x.now }
{
    up_framing(x.filters_requests, x.asked)
}

/// The bytes of a piece of a body that is framed so: those of the piece, not copied, where nothing stands around them.
fn piece_bytes(
    alloc: Global,
    bytes: Octets,
    end: bool,
    framing: Framing,
) -> Result<Octets, OutOfMemory>
    ensures { IfOk result (λ out. out ≡ piece_wire (seen_framing framing) bytes end) }
{
    if let Framing::Length(_) | Framing::UntilClose = framing {
        return Ok(bytes);
    }
    let mut out = Octets::new(alloc);
    write_item(alloc, &mut out, &Part::Piece { bytes, end }, framing)?;
    Ok(out)
}

/// The bytes of the request's head, and the reader of its response.
fn request_up(
    alloc: Global,
    x: &Exchange,
    hub: &Hub,
) -> Result<(Octets, MessageReader, bool), OutOfMemory>
    ensures bytes { IfOk result (λ r. r.0 ≡ head_wire (request_framing x.now) (sent_head (request_map x.now.place hub.now.contexts) (up_tail x.now.asked.minor))) }
    ensures reader { IfOk result (λ r. r.1 ≡ new_reading (Some (asked_by (request_map x.now.place hub.now.contexts)))) }
    ensures is_head { IfOk result (λ r. r.2 ≡ is_head (request_map x.now.place hub.now.contexts)) }
{
    let none = HeaderList::new(alloc);
    let map = request_map(&hub.contexts, x.place, &none);
    let bytes = request_bytes(alloc, map, goes_up(x), x.asked.minor)?;
    let reader = MessageReader::new(alloc, response_kind(map))?;
    Ok((bytes, reader, is_head(map)))
}

/// The Connection fields of the request's head as it goes up.
fn connection_up(alloc: Global, x: &Exchange, hub: &Hub) -> Result<Texts, OutOfMemory>
    ensures { IfOk result (λ texts. texts ≡ connection_fields (request_map x.now.place hub.now.contexts)) }
{
    let none = HeaderList::new(alloc);
    connection_fields(alloc, request_map(&hub.contexts, x.place, &none))
}

/// The request's head leaves.
fn head_up(
    alloc: Global,
    n: LineNo,
    end: bool,
    x: &mut Exchange,
    hub: &mut Hub,
) -> Result<(), OutOfMemory>
    ensures { OnOk result (send_request_item n (ChainItem.Head end) x.old hub.old ≡ (x.new, hub.new)) }
{
    x.connection_up = connection_up(alloc, x, hub)?;
    let (bytes, reader, is_head) = request_up(alloc, x, hub)?;
    hub.sent.push(Sent::Connect { line: n })?;
    send(hub, n, Side::Up, bytes)?;
    x.reader = Some(reader);
    x.is_head_up = is_head;
    Ok(())
}

/// The bytes of the request's trailers.
fn trailers_up(alloc: Global, x: &Exchange, hub: &Hub) -> Result<Octets, OutOfMemory>
    ensures { IfOk result (λ bytes. bytes ≡ trailer_wire (request_framing x.now) (with_connection x.now.connection_up (request_trailers x.now.place hub.now.contexts).pairs)) }
{
    let none = HeaderList::new(alloc);
    let map = request_trailers(&hub.contexts, x.place, &none);
    trailer_bytes(alloc, &x.connection_up, map, goes_up(x))
}

/// An item leaves the chain of the request.
fn leave_up(
    alloc: Global,
    n: LineNo,
    item: ChainItem,
    x: &mut Exchange,
    hub: &mut Hub,
) -> Result<(), OutOfMemory>
    ensures { OnOk result (send_request_item n item x.old hub.old ≡ (x.new, hub.new)) }
{
    match item {
        ChainItem::Head { end } => head_up(alloc, n, end, x, hub),
        ChainItem::Piece { bytes, end } => {
            let bytes = piece_bytes(alloc, bytes, end, goes_up(x))?;
            send(hub, n, Side::Up, bytes)
        }
        ChainItem::Trailers => {
            let bytes = trailers_up(alloc, x, hub)?;
            send(hub, n, Side::Up, bytes)
        }
    }
}

/// The status that goes out with the response's head.
fn status_down(alloc: Global, x: &Exchange, hub: &Hub) -> Option<u16>
    ensures { result ≡ status_in (response_map x.now.place hub.now.contexts) }
{
    let none = HeaderList::new(alloc);
    status_in(response_map(&hub.contexts, x.place, &none))
}

/// The bytes of the response's head.
fn response_down(alloc: Global, x: &Exchange, hub: &Hub, stays: bool) -> Result<Octets, OutOfMemory>
    ensures { IfOk result (λ bytes. bytes ≡ head_wire (out_framing x.now) (sent_head (response_map x.now.place hub.now.contexts)
        (down_tail stays hub.now.moment (response_map x.now.place hub.now.contexts)))) }
{
    let none = HeaderList::new(alloc);
    let map = response_map(&hub.contexts, x.place, &none);
    response_bytes(alloc, map, out_framing(x), stays, hub.moment)
}

/// The Connection fields of the response's head as it goes down.
fn connection_down(alloc: Global, x: &Exchange, hub: &Hub) -> Result<Texts, OutOfMemory>
    ensures { IfOk result (λ texts. texts ≡ connection_fields (response_map x.now.place hub.now.contexts)) }
{
    let none = HeaderList::new(alloc);
    connection_fields(alloc, response_map(&hub.contexts, x.place, &none))
}

/// The response's head leaves, whose status is known.
fn head_down(
    alloc: Global,
    n: LineNo,
    end: bool,
    x: &mut Exchange,
    hub: &mut Hub,
) -> Result<(), OutOfMemory>
    ensures { OnOk result (send_response_head n end x.old hub.old ≡ (x.new, hub.new)) }
{
    x.connection_down = connection_down(alloc, x, hub)?;
    let stays = stays_behind(x, out_framing(x));
    let bytes = response_down(alloc, x, hub, stays)?;
    send(hub, n, Side::Down, bytes)?;
    x.is_head_out = true;
    x.stays = stays;
    x.has_ended = end;
    Ok(())
}

/// The bytes of the response's trailers.
fn trailers_down(alloc: Global, x: &Exchange, hub: &Hub) -> Result<Octets, OutOfMemory>
    ensures { IfOk result (λ bytes. bytes ≡ trailer_wire (written_framing x.now) (with_connection x.now.connection_down (response_trailers x.now.place hub.now.contexts).pairs)) }
{
    let none = HeaderList::new(alloc);
    let map = response_trailers(&hub.contexts, x.place, &none);
    trailer_bytes(alloc, &x.connection_down, map, written_framing(x))
}

/// An item leaves the chain of the response.
fn leave_down(
    alloc: Global,
    n: LineNo,
    item: ChainItem,
    x: &mut Exchange,
    hub: &mut Hub,
) -> Result<(), OutOfMemory>
    ensures { OnOk result (send_response_item n item x.old hub.old ≡ (x.new, hub.new)) }
{
    match item {
        ChainItem::Head { end } => {
            x.out = status_down(alloc, x, hub);
            head_down(alloc, n, end, x, hub)
        }
        ChainItem::Piece { bytes, end } => {
            let bytes = piece_bytes(alloc, bytes, end, written_framing(x))?;
            send(hub, n, Side::Down, bytes)?;
            x.has_ended = end;
            Ok(())
        }
        ChainItem::Trailers => {
            let bytes = trailers_down(alloc, x, hub)?;
            send(hub, n, Side::Down, bytes)?;
            x.has_ended = true;
            Ok(())
        }
    }
}

/// An item leaves a chain, unless the exchange has ended.
fn leave(
    alloc: Global,
    response: bool,
    n: LineNo,
    item: ChainItem,
    x: &mut Exchange,
    hub: &mut Hub,
) -> Result<(), OutOfMemory>
    ensures { OnOk result (send_item response n item (x.old, hub.old) ≡ (x.new, hub.new)) }
{
    if x.has_ended {
        return Ok(());
    }
    if response {
        leave_down(alloc, n, item, x, hub)
    } else {
        leave_up(alloc, n, item, x, hub)
    }
}

/// Items leave a chain, one after another.
pub(crate) fn leave_all(
    alloc: Global,
    response: bool,
    n: LineNo,
    items: Queue<ChainItem>,
    x: &mut Exchange,
    hub: &mut Hub,
) -> Result<(), OutOfMemory>
    ensures { OnOk result (send_items response n items (x.old, hub.old) ≡ (x.new, hub.new)) }
{
    let mut rest = items.drain();
    while let Some(item) = rest.pop_first() {
        leave(alloc, response, n, item, x, hub)?;
    }
    Ok(())
}
