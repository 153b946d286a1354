// What leaves the chains of a line, and what is sent then.
ghost use Rattle.std.specs.Prelude.{◌≡◌, ◌∷◌, [], ◌++◌, OnOk, IfOk};
ghost use Rattle.tcp_filters.specs.Lines.{bytes_to, send_up, send_down, send_item, send_items, take_passed};

use crate::{TcpLine, TcpOutcome};
use filter_chain::{ChainItem, PassOutcome};
use gate_base::{LineNo, Octets, OutOfMemory};
use gate_io::{Sent, Side};
use gate_queue::Queue;
use std::alloc::Global;

/// Bytes for a side are sent after the others, if there are any.
fn send(
    number: LineNo,
    side: Side,
    bytes: Octets,
    sent: &mut Queue<Sent>,
) -> Result<(), OutOfMemory>
    ensures { OnOk result (sent.new ≡ sent.old ++ bytes_to number side bytes) }
{
    if bytes.is_empty() {
        return Ok(());
    }
    sent.push(Sent::Bytes {
        line: number,
        side,
        bytes,
    })
}

/// An item leaves towards the server.
fn leave_up(item: ChainItem, line: &mut TcpLine, sent: &mut Queue<Sent>) -> Result<(), OutOfMemory>
    ensures { OnOk result (send_up item (line.old, sent.old) ≡ (line.new, sent.new)) }
{
    match item {
        ChainItem::Head { .. } => {
            sent.push(Sent::Connect { line: line.number })?;
            line.is_up = true;
            Ok(())
        }
        ChainItem::Piece { bytes, .. } => send(line.number, Side::Up, bytes, sent),
        ChainItem::Trailers => Ok(()),
    }
}

/// An item leaves towards the client.
fn leave_down(
    item: ChainItem,
    line: &mut TcpLine,
    sent: &mut Queue<Sent>,
) -> Result<(), OutOfMemory>
    ensures { OnOk result (send_down item (line.old, sent.old) ≡ (line.new, sent.new)) }
{
    match item {
        ChainItem::Head { .. } => Ok(()),
        ChainItem::Piece { bytes, end } => {
            send(line.number, Side::Down, bytes, sent)?;
            line.has_ended = end;
            Ok(())
        }
        ChainItem::Trailers => Ok(()),
    }
}

/// An item leaves a chain, unless the connection has come to its end.
fn leave(
    response: bool,
    item: ChainItem,
    line: &mut TcpLine,
    sent: &mut Queue<Sent>,
) -> Result<(), OutOfMemory>
    ensures { OnOk result (send_item response item (line.old, sent.old) ≡ (line.new, sent.new)) }
{
    if line.has_ended {
        return Ok(());
    }
    if response {
        leave_down(item, line, sent)
    } else {
        leave_up(item, line, sent)
    }
}

/// Items leave a chain, one after another.
fn leave_all(
    response: bool,
    items: Queue<ChainItem>,
    line: &mut TcpLine,
    sent: &mut Queue<Sent>,
) -> Result<(), OutOfMemory>
    ensures { OnOk result (send_items response items (line.old, sent.old) ≡ (line.new, sent.new)) }
{
    let mut rest = items.drain();
    while let Some(item) = rest.pop_first() {
        leave(response, item, line, sent)?;
    }
    Ok(())
}

/// What comes of passing items on.
pub(crate) fn pass_on(
    alloc: Global,
    response: bool,
    passed: PassOutcome,
    line: &mut TcpLine,
) -> Result<TcpOutcome, OutOfMemory>
    ensures { IfOk result (λ outcome. take_passed response passed line.old ≡ (outcome, line.new)) }
{
    match passed {
        PassOutcome::Over => Ok(TcpOutcome::Over),
        PassOutcome::Left { items } => {
            let mut sent = Queue::new(alloc);
            leave_all(response, items, line, &mut sent)?;
            Ok(TcpOutcome::Sends { sent })
        }
    }
}
