// The order of events.
ghost use Rattle.std.specs.Prelude.{◌≡◌, ◌↔◌, IsTrue};
ghost use Rattle.gate_io.specs.Events.{AreInOrder, Follows, IsSized, is_stop, nothing_given};

use crate::{Event, What};

/// Whether a world may give these events in this order: moments never fall, bytes come in pieces of 1 to 16,384, and
/// only Stop stands behind Stop.
pub fn are_in_order(events: &[Event]) -> bool
    ensures { IsTrue result ↔ AreInOrder nothing_given events.now }
{
    let mut now = 0;
    let mut stopped = false;
    for event in events {
        if !follows(now, stopped, event) {
            return false;
        }
        now = event.now;
        stopped = is_stop_event(&event.what);
    }
    true
}

/// Whether an event may come behind one of this moment.
fn follows(now: u64, stopped: bool, event: &Event) -> bool
    ensures { IsTrue result ↔ Follows (record { now = now; stopped = stopped }) event.entry.now }
{
    now <= event.now && (!stopped || is_stop_event(&event.what)) && is_sized(&event.what)
}

/// Whether nothing more comes.
pub(crate) fn is_stop_event(what: &What) -> bool
    ensures { result ≡ is_stop what.now }
{
    matches!(what, What::Stop)
}

/// Whether it is no piece of bytes, or one of 1 to 16,384.
fn is_sized(what: &What) -> bool
    ensures { IsTrue result ↔ IsSized what.now }
{
    match what {
        What::Bytes { bytes, .. } => (1..=16384).contains(&bytes.len()),
        _ => true,
    }
}
