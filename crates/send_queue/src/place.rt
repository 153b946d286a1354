// Where things are sent to.
ghost use Rattle.std.specs.Prelude.{◌≡◌};
ghost use Rattle.send_queue.specs.Cleared.{ended_by};
ghost use Rattle.send_queue.specs.Places.{place_of};
ghost use Rattle.send_queue.specs.Sorted.{rank};
ghost use Rattle.send_queue.specs.declared.place.Destination.TheVariants.{Peer};

use gate_base::LineNo;
use gate_io::{Sent, Side, What};

/// Where a member goes.
#[derive(Clone, Copy, PartialEq, Eq)]
pub enum Destination {
    /// The peer on a side of a line.
    Peer { line: LineNo, side: Side },
    /// The log.
    Journal,
}

/// The peer on a side of a line.
fn peer(line: LineNo, side: Side) -> Destination
    ensures { result ≡ Peer line side }
{
    Destination::Peer { line, side }
}

/// The place of a member.
pub fn place_of(member: &Sent) -> Destination
    ensures { result ≡ place_of member.now }
{
    match member {
        Sent::Connect { line } => peer(*line, Side::Up),
        Sent::Bytes { line, side, .. } | Sent::Close { line, side } => peer(*line, *side),
        Sent::Log { .. } => Destination::Journal,
    }
}

/// The place that takes nothing more once this happened.
pub fn ended_by(what: &What) -> Option<Destination>
    ensures { result ≡ ended_by what.now }
{
    match what {
        What::Gone { line, side } => Some(peer(*line, *side)),
        What::Refused { line } => Some(peer(*line, Side::Up)),
        _ => None,
    }
}

/// The number by which places are sorted: that of the log, and then those of each line's client and server.
pub(crate) fn rank(place: &Destination) -> u64
    ensures { result ≡ rank place.now }
{
    match place {
        Destination::Journal => 0,
        Destination::Peer { line, side } => {
            let twice = u64::from(line.get()) * 2;
            match side {
                Side::Down => twice + 1,
                Side::Up => twice + 2,
            }
        }
    }
}
