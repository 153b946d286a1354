// What a member puts at its place.
ghost use Rattle.std.specs.Prelude.{◌≡◌, IfOk};
ghost use Rattle.send_queue.specs.Joined.{are_one, as_one};
ghost use Rattle.send_queue.specs.Places.{is_same_place, place_of};

use crate::place::{Destination, place_of};
use gate_base::OutOfMemory;
use gate_io::Sent;

/// Whether the member goes to the place.
fn is_for(member: &Sent, place: &Destination) -> bool
    ensures { result ≡ is_same_place (place_of member.now) place.now }
{
    place_of(member) == *place
}

/// Whether both are bytes of one line and side.
pub fn are_one(first: &Sent, next: &Sent) -> bool
    ensures { result ≡ are_one first.now next.now }
{
    let both = matches!(first, Sent::Bytes { .. }) && matches!(next, Sent::Bytes { .. });
    both && is_for(first, &place_of(next))
}

/// Puts the bytes of the next after those of the first.
pub fn as_one(first: Sent, next: &Sent) -> Result<Sent, OutOfMemory>
    ensures { IfOk result (λ one. one ≡ as_one first next.now) }
{
    match first {
        Sent::Bytes {
            line,
            side,
            mut bytes,
        } => {
            if let Sent::Bytes { bytes: more, .. } = next {
                bytes.extend_from_slice(more.as_slice())?;
            }
            Ok(Sent::Bytes { line, side, bytes })
        }
        other => Ok(other),
    }
}
