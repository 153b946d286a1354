// How host calls end, and what they hand over.
ghost use Rattle.std.specs.Prelude.{◌≡◌, ◌≢◌, ◌<◌, ◌^◌, length};
ghost use Rattle.abi_types.specs.GuestAt.{Keeps, StillWaits};
ghost use Rattle.abi_memory.specs.Giving.{Gives as GivesBytes, RestsAfterGiving, numbering};
ghost use Rattle.abi_model.specs.Calls.{handing, writing_at, finishing, CallEnds, RestsAfterCall, AreShort, only, given};

use abi_memory::{GiveEnd, Place, give_bytes, give_number};
use abi_types::Guest;
use gate_base::{Cause, Octets};

/// How a host call ends.
#[derive(Clone, Copy, PartialEq, Eq)]
pub enum HostEnd {
    /// Its answer: a status of the table of host calls.
    Status { status: u32 },
    /// The guest's allocator trapped, or the call itself is a trap.
    Trapped { cause: Cause },
    /// The guest's allocator spent the fuel.
    FuelSpent,
    /// Memory ran out.
    OutOfMemory,
}

/// What a call hands over.
#[derive(Drop)]
pub enum Gives {
    Nothing,
    /// Bytes in memory of the guest's own; their place and their size go to the first two places.
    Bytes { bytes: Octets },
    /// A number to the first place.
    Number { number: u32 },
    /// Numbers to the first two places.
    Numbers { first: u32, second: u32 },
    /// Bytes as above, and then a number to the third place.
    BytesAndNumber { bytes: Octets, number: u32 },
    /// A number of eight bytes to the first place.
    Wide { number: u64 },
    /// Bytes to the first place.
    Written { bytes: Octets },
}

/// What a call made of what it sees.
#[derive(Drop)]
pub struct Outcome {
    pub status: u32,
    pub gives: Gives,
}

/// Where a call's results go, in order; 0 where there are fewer.
#[derive(Clone, Copy)]
pub struct Places {
    pub first: u32,
    pub second: u32,
    pub third: u32,
}

/// A status alone.
pub fn answer(status: u32) -> Outcome
    ensures outcome { result ≡ only status }
    ensures short { AreShort result.gives }
{
    Outcome {
        status,
        gives: Gives::Nothing,
    }
}

/// What is given with the status 0.
pub fn given(gives: Gives) -> Outcome
    ensures { result ≡ given gives }
{
    Outcome { status: 0, gives }
}

/// Hands a number of four bytes over.
fn give_one<G: Guest>(guest: &mut G, at: u32, v: u32) -> Result<(), GiveEnd>
    requires { G.rests guest.old }
    ensures run { GivesBytes (numbering at v (G.at guest.old)) result (G.at guest.new) }
    ensures rests { RestsAfterGiving result (StillWaits (G.rests guest.new) (G.at guest.old) (G.at guest.new)) }
    ensures keeps { Keeps (G.at guest.old) (G.at guest.new) }
{
    match give_number(guest, at, v) {
        Some(()) => Ok(()),
        None => Err(GiveEnd::InvalidAccess),
    }
}

/// Writes bytes at a place.
fn give_at<G: Guest>(guest: &mut G, at: u32, bytes: &[u8]) -> Result<(), GiveEnd>
    requires { G.rests guest.old }
    ensures run { GivesBytes (writing_at at bytes.now (G.at guest.old)) result (G.at guest.new) }
    ensures rests { RestsAfterGiving result (StillWaits (G.rests guest.new) (G.at guest.old) (G.at guest.new)) }
    ensures keeps { Keeps (G.at guest.old) (G.at guest.new) }
{
    match guest.write(at, bytes) {
        Some(()) => Ok(()),
        None => Err(GiveEnd::InvalidAccess),
    }
}

/// Hands over what is given.
fn hand_over<G: Guest>(guest: &mut G, gives: &Gives, at: Places) -> Result<(), GiveEnd>
    requires rests { G.rests guest.old }
    requires short { AreShort gives.now }
    ensures run { GivesBytes (handing gives.now at (G.at guest.old)) result (G.at guest.new) }
    ensures rests { RestsAfterGiving result (StillWaits (G.rests guest.new) (G.at guest.old) (G.at guest.new)) }
    ensures keeps { Keeps (G.at guest.old) (G.at guest.new) }
{
    let told = Place {
        pointer: at.first,
        size: at.second,
    };
    match gives {
        Gives::Nothing => Ok(()),
        Gives::Bytes { bytes } => give_bytes(guest, bytes.as_slice(), told),
        Gives::Number { number } => give_one(guest, at.first, *number),
        Gives::Numbers { first, second } => {
            give_one(guest, at.first, *first)?;
            give_one(guest, at.second, *second)
        }
        Gives::BytesAndNumber { bytes, number } => {
            give_bytes(guest, bytes.as_slice(), told)?;
            give_one(guest, at.third, *number)
        }
        Gives::Wide { number } => give_at(guest, at.first, &number.to_le_bytes()),
        Gives::Written { bytes } => give_at(guest, at.first, bytes.as_slice()),
    }
}

/// Ends a call: hands over what it gives. `outside` is the status of a range that is not inside.
pub(crate) fn finish<G: Guest>(
    guest: &mut G,
    outside: u32,
    outcome: &Outcome,
    at: Places,
) -> HostEnd
    requires rests { G.rests guest.old }
    requires short { AreShort outcome.now.gives }
    ensures run { CallEnds (finishing outside outcome.now.status (handing outcome.now.gives at (G.at guest.old))) result (G.at guest.new) }
    ensures sure { result ≢ HostEnd.OutOfMemory }
    ensures rests { RestsAfterCall result (StillWaits (G.rests guest.new) (G.at guest.old) (G.at guest.new)) }
    ensures keeps { Keeps (G.at guest.old) (G.at guest.new) }
{
    match hand_over(guest, &outcome.gives, at) {
        Ok(()) => HostEnd::Status {
            status: outcome.status,
        },
        Err(GiveEnd::InvalidAccess) => HostEnd::Status { status: outside },
        Err(GiveEnd::NoAllocator) => HostEnd::Status { status: 10 },
        Err(GiveEnd::Trapped { cause }) => HostEnd::Trapped { cause },
        Err(GiveEnd::FuelSpent) => HostEnd::FuelSpent,
    }
}
