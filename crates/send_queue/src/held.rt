// A member that waits.
ghost use Rattle.std.specs.Prelude.{◌≡◌, ◌≢◌, [], length, OnOk};
ghost use Rattle.std.specs.Bool.{OnTrue, OnFalse};
ghost use Rattle.send_queue.specs.Delivery.{IsFilled};
ghost use Rattle.send_queue.specs.Joined.{are_one, as_one};
ghost use Rattle.send_queue.specs.Places.{bytes_in, is_same_place, marks_in, marks_of, octets_in, place_of};
ghost use Rattle.send_queue.specs.Sorted.{rank_of};
ghost use Rattle.send_queue.specs.Taking.{rest_of};

use crate::place::{Destination, rank};
use crate::{member, place};
use gate_base::{Octets, OutOfMemory};
use gate_io::Sent;
use std::alloc::Global;
use std::marker::Model;

/// A member that waits. Clauses see what is left of it.
#[derive(Drop)]
pub struct Unsent {
    pub(crate) member: Sent,
    /// So many of its bytes were taken. They stay in front of the others until they are more than those, so that no byte is moved once for
    /// each time at which some are taken.
    taken: usize,
    /// The number by which it is sorted, which is asked for several times in each turn.
    rank: u64,
}

impl Model for Unsent {
    ghost use Rattle.std.specs.Prelude.{◌≡◌};
    ghost use Rattle.gate_io.specs.declared.event.Sent.{Sent};
    ghost use Rattle.send_queue.specs.Sorted.{rank_of};
    ghost use Rattle.send_queue.specs.Taking.{rest_of, IsWithin};

    ghost Value = { Sent };

    ghost view = { λ h. rest_of h.taken h.member };

    ghost invariant = { λ h. IsWithin h.taken h.member × (h.rank ≡ rank_of h.member) };
}

impl Unsent {
    /// A member of which nothing was taken.
    #[tactic(auto, using(crate::proofs::Holding::rest_of_none, crate::proofs::Holding::within_none))]
    pub(crate) fn new(member: Sent) -> Self
        ensures { result ≡ member }
    {
        let rank = rank(&place::place_of(&member));
        Unsent {
            member,
            taken: 0,
            rank,
        }
    }

    /// The bytes that are left of a piece, and none of another member.
    #[tactic(auto, using(crate::proofs::Holding::within_bytes, crate::proofs::Holding::bytes_in_rest))]
    pub(crate) fn rest(&self) -> &[u8]
        ensures { result.now ≡ bytes_in self.now }
    {
        match &self.member {
            Sent::Bytes { bytes, .. } => &bytes.as_slice()[self.taken..],
            Sent::Connect { .. } | Sent::Close { .. } | Sent::Log { .. } => &[],
        }
    }
}

/// The place of a member.
#[tactic(auto, using(crate::proofs::Holding::place_of_rest))]
pub fn place_of(member: &Unsent) -> Destination
    ensures { result ≡ place_of member.now }
{
    place::place_of(&member.member)
}

/// The number by which a member is sorted.
#[tactic(auto, using(crate::proofs::Holding::rank_of_rest))]
pub fn rank_of(member: &Unsent) -> u64
    ensures { result ≡ rank_of member.now }
{
    member.rank
}

/// Whether the member goes to the place.
pub fn is_for(member: &Unsent, place: &Destination) -> bool
    ensures { result ≡ is_same_place (place_of member.now) place.now }
{
    place_of(member) == *place
}

/// Whether the member is a piece without bytes.
pub fn is_empty(member: &Unsent) -> bool
    ensures some { OnFalse result (marks_in member.now ≢ []) }
    ensures none { OnTrue result (marks_in member.now ≡ []) }
{
    matches!(&member.member, Sent::Bytes { .. }) && member.rest().is_empty()
}

/// How many bytes are left of a piece, and none of another member.
pub fn bytes_left(member: &Unsent) -> usize
    ensures { result ≡ length (bytes_in member.now) }
{
    member.rest().len()
}

/// How many bytes of the member go to the place.
#[tactic(auto, using(crate::proofs::Holding::octets_here, crate::proofs::Holding::octets_elsewhere))]
pub fn bytes_for(member: &Unsent, place: &Destination) -> usize
    ensures { result ≡ octets_in (marks_of place.now member.now) }
{
    if is_for(member, place) {
        bytes_left(member)
    } else {
        0
    }
}

/// Whether both are bytes of one line and side.
#[tactic(auto, using(crate::proofs::Holding::are_one_rest))]
pub fn are_one(first: &Unsent, next: &Unsent) -> bool
    ensures { result ≡ are_one first.now next.now }
{
    member::are_one(&first.member, &next.member)
}

/// Puts the bytes of the next after those of the first.
#[tactic(auto, using(crate::proofs::Holding::within_bytes, crate::proofs::Holding::as_one_rest, crate::proofs::Holding::as_one_other, crate::proofs::Holding::rank_of_bytes))]
pub fn join(first: &mut Unsent, next: &Unsent) -> Result<(), OutOfMemory>
    ensures { OnOk result (first.new ≡ as_one first.old next.now) }
{
    if let Sent::Bytes { bytes, .. } = &mut first.member {
        bytes.extend_from_slice(next.rest())?;
    }
    Ok(())
}

/// Takes so many bytes off the front of a piece. Where that is none, as of a side that reads nothing, it stays as it is.
#[inline(always)]
#[tactic(auto, using(crate::proofs::Holding::rest_of_none))]
pub fn shorten(alloc: Global, member: &mut Unsent, n: usize) -> Result<(), OutOfMemory>
    requires { IsFilled (rest_of n member.old) }
    ensures { OnOk result (member.new ≡ rest_of n member.old) }
{
    if n == 0 {
        return Ok(());
    }
    cut(alloc, member, n)
}

/// Takes so many bytes off the front of a piece.
#[tactic(auto, using(crate::proofs::Holding::within_bytes, crate::proofs::Holding::filled_within, crate::proofs::Holding::rest_of_twice, crate::proofs::Holding::rank_of_bytes))]
fn cut(alloc: Global, member: &mut Unsent, n: usize) -> Result<(), OutOfMemory>
    requires { IsFilled (rest_of n member.old) }
    ensures { OnOk result (member.new ≡ rest_of n member.old) }
{
    if let Sent::Bytes { bytes, .. } = &mut member.member {
        let count = bytes.len();
        member.taken += n;
        if member.taken > count / 2 {
            *bytes = Octets::from_slice(alloc, &bytes.as_slice()[member.taken..])?;
            member.taken = 0;
        }
    }
    Ok(())
}
