// One member's offer to a world.
ghost use Rattle.std.specs.Prelude.{◌≡◌, ◌≤◌, ◌<◌, ◌+◌, [], ◌∷◌, ◌++◌, length, take, drop, IfOk, IfSome, OnOk};
ghost use Rattle.gate_io.specs.declared.event.Sent.TheVariants.{Bytes};
ghost use Rattle.send_queue.specs.Delivery.{Offered, IsFilled};
ghost use Rattle.send_queue.specs.Places.{marks_at, place_of};
ghost use Rattle.send_queue.specs.Sorted.{rank_of, IsSorted, IsEndOf, IsBehind};
ghost use Rattle.send_queue.specs.Taking.{rest_of, none_left, WasOffered};

use crate::held::{Unsent, rank_of, shorten};
use crate::sorted::{end_near_last, put_behind, waits_before};
use gate_base::{LineNo, OutOfMemory};
use gate_io::{Sent, Side, World};
use std::alloc::Global;

/// Nothing is left of a member that was taken.
fn none_left(taken: Result<(), OutOfMemory>) -> Result<Option<usize>, OutOfMemory>
    ensures { result ≡ none_left taken }
{
    match taken {
        Ok(()) => Ok(None),
        Err(e) => Err(e),
    }
}

/// Offers a piece to a side of a line: how many of its bytes were taken, where that is not all of them.
fn offer_piece<W: World>(
    alloc: Global,
    world: &mut W,
    line: LineNo,
    side: Side,
    bytes: &[u8],
) -> Result<Option<usize>, OutOfMemory>
    ensures last { W.last world.new ≡ W.last world.old }
    ensures nature { W.nature world.new ≡ W.nature world.old }
    ensures faults { W.faults world.old ≤ W.faults world.new }
    ensures offered { WasOffered (W.nature world.old).takes_whole (W.trace world.old) (Bytes line side bytes.now) result (W.trace world.new) }
    ensures some { IfOk result (λ taken. IfSome taken (λ n. n < length bytes.now)) }
{
    let n = world.send(alloc, line, side, bytes)?;
    if n < bytes.len() {
        Ok(Some(n))
    } else {
        Ok(None)
    }
}

/// Offers a member to a world: how many bytes of a piece were taken, where that is not all of them.
pub fn offer_member<W: World>(
    alloc: Global,
    world: &mut W,
    member: &Unsent,
) -> Result<Option<usize>, OutOfMemory>
    ensures last { W.last world.new ≡ W.last world.old }
    ensures nature { W.nature world.new ≡ W.nature world.old }
    ensures faults { W.faults world.old ≤ W.faults world.new }
    ensures offered { WasOffered (W.nature world.old).takes_whole (W.trace world.old) member.now result (W.trace world.new) }
    ensures some { IfOk result (λ taken. IfSome taken (λ n. IsFilled (rest_of n member.now))) }
{
    match &member.member {
        Sent::Connect { line } => none_left(world.connect(alloc, *line)),
        Sent::Bytes { line, side, .. } => offer_piece(alloc, world, *line, *side, member.rest()),
        Sent::Close { line, side } => none_left(world.close(alloc, *line, *side)),
        Sent::Log { level, text } => none_left(world.log(alloc, *level, text.as_slice())),
    }
}

/// Puts what is left of a member after what waits.
fn put_rest(
    alloc: Global,
    left: &mut Vec<Unsent>,
    end: usize,
    member: Unsent,
    n: usize,
) -> Result<(), OutOfMemory>
    requires sorted { IsSorted left.old.items }
    requires end { IsEndOf (rank_of member) end left.old.items }
    requires some { IsFilled (rest_of n member) }
    ensures behind { OnOk result (IsBehind left.old.items (rest_of n member) left.new.items) }
    ensures sorted { OnOk result (IsSorted left.new.items) }
{
    let mut member = member;
    shorten(alloc, &mut member, n)?;
    put_behind(left, end, member)
}

/// Offers a member to a place for which nothing is left.
fn offer_first<W: World>(
    alloc: Global,
    world: &mut W,
    left: &mut Vec<Unsent>,
    end: usize,
    member: Unsent,
) -> Result<(), OutOfMemory>
    requires sorted { IsSorted left.old.items }
    requires end { IsEndOf (rank_of member) end left.old.items }
    requires none { marks_at (place_of member) left.old.items ≡ [] }
    ensures last { W.last world.new ≡ W.last world.old }
    ensures nature { W.nature world.new ≡ W.nature world.old }
    ensures faults { W.faults world.old ≤ W.faults world.new }
    ensures offered { Offered (W.nature world.old).takes_whole (W.trace world.old) left.old.items (left.old.items ++ member ∷ []) result (W.trace world.new) left.new.items }
    ensures sorted { OnOk result (IsSorted left.new.items) }
{
    match offer_member(alloc, world, &member)? {
        Some(n) => put_rest(alloc, left, end, member, n),
        None => Ok(()),
    }
}

/// Offers a member to the world, unless something is left for its place already. What is left is sorted.
pub fn offer<W: World>(
    alloc: Global,
    world: &mut W,
    left: &mut Vec<Unsent>,
    member: Unsent,
) -> Result<(), OutOfMemory>
    requires { IsSorted left.old.items }
    ensures last { W.last world.new ≡ W.last world.old }
    ensures nature { W.nature world.new ≡ W.nature world.old }
    ensures faults { W.faults world.old ≤ W.faults world.new }
    ensures offered { Offered (W.nature world.old).takes_whole (W.trace world.old) left.old.items (left.old.items ++ member ∷ []) result (W.trace world.new) left.new.items }
    ensures sorted { OnOk result (IsSorted left.new.items) }
{
    // What waited is offered in the order of places, so that what is left of it goes to the end.
    let rank = rank_of(&member);
    let end = end_near_last(left, rank);
    if waits_before(left, end, rank) {
        put_behind(left, end, member)
    } else {
        offer_first(alloc, world, left, end, member)
    }
}

/// Offers the member at a place of the list, in which those before it wait on, unless one of them waits for its place. What is left of
/// it stays there, and the place is then that of the next member.
fn offer_at<W: World>(
    alloc: Global,
    world: &mut W,
    members: &mut Vec<Unsent>,
    at: &mut usize,
) -> Result<(), OutOfMemory>
    requires within { at.old < length members.old.items }
    requires sorted { IsSorted members.old.items }
    ensures last { W.last world.new ≡ W.last world.old }
    ensures nature { W.nature world.new ≡ W.nature world.old }
    ensures faults { W.faults world.old ≤ W.faults world.new }
    ensures offered { Offered (W.nature world.old).takes_whole (W.trace world.old) (take at.old members.old.items) (take (at.old + 1) members.old.items) result (W.trace world.new) (take at.new members.new.items) }
    ensures rest { OnOk result (drop at.new members.new.items ≡ drop (at.old + 1) members.old.items) }
    ensures sorted { OnOk result (IsSorted members.new.items) }
{
    let here = *at;
    let rank = rank_of(&members[here]);
    if waits_before(&members[..here], here, rank) {
        *at = here + 1;
        return Ok(());
    }
    match offer_member(alloc, world, &members[here])? {
        Some(n) => {
            shorten(alloc, &mut members[here], n)?;
            *at = here + 1;
        }
        None => drop(members.remove(here)),
    }
    Ok(())
}

/// Offers what waits, where it waits: a member is offered unless one before it waits for its place. What is left stays where it is.
pub fn offer_waiting<W: World>(
    alloc: Global,
    world: &mut W,
    members: &mut Vec<Unsent>,
) -> Result<(), OutOfMemory>
    requires { IsSorted members.old.items }
    ensures last { W.last world.new ≡ W.last world.old }
    ensures nature { W.nature world.new ≡ W.nature world.old }
    ensures faults { W.faults world.old ≤ W.faults world.new }
    ensures offered { Offered (W.nature world.old).takes_whole (W.trace world.old) [] members.old.items result (W.trace world.new) members.new.items }
    ensures sorted { OnOk result (IsSorted members.new.items) }
{
    let mut at = 0;
    while at < members.len() {
        offer_at(alloc, world, members, &mut at)?;
    }
    Ok(())
}

/// Offers members that wait to the world after what is left already. What is left is sorted.
pub fn offer_all<W: World>(
    alloc: Global,
    world: &mut W,
    left: &mut Vec<Unsent>,
    members: Vec<Unsent>,
) -> Result<(), OutOfMemory>
    requires { IsSorted left.old.items }
    ensures last { W.last world.new ≡ W.last world.old }
    ensures nature { W.nature world.new ≡ W.nature world.old }
    ensures faults { W.faults world.old ≤ W.faults world.new }
    ensures offered { Offered (W.nature world.old).takes_whole (W.trace world.old) left.old.items (left.old.items ++ members.items) result (W.trace world.new) left.new.items }
    ensures sorted { OnOk result (IsSorted left.new.items) }
{
    for member in members {
        offer(alloc, world, left, member)?;
    }
    Ok(())
}

/// Offers what a turn sends to the world after what is left already. What is left is sorted.
pub fn offer_sent<W: World>(
    alloc: Global,
    world: &mut W,
    left: &mut Vec<Unsent>,
    members: Vec<Sent>,
) -> Result<(), OutOfMemory>
    requires { IsSorted left.old.items }
    ensures last { W.last world.new ≡ W.last world.old }
    ensures nature { W.nature world.new ≡ W.nature world.old }
    ensures faults { W.faults world.old ≤ W.faults world.new }
    ensures offered { Offered (W.nature world.old).takes_whole (W.trace world.old) left.old.items (left.old.items ++ members.items) result (W.trace world.new) left.new.items }
    ensures sorted { OnOk result (IsSorted left.new.items) }
{
    for member in members {
        offer(alloc, world, left, Unsent::new(member))?;
    }
    Ok(())
}
