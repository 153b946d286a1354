// Members in the order of their places.
ghost use Rattle.std.specs.Prelude.{◌≡◌, ◌≢◌, ◌≤◌, [], length, take, OnOk};
ghost use Rattle.std.specs.Bool.{OnTrue, OnFalse};
ghost use Rattle.send_queue.specs.Places.{marks_at};
ghost use Rattle.send_queue.specs.Sorted.{rank, rank_of, IsSorted, AreUpTo, IsEndOf, IsBehind};
ghost use Rattle.send_queue.specs.declared.place.Destination.{Destination};

use crate::held::{Unsent, are_one, is_empty, join, rank_of};
use gate_base::OutOfMemory;

/// How many of the members are of this rank or a lower one.
pub fn end_of(members: &[Unsent], most: u64) -> usize
    requires { IsSorted members.now }
    ensures { IsEndOf most result members.now }
{
    members.partition_point(|member| rank_of(member) <= most)
}

/// The same, where that is likely to be all of them.
pub fn end_near_last(members: &[Unsent], most: u64) -> usize
    requires { IsSorted members.now }
    ensures { IsEndOf most result members.now }
{
    let count = members.len();
    if count > 0 && rank_of(&members[count - 1]) <= most {
        return count;
    }
    end_of(members, most)
}

/// Whether the members in front of a place are all of this rank or a lower one.
fn are_up_to(members: &[Unsent], most: u64, at: usize) -> bool
    requires { IsSorted members.now }
    ensures within { OnTrue result (at ≤ length members.now) }
    ensures up_to { OnTrue result (AreUpTo most (take at members.now)) }
{
    if at > members.len() {
        return false;
    }
    if at == 0 {
        return true;
    }
    rank_of(&members[at - 1]) <= most
}

/// How many of the members are of this rank or a lower one, where so many are.
fn end_from(members: &[Unsent], most: u64, at: usize) -> usize
    requires sorted { IsSorted members.now }
    requires within { at ≤ length members.now }
    requires up_to { AreUpTo most (take at members.now) }
    ensures { IsEndOf most result members.now }
{
    for end in at..members.len() {
        if rank_of(&members[end]) > most {
            return end;
        }
    }
    members.len()
}

/// The same, walked to from a place that is likely to be near, and no further behind. It is right wherever that is.
pub fn end_near(members: &[Unsent], most: u64, at: usize) -> usize
    requires { IsSorted members.now }
    ensures { IsEndOf most result members.now }
{
    if are_up_to(members, most, at) {
        end_from(members, most, at)
    } else {
        end_of(members, most)
    }
}

/// Whether something waits for the place of this rank, where so many members are of it or of a lower one.
pub fn waits_before(members: &[Unsent], end: usize, most: u64) -> bool
    requires sorted { IsSorted members.now }
    requires end { IsEndOf most end members.now }
    ensures some { OnTrue result ((place : Destination) → rank place ≡ most → marks_at place members.now ≢ []) }
    ensures none { OnFalse result ((place : Destination) → rank place ≡ most → marks_at place members.now ≡ []) }
{
    end > 0 && rank_of(&members[end - 1]) == most
}

/// Puts a member after those of its place, where so many are of its rank or a lower one. Bytes behind bytes become one member.
pub fn put_behind(members: &mut Vec<Unsent>, end: usize, member: Unsent) -> Result<(), OutOfMemory>
    requires sorted { IsSorted members.old.items }
    requires end { IsEndOf (rank_of member) end members.old.items }
    ensures behind { OnOk result (IsBehind members.old.items member members.new.items) }
    ensures sorted { OnOk result (IsSorted members.new.items) }
{
    if end > 0 && are_one(&members[end - 1], &member) {
        join(&mut members[end - 1], &member)?;
        return Ok(());
    }
    if is_empty(&member) {
        return Ok(());
    }
    members.insert(end, member)?;
    Ok(())
}
