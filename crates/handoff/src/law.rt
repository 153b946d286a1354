// What the rule of a queue of lines says, where nothing is done when it runs, and what its calls say together.
ghost use Rattle.std.specs.Prelude.{◌≡◌, ℕ, true, List, ◌++◌, map, IfOk, IsOk, IsSomeAnd};
ghost use Rattle.handoff.specs.Hands.{Relayed, IsInOrder, twice_is_not, overtaken_is_not, told_of_more_is_not, held_is_not_taken};
ghost use Rattle.handoff.specs.declared.rule.Hands.{Hands};
ghost use mathlib.Core.Option.{some};
ghost use lib.ListN.{get_elem?};

use crate::{Giver, Handoff, HasLine, Taker};
use gate_base::OutOfMemory;
use std::alloc::Global;
use std::sync::Wait;

/// Under the rule each line that was offered is taken at most once, first in first out: what the giver offered is what the
/// taker took, and then what the queue holds.
pub fn lines_are_taken_in_order<L: HasLine>(line: &L)
    ensures { (items : List L) (views : List Hands) (giver taker : ℕ) (v w : Hands) → Relayed L.line items views → get_elem? views giver ≡ some v → v.gives ≡ true
        → get_elem? views taker ≡ some w → w.takes ≡ true → IsInOrder L.line v.offered w.taken items }
{
    let _ = line;
}

/// What the rule refuses: a taker's list with a line twice, and one with a later line first; that nothing is held where the taker was told of more than it took, and
/// that a line is held which the giver was told was taken.
pub fn worked_relays()
    ensures twice { twice_is_not }
    ensures overtaken { overtaken_is_not }
    ensures told { told_of_more_is_not }
    ensures held { held_is_not_taken }
{}

/// Two lines are offered at a new queue, and the taker is told of them: then it takes both, in order.
pub fn worked_handover<L: HasLine + Drop, R: Wait>(
    rt: &R,
    alloc: Global,
    first: L,
    second: L,
) -> Result<(Option<L>, Option<L>), OutOfMemory>
    ensures first { IfOk result (λ taken. IsSomeAnd taken.0 (λ line. L.line line ≡ L.line first)) }
    ensures second { IfOk result (λ taken. IsSomeAnd taken.1 (λ line. L.line line ≡ L.line second)) }
{
    let (queue, mut giver, mut taker) = Handoff::new(alloc)?;
    let _ = queue.offer(rt, &mut giver, first);
    let _ = queue.offer(rt, &mut giver, second);
    let note = queue.note_offered(&mut giver);
    queue.read_offered(&mut taker, note);
    let first = queue.take(rt, &mut taker);
    let second = queue.take(rt, &mut taker);
    Ok((first, second))
}

/// All lines that were offered were taken, and the giver is told so: then its next line does not come back, however many there were.
pub fn worked_room<L: HasLine + Drop, R: Wait>(
    rt: &R,
    queue: &Handoff<L>,
    giver: &mut Giver<L>,
    taker: &mut Taker<L>,
    line: L,
) -> Result<(), L>
    requires giver { giver.old.queue ≡ queue.now }
    requires taker { taker.old.queue ≡ queue.now }
    requires taken { taker.old.lines ≡ giver.old.lines }
    ensures { IsOk result }
{
    let note = queue.note_taken(taker);
    queue.read_taken(giver, note);
    queue.offer(rt, giver, line)
}
