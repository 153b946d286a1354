// Worked examples of the definitions, and laws above them. Nothing here does anything when it runs.
ghost use Rattle.std.specs.Prelude.{ℕ, ◌≤◌, All};
ghost use Rattle.store_model.specs.History.{entry};
ghost use Rattle.store_model.specs.declared.call.Call.{Call};
ghost use Rattle.store_model.specs.declared.call.Reply.{Reply};
ghost use Rattle.turn_table.specs.Rows.{row_is_legal, stale_row_is_not, first_workers_own, stale_call, longer_stays, new_table_keeps, any_mark_keeps, turn_without_holder, count_ahead, store_ahead, one_number_twice, numbers_in_order};
ghost use Rattle.turn_table.specs.Seats.{Seated, Called, Refused, Closed};
ghost use mathlib.Core.List.{IsPrefix};

use crate::Turned;

/// Worked examples of histories, of a call, and of two seats that meet.
pub fn worked_histories()
    ensures row_is_legal { row_is_legal }
    ensures stale_row_is_not { stale_row_is_not }
    ensures first_workers_own { first_workers_own }
    ensures stale_call { stale_call }
    ensures longer_stays { longer_stays }
{}

/// Worked examples of the rule: a table that keeps it, and some that do not.
pub fn worked_tables()
    ensures new_table_keeps { new_table_keeps }
    ensures any_mark_keeps { any_mark_keeps }
    ensures turn_without_holder { turn_without_holder }
    ensures count_ahead { count_ahead }
    ensures store_ahead { store_ahead }
    ensures one_number_twice { one_number_twice }
    ensures numbers_in_order { numbers_in_order }
{}

/// What a seat had seen begins what it has seen after a call, whatever the answer.
pub fn seats_see_ever_more<S: Turned>()
    ensures called { (v w : Seated) (call : Call) (reply : Reply) → Called S.acts v w call reply → IsPrefix v.seen w.seen }
    ensures refused { (v w : Seated) (call : Call) → Refused S.acts v w call → IsPrefix v.seen w.seen }
{}

/// An answered call is one more entry of its worker, and a refused one is none.
pub fn a_call_is_recorded_once_or_refused<S: Turned>()
    ensures { (v w : Seated) (call : Call) (reply : Reply) → Called S.acts v w call reply → Refused S.acts v w call → ⊥ }
{}

/// In the history of a closed table each entry is of a number that was given out.
pub fn every_entry_has_its_seat<S: Turned>()
    ensures { (v : Seated) (value : S) (count : ℕ) → Closed S.acts v value count → All (λ e. (1 ≤ e.who) × (e.who ≤ v.given)) v.seen }
{}
