// Worked examples of the definitions, and laws above them. Nothing here does anything when it runs.
ghost use Rattle.std.specs.Prelude.{◌≡◌, ◌<◌, ◌+◌, ℕ, List, All};
ghost use Rattle.shared_store.specs.Moving.{SeatsGoOn};
ghost use Rattle.shared_store.specs.SeatRows.{call_on_second_table, call_on_wrong_table, reply_of_an_old_copy, begun_anew, one_history_of_two, entry_of_nobody};
ghost use Rattle.shared_store.specs.Tables.{AreAt, AreFirst, AreLegal, AreNumbered, AreOf, SeatsJoined, after_split, first_seats, next_seats};
ghost use Rattle.shared_store.specs.Workers.{AreAll, ListsGoOn};
ghost use Rattle.std.specs.Global.{Vec};
ghost use Rattle.store_model.specs.Made.{Made};
ghost use Rattle.turn_table.specs.Seats.{HasAll, Seated, TurnTableId};

/// Worked examples of calls over seats, and of what is none.
pub fn worked_seats()
    ensures call_on_second_table { call_on_second_table }
    ensures call_on_wrong_table { call_on_wrong_table }
    ensures reply_of_an_old_copy { reply_of_an_old_copy }
    ensures begun_anew { begun_anew }
{}

/// Worked examples of the one history of all workers, and of what is none.
pub fn worked_workers()
    ensures one_history_of_two { one_history_of_two }
    ensures entry_of_nobody { entry_of_nobody }
{}

/// Seats stay at their tables: those that are made, that a split leaves or gives, and those after calls or a join.
pub fn seats_stay_at_their_tables()
    ensures first { (tables : List TurnTableId) → AreAt tables (first_seats tables) }
    ensures split { (tables : List TurnTableId) (seats : List Seated) → AreAt tables seats → AreAt tables (after_split seats) × AreAt tables (next_seats seats) }
    ensures calls { (tables : List TurnTableId) (old new : List Seated) (calls : List Made) → AreAt tables old → SeatsGoOn old calls new → AreAt tables new }
    ensures joined { (tables : List TurnTableId) (old ended new : List Seated) → AreAt tables old → AreAt tables ended → SeatsJoined old ended new → AreAt tables new }
{}

/// What seats have seen is legal: at the start, after a split, after calls and after a join.
pub fn what_seats_have_seen_is_legal()
    ensures first { (tables : List TurnTableId) → AreLegal (first_seats tables) }
    ensures split { (seats : List Seated) → AreLegal seats → AreLegal (after_split seats) × AreLegal (next_seats seats) }
    ensures calls { (old new : List Seated) (calls : List Made) → AreLegal old → SeatsGoOn old calls new → AreLegal new }
    ensures joined { (tables : List TurnTableId) (old ended new : List Seated) → AreNumbered tables → AreAt tables old → AreAt tables ended → SeatsJoined old ended new → AreLegal new }
{}

/// Worker 1's seats know which numbers they gave out and which came back: so a next worker may be seated, joined, and the tables closed.
pub fn workers_come_and_go()
    ensures start { (tables : List TurnTableId) → AreFirst 1 1 (first_seats tables) }
    ensures split { (given joined : ℕ) (seats : List Seated) → AreFirst given joined seats → AreFirst (given + 1) joined (after_split seats) × AreOf (given + 1) (next_seats seats) }
    ensures calls { (given joined : ℕ) (old new : List Seated) (calls : List Made) → AreFirst given joined old → SeatsGoOn old calls new → AreFirst given joined new }
    ensures others { (who : ℕ) (old new : List Seated) (calls : List Made) → AreOf who old → SeatsGoOn old calls new → AreOf who new }
    ensures joined { (tables : List TurnTableId) (given joined : ℕ) (old ended new : List Seated) → AreAt tables old → AreAt tables ended → AreFirst given joined old → AreOf (joined + 1) ended → SeatsJoined old ended new → AreFirst given (joined + 1) new }
    ensures may_split { (given joined : ℕ) (seats : List Seated) → given < 8 → AreFirst given joined seats → All (λ s. (s.number ≡ 1) × (s.given < 8)) seats }
    ensures may_join { (given joined : ℕ) (seats : List Seated) → AreFirst given joined seats → All (λ s. s.number ≡ 1) seats }
    ensures may_shut { (given : ℕ) (seats : List Seated) → AreFirst given given seats → All (λ s. (s.number ≡ 1) × HasAll s) seats }
{}

/// All seats are still there after calls of each worker.
pub fn no_seat_gets_lost()
    ensures { (tables : List TurnTableId) (old new : List (Vec Seated)) → AreAll tables old → ListsGoOn old new → AreAll tables new }
{}
