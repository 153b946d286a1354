// A worker's part in a table.
ghost use Rattle.std.specs.Prelude.{◌≡◌, [], ◌∷◌};
ghost use Rattle.turn_table.specs.declared.view.View.{View};

use crate::View;
use atomic_table::Badge;
use gate_base::WorkerNo;
use std::marker::Model;
use std::mem;

/// A step on the table is made by it.
pub(crate) type Pass<S> = atomic_table::Seat<S, View>;

/// A worker's seat at a turn table. Clauses see what it has seen of the history, as `Seated`.
#[derive(Drop)]
pub struct Seat {
    pub(crate) who: WorkerNo,
    pub(crate) given: u8,
    pub(crate) badge: Badge<View>,
}

impl Model for Seat {
    ghost use Rattle.std.specs.Prelude.{◌≡◌, ◌<◌, false, [], ◌∷◌};
    ghost use Rattle.turn_table.specs.Seats.{Seated, seated, view_in};

    ghost Value = { Seated };

    ghost view = { λ s. seated s.badge.table_id (view_in s.badge.views) };

    ghost invariant = { λ s. (s.badge.views ≡ view_in s.badge.views ∷ []) × (s.who ≡ (view_in s.badge.views).number) × (s.given ≡ (view_in s.badge.views).given) × (0 < s.who) × ((view_in s.badge.views).holds ≡ false) };
}

impl Seat {
    /// The worker whose seat it is.
    pub fn who(&self) -> WorkerNo
        ensures { result ≡ self.now.number }
    {
        self.who
    }
}

/// Takes the pass out of a badge, and leaves a blank one.
pub(crate) fn pass_out<S>(badge: &mut Badge<View>) -> Pass<S>
    requires { (v : View) × (badge.old.views ≡ v ∷ []) }
    ensures same { (result.table_id ≡ badge.old.table_id) × (result.id ≡ badge.old.id) }
    ensures view { badge.old.views ≡ result.me.0 ∷ [] }
    ensures no_slot { result.me.1 ≡ [] }
{
    mem::replace(badge, Badge::blank()).into_seat()
}
