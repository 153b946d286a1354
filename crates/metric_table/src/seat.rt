// A worker's part in the words.
ghost use Rattle.std.specs.Prelude.{◌≡◌, [], ◌∷◌};
ghost use Rattle.metric_table.specs.declared.view.View.{View};

use crate::View;
use atomic_table::Badge;
use gate_base::WorkerNo;
use std::marker::Model;
use std::mem;

/// A step on a word is made by it.
pub(crate) type Pass = atomic_table::Seat<(), View>;

/// A worker's seat at the words of a VM name. Clauses see its own values and its looks, as `Counting`.
#[derive(Drop)]
pub struct MetricSeat {
    pub(crate) who: WorkerNo,
    pub(crate) given: u8,
    pub(crate) badge: Badge<View>,
}

impl Model for MetricSeat {
    ghost use Rattle.std.specs.Prelude.{◌≡◌, ◌<◌, [], ◌∷◌};
    ghost use Rattle.metric_table.specs.Seats.{Counting, counting, view_in};

    ghost Value = { Counting };

    ghost view = { λ s. counting s.badge.table_id (view_in s.badge.views) };

    ghost invariant = { λ s. (s.badge.views ≡ view_in s.badge.views ∷ []) × (s.who ≡ (view_in s.badge.views).number) × (s.given ≡ (view_in s.badge.views).given) × (0 < s.who) };
}

impl MetricSeat {
    /// The worker whose seat it is.
    pub fn who(&self) -> WorkerNo
        ensures { result ≡ self.now.number }
    {
        self.who
    }
}

/// Takes the pass out of a badge, and leaves a blank one.
pub(crate) fn pass_out(badge: &mut Badge<View>) -> Pass
    requires { (v : View) × (badge.old.views ≡ v ∷ []) }
    ensures same { (result.table_id ≡ badge.old.table_id) × (result.id ≡ badge.old.id) }
    ensures view { badge.old.views ≡ result.me.0 ∷ [] }
    ensures no_slot { result.me.1 ≡ [] }
{
    mem::replace(badge, Badge::blank()).into_seat()
}
