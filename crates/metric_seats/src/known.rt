// The ids that a worker got from its definitions.
ghost use Rattle.std.specs.Prelude.{◌≡◌, ◌≤◌, ◌-◌, Some, IfSome, slice_set};
ghost use Rattle.metric_seats.specs.Knowing.{kind_of, no_ids};

use store_model::MetricKind;

/// The kinds of the metrics whose ids a worker got, by their ids from 1.
#[derive(Clone, Copy)]
pub struct Known {
    pub(crate) kinds: [Option<MetricKind>; 64],
}

impl Known {
    /// No id is known.
    pub(crate) fn new() -> Known
        ensures { result.kinds ≡ no_ids }
    {
        Known { kinds: [None; 64] }
    }

    /// The kind of an id that is known.
    pub(crate) fn kind(&self, id: u32) -> Option<MetricKind>
        ensures kind { result ≡ kind_of self.now.kinds id }
        ensures within { IfSome result (λ kind. (1 ≤ id) × (id ≤ 64)) }
    {
        if id == 0 || id > 64 {
            return None;
        }
        self.kinds[id as usize - 1]
    }

    /// From here on the id is known, with its kind.
    pub(crate) fn learn(&mut self, kind: MetricKind, id: u32)
        requires { (1 ≤ id) × (id ≤ 64) }
        ensures { self.new.kinds ≡ slice_set self.old.kinds (id - 1) (Some kind) }
    {
        self.kinds[id as usize - 1] = Some(kind);
    }
}
