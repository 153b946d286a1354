// What holds of every host call, each as the contract of a function.
ghost use Rattle.abi_model.specs.Isolation.{CallsAreIsolated, WritesAreIsolated, AsksAreIsolated};
ghost use Rattle.abi_model.specs.Laws.{RangesComeFirst, EffectStands, RowExamples};

/// A host call sees and changes what the effective context reaches and what all contexts of its VM have in common, and nothing
/// else: two hosts that agree on these give the guest the same, write the same lines and ask the stores the same.
pub fn host_calls_are_isolated()
    ensures local { CallsAreIsolated }
    ensures writing { WritesAreIsolated }
    ensures asking { AsksAreIsolated }
{}

/// Where a range or a place is outside nothing of a call happens; else what it changes stands, however handing over ends.
pub fn ranges_come_first()
    ensures ranges { RangesComeFirst }
    ensures effect { EffectStands }
{}

/// Rows, worked on memories that are written out.
pub fn worked_rows()
    ensures { RowExamples }
{}
