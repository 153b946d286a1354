// Copies of lists of numbers and of other small members.
ghost use Rattle.std.specs.Prelude.{◌≡◌, IfOk};

use gate_base::{Members, OutOfMemory};
use std::alloc::Global;

/// A copy of a list of members that are copied by themselves.
pub(crate) fn copied<M: Copy + Drop>(
    alloc: Global,
    members: &Members<M>,
) -> Result<Members<M>, OutOfMemory>
    ensures { IfOk result (λ copy. copy ≡ members.now) }
{
    let mut copy = Members::new(alloc);
    for member in members.as_slice() {
        copy.push(*member)?;
    }
    Ok(copy)
}
