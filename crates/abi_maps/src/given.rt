// Lists out of serialised forms.
ghost use Rattle.std.specs.Prelude.{◌≡◌, ◌≤◌, true, length, IfOk};
ghost use Rattle.std.specs.List.{list_all};
ghost use Rattle.header_maps.specs.Faults.{set_fault};
ghost use Rattle.header_maps.specs.Kept.{byte_limit, is_short};
ghost use Rattle.header_maps.specs.Operations.{all_set};
ghost use Rattle.abi_maps.specs.Maps.{unless, set_from};

use gate_base::OutOfMemory;
use header_maps::{HeaderEnd, HeaderList, ListKind};
use pair_codec::{Serialised, list_of};
use std::alloc::{AllocError, Global};

/// The list that the pairs of a form make, or the status why they make none.
fn list_from(
    alloc: Global,
    kind: ListKind,
    form: &Serialised,
) -> Result<Result<HeaderList, u32>, OutOfMemory>
    requires { list_all is_short form.now ≡ true }
    ensures { IfOk result (λ r. r ≡ unless (set_fault kind form.now) (all_set kind form.now)) }
{
    match list_of(alloc, kind, form) {
        Ok(list) => Ok(Ok(list)),
        Err(HeaderEnd::BadName | HeaderEnd::BadValue) => Ok(Err(2)),
        Err(HeaderEnd::TooMany) => Ok(Err(10)),
        Err(HeaderEnd::OutOfMemory) => Err(AllocError),
    }
}

/// What a list becomes by a serialised form: the list of its pairs, or the status of the refusal. No pair is copied before the whole form
/// was judged to be one.
pub(crate) fn set(
    alloc: Global,
    list: &HeaderList,
    bytes: &[u8],
) -> Result<Result<HeaderList, u32>, OutOfMemory>
    requires { length bytes.now ≤ byte_limit }
    ensures { IfOk result (λ r. r ≡ set_from bytes.now list.now) }
{
    match Serialised::of(bytes) {
        None => Ok(Err(4)),
        Some(form) => list_from(alloc, list.kind(), &form),
    }
}
