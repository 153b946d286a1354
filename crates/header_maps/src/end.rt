// Why a field operation is refused.
ghost use Rattle.std.specs.Prelude.{◌≡◌};
ghost use Rattle.header_maps.specs.declared.end.HeaderEnd.TheVariants.{OutOfMemory};

use std::alloc::{AllocError, AllocFailed};

/// Why a field operation is refused. A name is judged before a value, and a value before the count.
#[derive(Clone, Copy, PartialEq, Eq)]
pub enum HeaderEnd {
    /// No name that the list may have, or a pseudo-header that may not be added or removed, or that is not given once.
    BadName,
    /// No value of a field, or not one of that pseudo-header.
    BadValue,
    /// There would be more than 100 fields, pseudo-headers not counted.
    TooMany,
    /// Memory ran out.
    OutOfMemory,
}

impl From<AllocError> for HeaderEnd {
    ghost from_gives = { λ _ e. e ≡ OutOfMemory };

    fn from(_: AllocError) -> Self {
        HeaderEnd::OutOfMemory
    }
}

impl<T: Drop> From<AllocFailed<T>> for HeaderEnd {
    ghost from_gives = { λ _ e. e ≡ OutOfMemory };

    fn from(_: AllocFailed<T>) -> Self {
        HeaderEnd::OutOfMemory
    }
}
