// How a call of the outside ends where it gives nothing.
ghost use Rattle.std.specs.Prelude.{◌≡◌};
ghost use Rattle.gate_io.specs.declared.ends.FileEnd.TheVariants.{Failed as FailedRead, OutOfMemory};
ghost use Rattle.gate_io.specs.declared.ends.WorldEnd.TheVariants.{OutOfMemory as WorldOutOfMemory};

use std::alloc::{AllocError, AllocFailed};

/// A read, a write or another call of the outside failed. The object's count of faults rose.
#[derive(Clone, Copy, PartialEq, Eq)]
pub struct Failed;

/// Why a file was not read.
#[derive(Clone, Copy, PartialEq, Eq)]
pub enum FileEnd {
    /// The read failed: the count of faults rose.
    Failed,
    /// There are more bytes than the caller takes.
    TooLong,
    /// Memory ran out.
    OutOfMemory,
}

/// Why a world gave no event.
#[derive(Clone, Copy, PartialEq, Eq)]
pub enum WorldEnd {
    /// The world failed: the count of faults rose.
    Failed,
    /// Memory ran out.
    OutOfMemory,
}

impl From<Failed> for FileEnd {
    ghost from_gives = { λ _ e. e ≡ FailedRead };

    fn from(_: Failed) -> Self {
        FileEnd::Failed
    }
}

impl From<AllocError> for FileEnd {
    ghost from_gives = { λ _ e. e ≡ OutOfMemory };

    fn from(_: AllocError) -> Self {
        FileEnd::OutOfMemory
    }
}

impl<T: Drop> From<AllocFailed<T>> for FileEnd {
    ghost from_gives = { λ _ e. e ≡ OutOfMemory };

    fn from(_: AllocFailed<T>) -> Self {
        FileEnd::OutOfMemory
    }
}

impl From<AllocError> for WorldEnd {
    ghost from_gives = { λ _ e. e ≡ WorldOutOfMemory };

    fn from(_: AllocError) -> Self {
        WorldEnd::OutOfMemory
    }
}

impl<T: Drop> From<AllocFailed<T>> for WorldEnd {
    ghost from_gives = { λ _ e. e ≡ WorldOutOfMemory };

    fn from(_: AllocFailed<T>) -> Self {
        WorldEnd::OutOfMemory
    }
}
