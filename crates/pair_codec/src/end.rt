// Why bytes are no pairs.
ghost use Rattle.std.specs.Prelude.{◌≡◌};
ghost use Rattle.pair_codec.specs.declared.end.PairsEnd.TheVariants.{OutOfMemory};

use std::alloc::AllocError;

/// Why bytes were not read as pairs.
#[derive(Clone, Copy, PartialEq, Eq)]
pub enum PairsEnd {
    /// They are neither empty nor the serialised form of any pairs.
    NotPairs,
    /// Memory ran out.
    OutOfMemory,
}

impl From<AllocError> for PairsEnd {
    ghost from_gives = { λ _ e. e ≡ OutOfMemory };

    fn from(_: AllocError) -> Self {
        PairsEnd::OutOfMemory
    }
}
