// Why bytes are not put into a body.
ghost use Rattle.std.specs.Prelude.{◌≡◌};
ghost use Rattle.body_buffers.specs.declared.end.BodyEnd.TheVariants.{OutOfMemory};

use std::alloc::AllocError;

/// Why bytes are not put into a body, which then is as it was.
#[derive(Clone, Copy, PartialEq, Eq)]
pub enum BodyEnd {
    /// The body would have more than 1,048,576 bytes.
    OverLimit,
    /// Memory ran out.
    OutOfMemory,
}

impl From<AllocError> for BodyEnd {
    ghost from_gives = { λ _ e. e ≡ OutOfMemory };

    fn from(_: AllocError) -> Self {
        BodyEnd::OutOfMemory
    }
}
