// With what the outside of all workers is started.
ghost use Rattle.std.specs.Prelude.{◌≡◌, IfOk};
ghost use Rattle.gate_io.specs.declared.settings.SiteEnd.TheVariants.{OutOfMemory};

use gate_base::{OutOfMemory, Text};
use std::alloc::{AllocError, AllocFailed, Global};

/// With what a site is started.
#[derive(Drop)]
pub struct Settings {
    /// The address that clients reach.
    pub listen: Text,
    /// The address of the upstream server.
    pub upstream: Text,
    /// How many workers there are.
    pub workers: u8,
    /// How many lines are accepted, where there is a bound.
    pub stop_after: Option<u32>,
}

impl Settings {
    /// A copy.
    pub fn copy(&self, alloc: Global) -> Result<Self, OutOfMemory>
        ensures { IfOk result (λ copy. copy ≡ self.now) }
    {
        Ok(Settings {
            listen: self.listen.copy(alloc)?,
            upstream: self.upstream.copy(alloc)?,
            workers: self.workers,
            stop_after: self.stop_after,
        })
    }
}

/// Why a site was not started.
#[derive(Clone, Copy, PartialEq, Eq)]
pub enum SiteEnd {
    /// The site failed: the count of faults rose.
    Failed,
    /// Memory ran out.
    OutOfMemory,
}

impl From<AllocError> for SiteEnd {
    ghost from_gives = { λ _ e. e ≡ OutOfMemory };

    fn from(_: AllocError) -> Self {
        SiteEnd::OutOfMemory
    }
}

impl<T: Drop> From<AllocFailed<T>> for SiteEnd {
    ghost from_gives = { λ _ e. e ≡ OutOfMemory };

    fn from(_: AllocFailed<T>) -> Self {
        SiteEnd::OutOfMemory
    }
}
