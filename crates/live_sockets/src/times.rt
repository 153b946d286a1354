// What tells the time.
ghost use Rattle.std.specs.Prelude.{IfOk};
ghost use Rattle.live_sockets.specs.declared.times.Reading.{Reading};

use gate_io::WorldEnd;
use std::io;
use std::time::{Clock, Duration};

/// What clocks tell at one time, in nanoseconds.
#[derive(Clone, Copy)]
pub struct Reading {
    /// The time since 1970, by the system's clock, which may be set.
    pub since: u64,
    /// The time since some moment, by a clock that never steps.
    pub passed: u64,
}

/// What tells the time.
pub trait TimeSource {
    /// What a reading of it may be, where that is told.
    ghost tells: { Self → Reading → Type 0 };

    /// Reads its clocks. Failed where they tell no time.
    fn read_time(&self) -> Result<Reading, WorldEnd>
        ensures { IfOk result (tells self.now) };
}

/// So many nanoseconds, or the most that there can be.
fn nanos(time: io::Result<Duration>) -> Result<u64, WorldEnd> {
    match time {
        Ok(time) => Ok(u64::try_from(time.as_nanos()).unwrap_or(u64::MAX)),
        Err(_) => Err(WorldEnd::Failed),
    }
}

// Of the system's clocks nothing is told.
impl<R: Clock> TimeSource for R {
    ghost tells = { λ _ _. Unit {0} };

    fn read_time(&self) -> Result<Reading, WorldEnd> {
        let since = nanos(self.since_1970())?;
        let passed = nanos(self.monotonic())?;
        Ok(Reading { since, passed })
    }
}
