// The moments of events.
ghost use Rattle.std.specs.Prelude.{◌≡◌, ◌≤◌, IfOk};
ghost use Rattle.live_sockets.specs.Moments.{GoesOn};
ghost use Rattle.live_sockets.specs.Times.{Reads};

use crate::times::TimeSource;
use gate_io::WorldEnd;

/// Nanoseconds of an hour.
const HOUR: u64 = 3_600_000_000_000;

/// The clock of events: that of the system, but no step of it is taken at once that is shorter than an hour or goes back. This one goes on at half or at
/// twice the pace of the time that passes, by the system's clock that never steps, until it is right again: so what is due comes at most so much earlier or later.
#[derive(Drop)]
pub struct Moments {
    /// The last moment, in nanoseconds since 1970.
    pub last: u64,
    /// How much time the system had counted then, in nanoseconds.
    passed: u64,
}

/// The moment after the last one, where so much time has passed and the system's clock tells this.
fn next_moment(last: u64, went: u64, since: u64) -> u64
    ensures { GoesOn last went since result }
{
    let low = last.saturating_add(went / 2);
    let high = last.saturating_add(went).saturating_add(went);
    if since > high.saturating_add(HOUR) {
        since
    } else {
        since.min(high).max(low)
    }
}

impl Moments {
    /// A clock that was not asked yet.
    pub fn new() -> Self {
        Moments { last: 0, passed: 0 }
    }

    /// The moment, in nanoseconds since 1970: the clocks are read, and it goes on by what they tell. It never falls. Failed where they tell no time.
    #[tactic(auto, using(crate::proofs::Readings::reads_on))]
    pub fn now<R: TimeSource>(&mut self, rt: &R) -> Result<u64, WorldEnd>
        ensures rises { IfOk result (λ now. self.old.last ≤ now) }
        ensures last { IfOk result (λ now. now ≡ self.new.last) }
        ensures told { IfOk result (λ now. Reads (R.tells rt.now) self.old now self.new) }
    {
        let reading = rt.read_time()?;
        let went = reading.passed.saturating_sub(self.passed);
        self.last = next_moment(self.last, went, reading.since);
        self.passed = reading.passed;
        Ok(self.last)
    }
}
