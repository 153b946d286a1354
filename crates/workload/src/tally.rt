// What was received, counted.
ghost use Rattle.std.specs.Prelude.{◌≡◌, []};
ghost use Rattle.workload.specs.Tallies.{sum_of, tally_of, with_sent};

use gate_io::{Sent, Side};

/// Counts of what worlds received, each modulo 2^64.
#[derive(Clone, Copy, PartialEq, Eq)]
pub struct Tally {
    /// The connections that were to be made, one for each request that is sent up.
    pub connects: u64,
    /// The bytes for the upstream server.
    pub up: u64,
    /// The bytes for the client.
    pub down: u64,
}

impl Tally {
    /// Counts of nothing.
    pub fn new() -> Tally
        ensures { result ≡ tally_of [] }
    {
        Tally {
            connects: 0,
            up: 0,
            down: 0,
        }
    }

    /// The counts of both.
    pub fn plus(self, other: Tally) -> Tally
        ensures { result ≡ sum_of self other }
    {
        Tally {
            connects: self.connects.wrapping_add(other.connects),
            up: self.up.wrapping_add(other.up),
            down: self.down.wrapping_add(other.down),
        }
    }

    /// The counts with one more thing that was received.
    fn with(self, sent: &Sent) -> Tally
        ensures { result ≡ with_sent self sent.now }
    {
        match sent {
            Sent::Connect { .. } => Tally {
                connects: self.connects.wrapping_add(1),
                ..self
            },
            Sent::Bytes {
                side: Side::Up,
                bytes,
                ..
            } => Tally {
                up: self.up.wrapping_add(bytes.len() as u64),
                ..self
            },
            Sent::Bytes {
                side: Side::Down,
                bytes,
                ..
            } => Tally {
                down: self.down.wrapping_add(bytes.len() as u64),
                ..self
            },
            Sent::Close { .. } | Sent::Log { .. } => self,
        }
    }
}

/// Counts what was received. It takes no memory.
pub fn count(received: &[Sent]) -> Tally
    ensures { result ≡ tally_of received.now }
{
    let mut tally = Tally::new();
    for sent in received {
        tally = tally.with(sent);
    }
    tally
}
