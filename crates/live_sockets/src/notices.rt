// What an operator is told of.
ghost use Rattle.std.specs.Prelude.{◌≡◌, ◌<◌};
ghost use Rattle.live_sockets.specs.Notices.{place_of};

use gate_base::Level;
use live_lines::Fault;

/// So many kinds of notices there are.
pub const KINDS: usize = 12;

/// So many nanoseconds pass between two times at which an operator is told.
const PAUSE: u64 = 1_000_000_000;

/// What happened that an operator is told of.
#[derive(Clone, Copy)]
pub enum Notice {
    /// This went wrong with a connection to the server.
    Upstream(Fault),
    /// A connection to the server could not be begun: the system has no descriptor or no port left.
    Undialled,
    /// No worker had a place for a line, which waited for a second.
    NoPlace,
    /// The system refused to hand over a line.
    NotAccepted,
    /// The worker begins anew.
    BeginsAnew,
    /// The worker that accepts began a life and never asked for events in it.
    NeverAsked,
    /// A line of the log was dropped, since standard error did not take it.
    Dropped,
    /// A client was answered 502 in the turn of something that its server sent: that was malformed or not whole, or said so itself, or a filter did.
    BadGateway,
    /// A worker to which lines are handed over began a life and never asked for events in it.
    Silent,
}

/// How often each of the notices came since an operator was told.
#[derive(Drop)]
pub struct Notices {
    counts: [u32; KINDS],
    /// The moment at which an operator was told last.
    told: u64,
}

/// The place of a kind of notice.
fn place_of(notice: Notice) -> usize
    ensures within { result < 12 }
    ensures place { result ≡ place_of notice }
{
    match notice {
        Notice::Upstream(Fault::Refused) => 0,
        Notice::Upstream(Fault::Unreachable) => 1,
        Notice::Upstream(Fault::EndedEarly) => 2,
        Notice::Upstream(Fault::BrokeOff) => 3,
        Notice::Undialled => 4,
        Notice::NoPlace => 5,
        Notice::NotAccepted => 6,
        Notice::BeginsAnew => 7,
        Notice::NeverAsked => 8,
        Notice::Dropped => 9,
        Notice::BadGateway => 10,
        Notice::Silent => 11,
    }
}

/// How the notices of each kind are told, in front of how many came.
pub const TEXTS: [&str; KINDS] = [
    "upstream refused",
    "upstream unreachable",
    "upstream ended before its answer",
    "upstream broke off in its answer",
    "upstream not dialled, no descriptor or port is left",
    "no place for a line",
    "line not accepted, the system refused it",
    "worker begins anew",
    "first worker never began, no line is accepted any more",
    "log lines dropped",
    "502 on a response of the upstream",
    "another worker never began, it gets no line",
];

/// The level of all notices.
pub const LEVEL: Level = Level::Warn;

impl Notices {
    ghost use Rattle.std.specs.Prelude.{MatchOption};
    ghost use Rattle.live_sockets.specs.Notices.{counted, none_counted};

    /// Nothing happened.
    pub fn new() -> Notices {
        Notices {
            counts: [0; KINDS],
            told: 0,
        }
    }

    /// This happened.
    pub fn note(&mut self, notice: Notice)
        ensures { self.new ≡ record self.old { counts = counted self.old.counts notice 1 } }
    {
        self.add(notice, 1);
    }

    /// This happened so often.
    pub fn add(&mut self, notice: Notice, count: u32)
        ensures { self.new ≡ record self.old { counts = counted self.old.counts notice count } }
    {
        let at = place_of(notice);
        self.counts[at] = self.counts[at].saturating_add(count);
    }

    /// Whether something is to be told.
    fn has_some(&self) -> bool {
        self.counts.iter().any(|count| *count > 0)
    }

    /// What is told at this moment: how often each kind came, once a second at most, and the last time in any case.
    pub fn take(&mut self, now: u64, is_last: bool) -> Option<[u32; KINDS]>
        ensures { MatchOption result (self.new ≡ self.old) (λ counts. (counts ≡ self.old.counts) × (self.new ≡ record { counts = none_counted; told = now })) }
    {
        let is_early = !is_last && now.saturating_sub(self.told) < PAUSE;
        if is_early || !self.has_some() {
            return None;
        }
        self.told = now;
        let counts = self.counts;
        self.counts = [0; KINDS];
        Some(counts)
    }
}
