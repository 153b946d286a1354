// When the system was asked what is ready.
ghost use Rattle.std.specs.Prelude.{◌≡◌, ◌+◌, ◌-◌, ◌<◌, ◌≤◌, ◌⊎◌, ◌↔◌, IsTrue};

/// So many events of lines are given before the system is asked what else there is.
const TURNS: u32 = 64;

/// So many nanoseconds after the last question the system is asked again, before anything else is heard: a turn of the worker may take longer than that.
const LOOK_AFTER: u64 = 500_000;

/// When the system was asked what is ready, and how much was heard since.
#[derive(Drop)]
pub struct Looks {
    /// So many events may be given before it is asked again.
    pub turns: u32,
    /// The moment at which it was asked last, in nanoseconds since 1970.
    pub asked: u64,
    /// The last moment at which the clock was read.
    pub seen: u64,
}

impl Looks {
    ghost use Rattle.live_sockets.specs.Looks.{IsOverdue, JustAsked};

    /// The system was not asked yet.
    pub fn new() -> Looks
        ensures { result.turns ≡ 0 }
    {
        Looks {
            turns: 0,
            asked: 0,
            seen: 0,
        }
    }

    /// Whether the system is to be asked before anything else is heard: enough was heard since it was asked last, or enough time went.
    pub fn is_overdue(&self) -> bool
        ensures { IsTrue result ↔ IsOverdue self.now }
    {
        self.turns == 0 || self.seen.saturating_sub(self.asked) >= LOOK_AFTER
    }

    /// It is this moment.
    pub fn see(&mut self, now: u64)
        ensures seen { self.new.seen ≡ now }
        ensures asked { self.new.asked ≡ self.old.asked }
        ensures turns { self.new.turns ≡ self.old.turns }
    {
        self.seen = now;
    }

    /// The system was asked, at this moment.
    pub fn note(&mut self, now: u64)
        ensures { JustAsked now self.new }
    {
        self.turns = TURNS;
        self.asked = now;
        self.seen = now;
    }

    /// An event of a line is given.
    pub fn take_turn(&mut self)
        ensures turns { self.new.turns ≡ self.old.turns - 1 }
        ensures asked { self.new.asked ≡ self.old.asked }
        ensures seen { self.new.seen ≡ self.old.seen }
    {
        self.turns = self.turns.saturating_sub(1);
    }

    /// The system is to be asked before anything else is heard.
    pub fn ask_next(&mut self)
        ensures { self.new ≡ record self.old { turns = 0 } }
    {
        self.turns = 0;
    }
}
