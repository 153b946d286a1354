// What the workers of a site tell each other.
use std::sync::atomic::{AtomicU64, Ordering};

/// It began a life, and did not ask for events in it.
const BEGINS: u64 = 0;

/// It asks for events.
const ASKS: u64 = 1;

/// No line comes any more.
const ENDED: u64 = 2;

/// How far the worker that accepts is, as the others see it.
#[derive(Drop)]
pub struct AcceptState {
    state: AtomicU64,
    lives: Lives,
}

/// The lives of a worker: it begins anew where memory ran out.
#[derive(Drop)]
struct Lives {
    /// How many it began of which nothing was told.
    begun: AtomicU64,
    /// Not 0 once the first was begun.
    first: AtomicU64,
}

impl Lives {
    /// It began none.
    fn new() -> Lives {
        Lives {
            begun: AtomicU64::new(0),
            first: AtomicU64::new(0),
        }
    }

    /// It begins one.
    fn begin(&self) {
        if self.first.swap(1, Ordering::SeqCst) != 0 {
            let _ = self.begun.fetch_add(1, Ordering::SeqCst);
        }
    }

    /// How many it began after the first, since that was asked.
    fn further(&self) -> u32 {
        if self.begun.load(Ordering::SeqCst) == 0 {
            return 0;
        }
        u32::try_from(self.begun.swap(0, Ordering::SeqCst)).unwrap_or(u32::MAX)
    }
}

impl AcceptState {
    /// It did not ask for an event yet.
    pub fn new() -> AcceptState {
        AcceptState {
            state: AtomicU64::new(BEGINS),
            lives: Lives::new(),
        }
    }

    /// It begins a life.
    pub fn begin(&self) {
        self.lives.begin();
        let _ = self
            .state
            .compare_exchange(ASKS, BEGINS, Ordering::SeqCst, Ordering::SeqCst);
    }

    /// It asks for an event. False says that no line comes any more.
    pub fn ask(&self) -> bool {
        let state = self.state.load(Ordering::SeqCst);
        if state == BEGINS {
            let _ = self
                .state
                .compare_exchange(BEGINS, ASKS, Ordering::SeqCst, Ordering::SeqCst);
        }
        state != ENDED
    }

    /// How many lives it began after its first, since that was asked.
    pub fn further_lives(&self) -> u32 {
        self.lives.further()
    }

    /// Whether it began a life and did not ask for an event in it.
    pub fn is_beginning(&self) -> bool {
        self.state.load(Ordering::SeqCst) == BEGINS
    }

    /// No line comes any more.
    pub fn end(&self) {
        self.state.store(ENDED, Ordering::SeqCst);
    }

    /// Whether no line comes any more.
    pub fn has_ended(&self) -> bool {
        self.state.load(Ordering::SeqCst) == ENDED
    }
}

/// What a worker to which lines are handed over tells the one that accepts.
#[derive(Drop)]
pub struct Desk {
    state: AtomicU64,
    over: AtomicU64,
    lives: Lives,
}

impl Desk {
    /// It did not ask for an event yet, and took no line.
    pub fn new() -> Desk {
        Desk {
            state: AtomicU64::new(BEGINS),
            over: AtomicU64::new(0),
            lives: Lives::new(),
        }
    }

    /// It begins a life.
    pub fn begin(&self) {
        self.lives.begin();
        self.state.store(BEGINS, Ordering::SeqCst);
    }

    /// It asks for an event.
    pub fn ask(&self) {
        if !self.asks() {
            self.state.store(ASKS, Ordering::SeqCst);
        }
    }

    /// Whether it asked for an event in its life.
    pub fn asks(&self) -> bool {
        self.state.load(Ordering::SeqCst) == ASKS
    }

    /// How many lives it began after its first, since that was asked.
    pub fn further_lives(&self) -> u32 {
        self.lives.further()
    }

    /// So many of the lines that were handed over to it are over.
    pub fn note_over(&self, over: u64) {
        if self.over() != over {
            self.over.store(over, Ordering::SeqCst);
        }
    }

    /// How many of the lines that were handed over to it are over.
    pub fn over(&self) -> u64 {
        self.over.load(Ordering::SeqCst)
    }
}
