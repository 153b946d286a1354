//! The points that the workers passed, and a worker that is held at one.

use crate::told::tell_number;
use gate_base::{OutOfMemory, VmNo, WorkerNo};
use gate_io::{Gate, Point};
use std::alloc::Global;
use std::sync::atomic::{AtomicU64, Ordering};

/// How often a worker that is held looks whether it may go on: for ten seconds and more, so that a busy machine does not let it go too early.
const LOOKS: u64 = 10_000_000_000;

/// What a gate holds.
#[derive(Clone, Copy, PartialEq, Eq)]
enum Held {
    /// Nobody.
    Nobody,
    /// Worker 1 before its second turn, until worker 2 is before its third.
    Turn,
    /// The first shared call on the first VM, until there were two on others.
    Call,
}

/// Counts the turns of each of workers 1 to 4, the shared calls on the first VM and on others, and how many of these were made before each turn, all
/// together; and may hold a worker.
#[derive(Drop)]
pub struct Watch {
    first: AtomicU64,
    second: AtomicU64,
    third: AtomicU64,
    fourth: AtomicU64,
    calls: AtomicU64,
    others: AtomicU64,
    seen: AtomicU64,
    given_up: AtomicU64,
    held: Held,
    tells_calls: bool,
    tells_seen: bool,
}

impl Watch {
    /// A gate that nobody has passed. It holds a turn for the word `turn`, a call for `call`, and else nobody. For `load` it tells no calls: how
    /// often workers ask a store for notices is left to their threads. For `seen` it tells how many calls were made before each turn, all together.
    pub fn new(word: &str) -> Self {
        Watch {
            first: AtomicU64::new(0),
            second: AtomicU64::new(0),
            third: AtomicU64::new(0),
            fourth: AtomicU64::new(0),
            calls: AtomicU64::new(0),
            others: AtomicU64::new(0),
            seen: AtomicU64::new(0),
            given_up: AtomicU64::new(0),
            held: match word {
                "turn" => Held::Turn,
                "call" => Held::Call,
                _ => Held::Nobody,
            },
            tells_calls: !matches!(word, "load"),
            tells_seen: matches!(word, "seen"),
        }
    }

    /// Comes back once a count has come so far, or after so many looks.
    fn hold(&self, count: &AtomicU64, least: u64) {
        for _ in 0..LOOKS {
            if count.load(Ordering::SeqCst) >= least {
                return;
            }
        }
        self.given_up.store(1, Ordering::SeqCst);
    }

    /// Adds the calls that were made so far to those that were seen.
    fn see(&self) {
        self.seen
            .fetch_add(self.calls.load(Ordering::SeqCst), Ordering::SeqCst);
        self.seen
            .fetch_add(self.others.load(Ordering::SeqCst), Ordering::SeqCst);
    }

    /// Notes a turn of a worker.
    fn turn(&self, worker: WorkerNo) {
        match worker.get() {
            1 => {
                let before = self.first.fetch_add(1, Ordering::SeqCst);
                if self.held == Held::Turn && before == 1 {
                    self.hold(&self.second, 3);
                }
            }
            2 => {
                self.second.fetch_add(1, Ordering::SeqCst);
            }
            3 => {
                self.third.fetch_add(1, Ordering::SeqCst);
            }
            4 => {
                self.fourth.fetch_add(1, Ordering::SeqCst);
            }
            _ => {}
        }
    }

    /// Notes a shared call on a VM.
    fn call(&self, vm: VmNo) {
        if vm.get() > 0 {
            self.others.fetch_add(1, Ordering::SeqCst);
            return;
        }
        let before = self.calls.fetch_add(1, Ordering::SeqCst);
        if self.held == Held::Call && before == 0 {
            self.hold(&self.others, 2);
        }
    }

    /// Puts how many turns each of the workers 1 to 4 made at the end of a text.
    fn tell_turns(&self, alloc: Global, told: &mut String) -> Result<(), OutOfMemory> {
        told.push_str("turns ")?;
        tell_number(alloc, told, self.first.load(Ordering::SeqCst))?;
        told.push_str(" ")?;
        tell_number(alloc, told, self.second.load(Ordering::SeqCst))?;
        told.push_str(" ")?;
        tell_number(alloc, told, self.third.load(Ordering::SeqCst))?;
        told.push_str(" ")?;
        tell_number(alloc, told, self.fourth.load(Ordering::SeqCst))
    }

    /// Puts how many shared calls there were on the first VM and on others at the end of a text.
    fn tell_calls(&self, alloc: Global, told: &mut String) -> Result<(), OutOfMemory> {
        told.push_str(", calls ")?;
        tell_number(alloc, told, self.calls.load(Ordering::SeqCst))?;
        told.push_str(" and ")?;
        tell_number(alloc, told, self.others.load(Ordering::SeqCst))
    }

    /// Puts how many calls were made before each turn, all together, at the end of a text.
    fn tell_seen(&self, alloc: Global, told: &mut String) -> Result<(), OutOfMemory> {
        told.push_str(", seen ")?;
        tell_number(alloc, told, self.seen.load(Ordering::SeqCst))
    }

    /// Puts how many turns and shared calls there were, and whether a worker that was held was not let go, at the end of a text.
    pub fn tell(&self, alloc: Global, told: &mut String) -> Result<(), OutOfMemory> {
        self.tell_turns(alloc, told)?;
        if self.tells_calls {
            self.tell_calls(alloc, told)?;
        }
        told.push_str(", given up ")?;
        tell_number(alloc, told, self.given_up.load(Ordering::SeqCst))?;
        if self.tells_seen {
            self.tell_seen(alloc, told)?;
        }
        Ok(())
    }
}

impl Gate for Watch {
    fn at(&self, worker: WorkerNo, point: Point) {
        match point {
            Point::BeforeTurn => {
                self.see();
                self.turn(worker);
            }
            Point::InsideTurn(vm) => self.call(vm),
        }
    }
}
