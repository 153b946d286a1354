//! What passes the gate inside shared calls, and a thread that is held there.

use gate_base::{VmNo, WorkerNo};
use gate_io::{Gate, Point};
use std::sync::atomic::{AtomicU64, Ordering};

/// Counts the shared calls, adds up who made them, and notes where two were made at once. It may hold the first one.
#[derive(Drop)]
pub(crate) struct Watch {
    holds: bool,
    passed: AtomicU64,
    sum: AtomicU64,
    inside: AtomicU64,
    overlaps: AtomicU64,
    pub(crate) come: AtomicU64,
    pub(crate) answered: AtomicU64,
    pub(crate) fell: AtomicU64,
}

impl Watch {
    /// A gate that nobody has passed, and whether it holds the first call until eight threads have come.
    pub(crate) fn new(holds: bool) -> Self {
        Watch {
            holds,
            passed: AtomicU64::new(0),
            sum: AtomicU64::new(0),
            inside: AtomicU64::new(0),
            overlaps: AtomicU64::new(0),
            come: AtomicU64::new(0),
            answered: AtomicU64::new(0),
            fell: AtomicU64::new(0),
        }
    }

    /// How many calls passed.
    pub(crate) fn passed(&self) -> u64 {
        self.passed.load(Ordering::SeqCst)
    }

    /// The sum over all calls of 1, 100 times the worker's number, and 10,000 times the VM's number.
    pub(crate) fn sum(&self) -> u64 {
        self.sum.load(Ordering::SeqCst)
    }

    /// How many calls began while another one was inside.
    pub(crate) fn overlaps(&self) -> u64 {
        self.overlaps.load(Ordering::SeqCst)
    }

    /// Comes back once eight threads have come, and then after as long as it takes seven of them to sleep.
    fn hold(&self) {
        for _ in 0..u64::MAX {
            if self.come.load(Ordering::SeqCst) == 8 {
                break;
            }
        }
        for _ in 0..20_000_000u32 {
            self.inside.load(Ordering::SeqCst);
        }
    }

    /// Notes a shared call, which takes its time.
    fn pass(&self, worker: WorkerNo, vm: VmNo) {
        if self.inside.fetch_add(1, Ordering::SeqCst) != 0 {
            self.overlaps.fetch_add(1, Ordering::SeqCst);
        }
        for _ in 0..100u32 {
            self.inside.load(Ordering::SeqCst);
        }
        let one = 1 + 100 * u64::from(worker.get()) + 10_000 * u64::from(vm.get());
        self.sum.fetch_add(one, Ordering::SeqCst);
        if self.passed.fetch_add(1, Ordering::SeqCst) == 0 && self.holds {
            self.hold();
        }
        self.inside.fetch_sub(1, Ordering::SeqCst);
    }
}

impl Gate for Watch {
    fn at(&self, worker: WorkerNo, point: Point) {
        match point {
            Point::BeforeTurn => {}
            Point::InsideTurn(vm) => self.pass(worker, vm),
        }
    }
}
