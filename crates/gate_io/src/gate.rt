// Where a worker may be held.
use gate_base::{VmNo, WorkerNo};

/// A point that a worker passes.
#[derive(Clone, Copy, PartialEq, Eq)]
pub enum Point {
    /// Before one of its turns.
    BeforeTurn,
    /// Inside a shared call on the store of this VM, while the turn of that store is held.
    InsideTurn(VmNo),
}

/// What is called at each point that a worker passes. A test may hold a worker there.
pub trait Gate {
    /// The worker passes the point once this returns.
    fn at(&self, worker: WorkerNo, point: Point);
}

/// The program's own gate, which holds nobody.
pub struct NoGate;

impl Gate for NoGate {
    /// Does nothing.
    fn at(&self, worker: WorkerNo, point: Point) {
        let _ = (worker, point);
    }
}
