//! How a run of a VM ends.

use gate_base::Cause;

/// How the last run of a VM ended.
#[derive(Clone, Copy)]
pub enum LastRunEnd {
    /// It returned, with a number where its function gives one. What is not exported returns nothing.
    Returned { value: Option<u32> },
    /// It trapped, and the VM is no more.
    Trapped { cause: Cause },
    /// It spent its fuel, and the VM is no more.
    FuelSpent,
}
