// One call in the history of a store.
use crate::{Call, Reply};
use gate_base::WorkerNo;

/// A call in the history of one store: who made it, and what it was answered. Histories are spoken of in contracts; nothing stores them.
#[derive(Drop)]
pub struct Entry {
    pub who: WorkerNo,
    pub call: Call,
    pub reply: Reply,
}
