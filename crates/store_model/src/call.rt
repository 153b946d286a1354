// What a VM may ask of the store of its name, and what it is answered.
use gate_base::{ContextId, Octets, QueueId};

/// A call on a shared store.
#[derive(Drop)]
pub enum Call {
    /// The value of a key.
    Get {
        key: Octets,
    },
    /// Sets a key: always under number 0, under another number only where the key has it.
    Set {
        key: Octets,
        value: Octets,
        number: u32,
    },
    /// The queue of a name, made where there is none. The caller's worker and this root become its registrant.
    Register {
        name: Octets,
        root: ContextId,
    },
    /// The queue of a name.
    Resolve {
        name: Octets,
    },
    /// Puts an item last into a queue, and owes its registrant a notice.
    Enqueue {
        queue: QueueId,
        item: Octets,
    },
    /// Takes the first item of a queue.
    Dequeue {
        queue: QueueId,
    },
    /// Takes the oldest notice owed to the caller's worker.
    Notice,
}

/// The answer to a call on a shared store.
#[derive(Debug, Drop)]
pub enum Reply {
    /// There is no such key, name or queue.
    Absent,
    /// The value of a key, and the number of the Set that gave it.
    Value { value: Octets, number: u32 },
    /// It is done. For a Set, the number that it drew, from 1; for an Enqueue, 0.
    Done { number: u32 },
    /// The key has another number. Nothing changed.
    CasMismatch,
    /// A limit of the store would be passed. Nothing changed.
    Full,
    /// The id of a queue.
    Id { queue: QueueId },
    /// The item that stood first.
    Item { item: Octets },
    /// The queue has no item.
    Empty,
    /// A notice: the root that registered the queue, and the queue.
    Owed { root: ContextId, queue: QueueId },
    /// No notice is owed to this worker.
    NoneOwed,
}
