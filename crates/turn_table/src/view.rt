// What a seat knows. Contracts speak of it; no value of it is made.
use std::collections::LinkedList;
use store_model::Entry;

/// A seat that was joined into another: its worker's number, and what it had seen.
pub struct Ended {
    pub number: u64,
    pub seen: LinkedList<Entry>,
}

/// What a seat knows of its table. The number 0 is that of a spent seat, which was joined into another.
pub struct View {
    /// The number of the VM whose value the table has.
    pub vm: u64,
    /// The worker's number.
    pub number: u64,
    /// Whether it has the turn.
    pub holds: bool,
    /// The beginning of the history that it has seen.
    pub seen: LinkedList<Entry>,
    /// What it had seen before the last seat was joined into it, or at its own last call.
    pub before: LinkedList<Entry>,
    /// How many numbers were given out, 1 included. It counts in the view of number 1 alone.
    pub given: u64,
    /// The seats that were joined into it. It counts in the view of number 1 alone.
    pub ended: LinkedList<Ended>,
}
