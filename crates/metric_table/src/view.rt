// What a seat knows. Contracts speak of it; no value of it is made.
use std::collections::LinkedList;

/// A look at a word: its place, and the value that was read there.
pub struct Look {
    pub place: u64,
    pub value: u64,
}

/// A seat that was joined into another: its worker's number, and the own values that it had.
pub struct Ended {
    pub number: u64,
    pub own: LinkedList<u64>,
}

/// What a seat knows of its words. The number 0 is that of a spent seat, which was joined into another.
pub struct View {
    /// The worker's number.
    pub number: u64,
    /// The values of its own words, by their columns.
    pub own: LinkedList<u64>,
    /// What it looked at, in order.
    pub looks: LinkedList<Look>,
    /// How many numbers were given out, 1 included. It counts in the view of number 1 alone.
    pub given: u64,
    /// The seats that were joined into it. It counts in the view of number 1 alone.
    pub ended: LinkedList<Ended>,
}
