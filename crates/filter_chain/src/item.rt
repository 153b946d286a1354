// What passes a chain, and what comes of it. The fields of heads and trailers are in the contexts.
use gate_base::Octets;
use gate_queue::Queue;

/// A part of a message.
#[derive(Drop)]
pub enum ChainItem {
    /// The head; `end` where no body follows.
    Head { end: bool },
    /// Bytes of the body; `end` where the body ends with them.
    Piece { bytes: Octets, end: bool },
    /// The trailers, which end the message.
    Trailers,
}

/// What a stage holds after a pause: nothing; the head; the bytes of its buffer; or the trailers, with the buffer's
/// bytes before them where `body` is set.
#[derive(Clone, Copy)]
pub enum Held {
    Nothing,
    Head { end: bool },
    Body { end: bool },
    Trailers { body: bool },
}

/// Which callback is asked.
#[derive(Clone, Copy)]
pub enum AskKind {
    Head,
    Piece,
    Trailers,
}

/// A callback that is to come: of the stage at a place, about an item of a kind. `count` is the number of bytes held
/// and of the piece together (0 for heads and trailers), `end` the end flag.
#[derive(Clone, Copy)]
pub struct Ask {
    pub stage: usize,
    pub kind: AskKind,
    pub count: u32,
    pub end: bool,
}

/// What comes of picking a stage.
#[derive(Clone, Copy)]
pub enum Asking {
    /// No stage may be picked.
    Nothing,
    /// The piece that waits at this stage and the bytes that it holds are too many.
    Over { stage: usize },
    Asks { ask: Ask },
}

/// What comes of passing items on.
#[derive(Drop)]
pub enum PassOutcome {
    /// They are too many for the stage to which they go; the chain is as before.
    Over,
    /// These left the chain, in order.
    Left { items: Queue<ChainItem> },
}
