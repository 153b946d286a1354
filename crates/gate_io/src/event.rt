// What happens to a worker, and what it sends.
ghost use Rattle.std.specs.Prelude.{◌≡◌, IfOk};

use gate_base::{Level, LineNo, Octets, OutOfMemory};
use std::alloc::Global;

/// A side of a line: Down towards the client, Up towards the upstream server.
#[derive(Clone, Copy, PartialEq, Eq)]
pub enum Side {
    Down,
    Up,
}

/// What happened, at a moment in nanoseconds since 1970-01-01 00:00:00 UTC.
#[derive(Drop)]
pub struct Event {
    pub now: u64,
    pub what: What,
}

/// The kinds of event.
#[derive(Drop)]
pub enum What {
    /// A client's connection was opened.
    Opened {
        line: LineNo,
    },
    /// Bytes came, 1 to 16,384 of them.
    Bytes {
        line: LineNo,
        side: Side,
        bytes: Octets,
    },
    /// The peer sends nothing more.
    End {
        line: LineNo,
        side: Side,
    },
    /// The connection is gone, in both directions.
    Gone {
        line: LineNo,
        side: Side,
    },
    /// The upstream connection stands.
    Joined {
        line: LineNo,
    },
    /// The upstream connection was refused.
    Refused {
        line: LineNo,
    },
    /// There is room to send again.
    Room {
        line: LineNo,
        side: Side,
    },
    /// Time passed.
    Clock,
    /// Nothing more comes.
    Stop,
}

impl Event {
    /// A copy.
    pub fn copy(&self, alloc: Global) -> Result<Self, OutOfMemory>
        ensures { IfOk result (λ event. event ≡ self.entry.now) }
    {
        Ok(Event {
            now: self.now,
            what: self.what.copy(alloc)?,
        })
    }
}

impl What {
    /// A copy.
    pub fn copy(&self, alloc: Global) -> Result<Self, OutOfMemory>
        ensures { IfOk result (λ what. what ≡ self.now) }
    {
        Ok(match self {
            What::Opened { line } => What::Opened { line: *line },
            What::Bytes { line, side, bytes } => What::Bytes {
                line: *line,
                side: *side,
                bytes: bytes.copy(alloc)?,
            },
            What::End { line, side } => What::End {
                line: *line,
                side: *side,
            },
            What::Gone { line, side } => What::Gone {
                line: *line,
                side: *side,
            },
            What::Joined { line } => What::Joined { line: *line },
            What::Refused { line } => What::Refused { line: *line },
            What::Room { line, side } => What::Room {
                line: *line,
                side: *side,
            },
            What::Clock => What::Clock,
            What::Stop => What::Stop,
        })
    }
}

/// What a worker sends.
#[derive(Drop)]
pub enum Sent {
    /// Open the upstream connection of a line.
    Connect {
        line: LineNo,
    },
    /// Bytes for a peer.
    Bytes {
        line: LineNo,
        side: Side,
        bytes: Octets,
    },
    /// Close a connection.
    Close {
        line: LineNo,
        side: Side,
    },
    /// A line for the log.
    Log {
        level: Level,
        text: Octets,
    },
}
