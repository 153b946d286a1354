// What passes between a world and its worker.
ghost use Rattle.std.specs.Prelude.{◌≡◌, IfOk};

use crate::{Event, Sent, Side};
use gate_base::{LineList, LineNo, Members, OutOfMemory};
use std::alloc::Global;

/// What a worker waits for, as it asks for the next event.
#[derive(Drop)]
pub struct Wants {
    /// The lines of which it takes bytes from the client.
    pub down: LineList,
    /// The lines of which it takes bytes from the upstream server.
    pub up: LineList,
    /// The moment at which it wants to be called at the latest.
    pub due: Option<u64>,
}

impl Wants {
    /// A copy.
    pub fn copy(&self, alloc: Global) -> Result<Self, OutOfMemory>
        ensures { IfOk result (λ wants. wants ≡ self.now) }
    {
        Ok(Wants {
            down: copy_lines(alloc, &self.down)?,
            up: copy_lines(alloc, &self.up)?,
            due: self.due,
        })
    }
}

/// A copy of a list of lines.
fn copy_lines(alloc: Global, lines: &LineList) -> Result<LineList, OutOfMemory>
    ensures { IfOk result (λ copy. copy ≡ lines.now) }
{
    let mut copy = Members::new(alloc);
    for line in lines.as_slice() {
        copy.push(*line)?;
    }
    Ok(copy)
}

/// One thing that passed between a world and its worker.
#[derive(Drop)]
pub enum Passed {
    /// The worker asked for an event.
    Asked { wants: Wants },
    /// The world gave one.
    Gave { event: Event },
    /// The world took something.
    Took { sent: Sent },
    /// The world took less than the piece that it was sent.
    Short { line: LineNo, side: Side },
}
