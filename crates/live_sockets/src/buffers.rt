// What the sockets of a worker are read into, and kept in.
ghost use Rattle.std.specs.Prelude.{◌≡◌, []};

use crate::calls::ALL_LINES;
use gate_base::OutOfMemory;
use live_lines::{Duplex, Lingering, MOST_LINGERING, ReadBuffer, SocketPair};
use mio::Events;
use std::alloc::Global;

/// What is read into, the events of the system and the bytes of connections, and room for all lines that are kept and all connections that linger. With it
/// no memory is asked for as a line comes or goes.
#[derive(Drop)]
pub struct Buffers<P> {
    pub events: Events,
    pub room: ReadBuffer,
    pub lines: Vec<SocketPair<P>>,
    pub lingering: Vec<Lingering<P>>,
    ghost none: { lines.items ≡ [] },
}

impl<P: Duplex> Buffers<P> {
    /// Buffers with nothing in them.
    pub fn new(alloc: Global) -> Result<Buffers<P>, OutOfMemory> {
        let events = Events::with_capacity(alloc, 256)?;
        let room = ReadBuffer::new(alloc)?;
        let lines = Vec::with_capacity(alloc, ALL_LINES)?;
        let lingering = Vec::with_capacity(alloc, MOST_LINGERING)?;
        Ok(Buffers {
            events,
            room,
            lines,
            lingering,
        })
    }
}
