// A source over a file or a stream of the system.
ghost use Rattle.std.specs.Prelude.{◌≤◌, length, IfOk};

use crate::{Failed, Source};
use std::io::{ErrorKind, Read};

/// A source over a reader of the system. It tells nothing of content.
#[derive(Drop)]
pub struct HostSource<R, T> {
    rt: R,
    stream: T,
    faults: u64,
}

impl<R, T> HostSource<R, T> {
    /// Reads this stream, by this handle of the runtime.
    pub fn new(rt: R, stream: T) -> Self {
        HostSource {
            rt,
            stream,
            faults: 0,
        }
    }
}

impl<R, T: Read> Source for HostSource<R, T> {
    ghost use Rattle.std.specs.Prelude.{None};

    ghost left = { λ _. None };

    ghost faults = { λ s. s.faults };

    fn read(&mut self, room: &mut [u8]) -> Result<usize, Failed> {
        let answer = read_some(&mut self.stream, room);
        if answer.is_err() {
            self.faults = self.faults.saturating_add(1);
        }
        answer
    }
}

/// One read, tried again where a signal interrupts it.
fn read_some<T: Read>(stream: &mut T, room: &mut [u8]) -> Result<usize, Failed>
    ensures { IfOk result (λ n. n ≤ length room.new) }
{
    for _ in 0..u64::MAX {
        match stream.read(room) {
            Ok(n) => return Ok(n),
            Err(e) if e.kind() == ErrorKind::Interrupted => {}
            Err(_) => break,
        }
    }
    Err(Failed)
}
