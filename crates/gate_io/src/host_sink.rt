// A sink over a file or a stream of the system.
ghost use Rattle.std.specs.Prelude.{◌≡◌, ◌≤◌, [], length, IfOk};

use crate::{Failed, Sink};
use std::io::{ErrorKind, Write};

/// A sink over a writer of the system. It tells nothing of content.
#[derive(Drop)]
pub struct HostSink<R, T> {
    rt: R,
    stream: T,
    faults: u64,
}

impl<R, T> HostSink<R, T> {
    /// Writes to this stream, by this handle of the runtime.
    pub fn new(rt: R, stream: T) -> Self {
        HostSink {
            rt,
            stream,
            faults: 0,
        }
    }
}

impl<R, T: Write> Sink for HostSink<R, T> {
    ghost use Rattle.std.specs.Prelude.{None};

    ghost taken = { λ _. None };

    ghost faults = { λ s. s.faults };

    fn write(&mut self, piece: &[u8]) -> Result<usize, Failed> {
        let answer = write_some(&mut self.stream, piece);
        if answer.is_err() {
            self.faults = self.faults.saturating_add(1);
        }
        answer
    }
}

/// One write, tried again where a signal interrupts it. It fails where nothing is taken of a piece that is not empty.
fn write_some<T: Write>(stream: &mut T, piece: &[u8]) -> Result<usize, Failed>
    ensures bound { IfOk result (λ n. n ≤ length piece.now) }
    ensures some { result ≡ Ok 0 → piece.now ≡ [] }
{
    if piece.is_empty() {
        return Ok(0);
    }
    for _ in 0..u64::MAX {
        match stream.write(piece) {
            Ok(0) => break,
            Ok(n) => return Ok(n),
            Err(e) if e.kind() == ErrorKind::Interrupted => {}
            Err(_) => break,
        }
    }
    Err(Failed)
}
