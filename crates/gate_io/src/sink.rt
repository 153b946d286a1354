// A stream of bytes to write.
ghost use Rattle.std.specs.Prelude.{◌≡◌, ◌≤◌, ℕ, List, [], length, take, Option, IfOk, OnOk, OnErr};
ghost use Rattle.gate_io.specs.Told.{Gains, GainsFront, Rose, moved};

use crate::Failed;

/// A stream of bytes to write.
pub trait Sink {
    /// The bytes that it took, where told.
    ghost taken: { Self → Option (List ℕ) };

    /// A count of failures, up to 2^64 - 1: it never falls, and rises in a call that fails.
    ghost faults: { Self → ℕ };

    /// Takes bytes from the front of the piece, and answers how many: at least one of a piece that is not empty.
    fn write(&mut self, piece: &[u8]) -> Result<usize, Failed>
        ensures bound { IfOk result (λ n. n ≤ length piece.now) }
        ensures some { result ≡ Ok 0 → piece.now ≡ [] }
        ensures taken { Gains (taken self.old) (take (moved result) piece.now) (taken self.new) }
        ensures faults { faults self.old ≤ faults self.new }
        ensures failed { OnErr result (Rose (faults self.old) (faults self.new)) };
}

/// Writes all of the bytes. After a refusal the sink took a front of them.
pub fn write_whole<O: Sink>(sink: &mut O, bytes: &[u8]) -> Result<(), Failed>
    ensures ok { OnOk result (Gains (O.taken sink.old) bytes.now (O.taken sink.new)) }
    ensures err { OnErr result (GainsFront (O.taken sink.old) bytes.now (O.taken sink.new)) }
    ensures faults { O.faults sink.old ≤ O.faults sink.new }
    ensures failed { OnErr result (Rose (O.faults sink.old) (O.faults sink.new)) }
{
    let mut at = 0;
    while at < bytes.len() {
        at += sink.write(&bytes[at..])?;
    }
    Ok(())
}
