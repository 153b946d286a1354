// A stream of bytes to read.
ghost use Rattle.std.specs.Prelude.{◌≡◌, ◌+◌, ◌<◌, ◌≤◌, ℕ, List, [], ◌++◌, length, take, Option, IfOk, OnErr, OnOk};
ghost use Rattle.gate_io.specs.Told.{Loses, Rose, IsAtEnd, moved};
ghost use Rattle.gate_io.specs.Took.{Took};

use crate::{Failed, FileEnd};
use gate_base::Octets;
use std::alloc::Global;

/// Most bytes that `read_whole` asks for at once.
const ROOM: usize = 16384;

/// A stream of bytes to read.
pub trait Source {
    /// The bytes that are left, where told.
    ghost left: { Self → Option (List ℕ) };

    /// A count of failures, up to 2^64 - 1: it never falls, and rises in a call that fails.
    ghost faults: { Self → ℕ };

    /// Puts bytes into the room, from its front, and answers how many: 0 for a room that is not empty only at the end.
    fn read(&mut self, room: &mut [u8]) -> Result<usize, Failed>
        ensures bound { IfOk result (λ n. n ≤ length room.new) }
        ensures taken { Loses (left self.old) (take (moved result) room.new) (left self.new) }
        ensures end { result ≡ Ok 0 → 0 < length room.new → IsAtEnd (left self.new) }
        ensures faults { faults self.old ≤ faults self.new }
        ensures failed { OnErr result (Rose (faults self.old) (faults self.new)) };
}

/// Reads to the end of the input, of which it takes at most `most` + 1 bytes, also where it has no end.
/// After a refusal the bytes that it took are gone from the source.
pub fn read_whole<S: Source>(alloc: Global, source: &mut S, most: usize) -> Result<Octets, FileEnd>
    requires { most ≤ 67108864 }
    ensures ok { IfOk result (λ bytes. Loses (S.left source.old) bytes (S.left source.new)) }
    ensures end { OnOk result (IsAtEnd (S.left source.new)) }
    ensures bound { IfOk result (λ bytes. length bytes ≤ most) }
    ensures err { OnErr result (Took (S.left source.old) (most + 1) (S.left source.new)) }
    ensures faults { S.faults source.old ≤ S.faults source.new }
    ensures failed { result ≡ Err FileEnd.Failed → Rose (S.faults source.old) (S.faults source.new) }
    ensures too_long { result ≡ Err FileEnd.TooLong → (bytes : List ℕ) × Loses (S.left source.old) bytes (S.left source.new) × (length bytes ≡ most + 1) }
{
    let mut room = [0u8; ROOM];
    let mut bytes = Octets::new(alloc);
    while bytes.len() <= most {
        let want = (most - bytes.len() + 1).min(ROOM);
        let n = source.read(&mut room[..want])?;
        if n == 0 {
            return Ok(bytes);
        }
        bytes.extend_from_slice(&room[..n])?;
    }
    Err(FileEnd::TooLong)
}
