// Files that are read whole.
ghost use Rattle.std.specs.Prelude.{◌≡◌, ◌≤◌, ℕ, List, length, Option, IfOk};
ghost use Rattle.gate_io.specs.Told.{Gains, Rose};
ghost use Rattle.gate_io.specs.Paths.{ReadsTold, noted};

use crate::FileEnd;
use gate_base::Octets;
use std::alloc::Global;

/// Files that are read whole, by their paths. The path `-` is standard input.
pub trait Files {
    /// The files that there are, as paths with their bytes, where told. The first of a path counts.
    ghost holds: { Self → Option (List (List ℕ × List ℕ)) };

    /// The paths that `read` was given, where told.
    ghost paths: { Self → Option (List (List ℕ)) };

    /// A count of failures, up to 2^64 - 1: it never falls, and rises in a call that answers Failed.
    ghost faults: { Self → ℕ };

    /// The bytes of a file of at most `most` bytes, 67,108,864 at the most.
    fn read(&mut self, alloc: Global, path: &str, most: usize) -> Result<Octets, FileEnd>
        requires { most ≤ 67108864 }
        ensures holds { holds self.new ≡ holds self.old }
        ensures paths { Gains (paths self.old) (noted path.now result) (paths self.new) }
        ensures bound { IfOk result (λ bytes. length bytes ≤ most) }
        ensures content { ReadsTold (holds self.old) path.now most result }
        ensures faults { faults self.old ≤ faults self.new }
        ensures failed { result ≡ Err FileEnd.Failed → Rose (faults self.old) (faults self.new) };
}
