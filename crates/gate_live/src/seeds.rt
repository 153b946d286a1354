// What the seeds of worlds are drawn from.
ghost use Rattle.std.specs.Prelude.{◌≡◌, ℕ, List, [], ◌∷◌, Option, IfOk, OnErr};
ghost use Rattle.gate_io.specs.Told.{Gains};

use gate_io::SiteEnd;
use std::random::RandomSource;

/// What the seeds of worlds are drawn from.
pub trait SeedSource {
    /// All seeds that were drawn from it so far, in order, where told.
    ghost drawn: { Self → Option (List (List ℕ)) };

    /// Draws 32 bytes.
    fn draw_seed(&mut self) -> Result<[u8; 32], SiteEnd>
        ensures drawn { IfOk result (λ seed. Gains (drawn self.old) (seed ∷ []) (drawn self.new)) }
        ensures none { OnErr result (drawn self.new ≡ drawn self.old) };
}

// The system tells nothing of its random bytes.
impl<R: RandomSource> SeedSource for R {
    ghost use Rattle.std.specs.Prelude.{None};

    ghost drawn = { λ _. None };

    fn draw_seed(&mut self) -> Result<[u8; 32], SiteEnd> {
        let mut seed = [0; 32];
        match self.fill_bytes(&mut seed) {
            Ok(()) => Ok(seed),
            Err(_) => Err(SiteEnd::Failed),
        }
    }
}
