//! How reading ends, and what bounds its items.

ghost use Rattle.std.specs.Prelude.{◌≡◌};
ghost use Rattle.wasm_reader.specs.declared.ends.ReadEnd.TheVariants.{OutOfMemory};

use std::alloc::{AllocError, AllocFailed};

/// Why bytes could not be read as a module.
#[derive(Clone, Copy)]
pub enum ReadEnd {
    /// The first fault in reading order, by its row of the table, and its place.
    Refused { number: u8, place: usize },
    /// There was no memory for the module.
    OutOfMemory,
}

/// Where the section or body that is being read ends, and where its size stands.
#[derive(Clone, Copy)]
pub(crate) enum Bounds {
    /// Its end is in the input.
    Ends { end: usize, size: usize },
    /// Its end passes the input's.
    Passes { size: usize },
}

impl From<AllocError> for ReadEnd {
    ghost from_gives = { λ _ e. e ≡ OutOfMemory };

    fn from(_e: AllocError) -> ReadEnd {
        ReadEnd::OutOfMemory
    }
}

impl<T: Drop> From<AllocFailed<T>> for ReadEnd {
    ghost from_gives = { λ _ e. e ≡ OutOfMemory };

    fn from(_e: AllocFailed<T>) -> ReadEnd {
        ReadEnd::OutOfMemory
    }
}
