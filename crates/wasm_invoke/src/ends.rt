//! How an invocation ends.

ghost use Rattle.std.specs.Prelude.{◌≡◌};

use gate_base::{Cause, OutOfMemory};
use wasm_reader::ReadEnd;
use wasm_store::LinkEnd;
use wasm_syntax::Value;
use wasm_validator::ValidEnd;

/// Why a module, or its call, was refused: the first of these that stands, in this order.
#[derive(Clone, Copy)]
pub enum Refusal {
    /// The bytes spell no module: the row of the first fault, from 1 on, and its place.
    Unread { number: u8, place: usize },
    /// The module is not valid.
    Invalid,
    /// It cannot be linked without a host.
    Unlinked(LinkEnd),
    /// It exports no function of that name.
    NoExport,
    /// The words are no arguments of the function.
    Arguments,
}

/// Why there is no result.
#[derive(Clone, Copy)]
pub enum End {
    /// Nothing was run.
    Refused(Refusal),
    /// The start function or the exported one trapped.
    Trapped(Cause),
    /// One of them needed a unit of fuel that was not there.
    FuelSpent,
    /// Memory ran out.
    OutOfMemory,
}

/// The result of the function, where it gives one, and the units of fuel that it used.
#[derive(Clone, Copy)]
pub struct Invoked {
    pub result: Option<Value>,
    pub used: u64,
}

impl From<OutOfMemory> for End {
    ghost use Rattle.wasm_invoke.specs.declared.ends.End.TheVariants as ends;

    ghost from_gives = { λ _ e. e ≡ ends.OutOfMemory };

    fn from(_end: OutOfMemory) -> End {
        End::OutOfMemory
    }
}

impl From<ReadEnd> for End {
    ghost use Rattle.wasm_invoke.specs.Ends.{of_reader};

    ghost from_gives = { λ end e. e ≡ of_reader end };

    fn from(end: ReadEnd) -> End {
        match end {
            ReadEnd::Refused { number, place } => End::Refused(Refusal::Unread { number, place }),
            ReadEnd::OutOfMemory => End::OutOfMemory,
        }
    }
}

impl From<ValidEnd> for End {
    ghost use Rattle.wasm_invoke.specs.Ends.{of_validator};

    ghost from_gives = { λ end e. e ≡ of_validator end };

    fn from(end: ValidEnd) -> End {
        match end {
            ValidEnd::Invalid { .. } => End::Refused(Refusal::Invalid),
            ValidEnd::OutOfMemory => End::OutOfMemory,
        }
    }
}

impl From<LinkEnd> for End {
    ghost use Rattle.wasm_invoke.specs.Ends.{of_linking};

    ghost from_gives = { λ end e. e ≡ of_linking end };

    fn from(end: LinkEnd) -> End {
        match end {
            LinkEnd::OutOfMemory => End::OutOfMemory,
            LinkEnd::UnknownImport { .. }
            | LinkEnd::ImportType { .. }
            | LinkEnd::PagesOverCap
            | LinkEnd::ElementOutside { .. }
            | LinkEnd::DataOutside { .. } => End::Refused(Refusal::Unlinked(end)),
        }
    }
}
