//! WebAssembly modules read and written again, in the fewest bytes.
#![tactic(auto)]

ghost use Rattle.std.specs.Prelude.{◌≡◌, IfOk, IfErr};
ghost use Rattle.wasm_reader.specs.Steps.{IsFirstFault};
ghost use Rattle.wasm_shorten.specs.Shortened.{IsShortestOf};

use gate_base::Octets;
use std::alloc::Global;
use wasm_reader::{ReadEnd, read_module};
use wasm_writer::write_module;

/// The shortest bytes that spell the module which these bytes spell, or their first fault.
pub fn shorten(alloc: Global, b: &[u8]) -> Result<Octets, ReadEnd>
    ensures shortest { IfOk result (λ out. IsShortestOf b.now out) }
    ensures refused { IfErr result (IsFirstFault b.now) }
{
    let m = read_module(alloc, b)?;
    Ok(write_module(alloc, &m)?)
}
