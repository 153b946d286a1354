//! Modules.

ghost use Rattle.std.specs.Prelude.{◌≡◌, IfOk};
ghost use Rattle.wasm_syntax.specs.Numbers.{IsShortest};
ghost use Rattle.wasm_syntax.specs.Grammar.{Spells};
ghost use Rattle.wasm_writer.specs.Written.{HasSpelling, module_bytes};

use crate::sections::write_part;
use gate_base::{Octets, OutOfMemory};
use std::alloc::Global;
use wasm_syntax::{Module, SECTIONS};

/// The magic and the version.
const HEADER: [u8; 8] = [0x00, 0x61, 0x73, 0x6D, 0x01, 0x00, 0x00, 0x00];

/// The shortest bytes that spell a module (WebAssembly Core 1.0 section 5.5.15): numbers in their
/// shortest spelling, no empty or custom section, neighbouring locals of one type in one group.
#[tactic(auto, unfolding(crate::specs::Written::module_bytes))]
pub fn write_module(alloc: Global, m: &Module) -> Result<Octets, OutOfMemory>
    // Some bytes spell it, as those that it was read from.
    requires { HasSpelling m.now }
    // What is written spells it, and no fewer bytes do.
    ensures shortest { IfOk result (IsShortest (λ b. Spells b m.now)) }
    ensures exact { IfOk result (λ out. out ≡ module_bytes m.now) }
{
    let mut out = Octets::from_slice(alloc, &HEADER)?;
    for kind in SECTIONS {
        write_part(alloc, &mut out, m, kind)?;
    }
    Ok(out)
}
