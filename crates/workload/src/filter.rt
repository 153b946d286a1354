// The module of the filter.
ghost use Rattle.std.specs.Prelude.{◌≡◌, IfOk};
ghost use Rattle.wasm_syntax.specs.Grammar.{Spells};
ghost use Rattle.workload.specs.Filter.{queue_filter};

use crate::laws::filter_is_a_module;
use gate_base::OutOfMemory;
use std::alloc::{AllocError, Global};
use wasm_reader::{ReadEnd, read_module};
use wasm_syntax::{Module, ValidModule};
use wasm_validator::{ValidEnd, validate};

/// The bytes of the module, in the order of its sections, each entry on a line of its own.
pub const FILTER: &[u8] = b"\x00asm\x01\x00\x00\x00\
\x01\x19\x04\
`\x03\x7f\x7f\x7f\x01\x7f\
`\x05\x7f\x7f\x7f\x7f\x7f\x01\x7f\
`\x00\x00\
`\x01\x7f\x01\x7f\
\x02e\x03\
\x03env\x1bproxy_register_shared_queue\x00\x00\
\x03env\x1aproxy_get_header_map_value\x00\x01\
\x03env\x1aproxy_enqueue_shared_queue\x00\x00\
\x03\x04\x03\x02\x03\x00\
\x05\x03\x01\x00\x01\
\x07?\x03\
\x17proxy_abi_version_0_2_1\x00\x03\
\x06malloc\x00\x04\
\x18proxy_on_request_headers\x00\x05\
\x0a7\x03\
\x02\x00\x0b\
\x05\x00A\x80\x08\x0b\
,\x00A\x02A\x01A\x08\x10\x00\x1aA\x00A\x03A\x05A\x0cA\x10\x10\x01\x1aA\x08(\x02\x00A\x0c(\x02\x00A\x10(\x02\x00\x10\x02\x1aA\x00\x0b\
\x0b\x0e\x01\x00A\x00\x0b\x08m1q:path";

/// The module of the filter, which is valid.
pub fn module(alloc: Global) -> Result<ValidModule, OutOfMemory>
    ensures { IfOk result (λ m. m ≡ queue_filter) }
{
    filter_is_a_module();
    match read_module(alloc, FILTER) {
        Ok(module) => valid(alloc, module),
        Err(ReadEnd::Refused { .. }) => unreachable!(),
        Err(ReadEnd::OutOfMemory) => Err(AllocError),
    }
}

/// The module, which is valid.
fn valid(alloc: Global, module: Module) -> Result<ValidModule, OutOfMemory>
    requires spelled { Spells FILTER.now «module» }
    requires same { «module» ≡ queue_filter }
    ensures { IfOk result (λ m. m ≡ queue_filter) }
{
    filter_is_a_module();
    match validate(alloc, module) {
        Ok(valid) => Ok(valid),
        Err(ValidEnd::Invalid { .. }) => unreachable!(),
        Err(ValidEnd::OutOfMemory) => Err(AllocError),
    }
}
