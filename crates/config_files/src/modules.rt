// The module that bytes are.
ghost use Rattle.std.specs.Prelude.{◌≡◌, IfOk, IfErr};
ghost use Rattle.wasm_syntax.specs.Grammar.{Spells};
ghost use Rattle.config_files.specs.Modules.{IsFilter, IsModule, IsNoFilter};

use std::alloc::Global;
use vm_host::{FitEnd, fits};
use wasm_reader::{ReadEnd, read_module};
use wasm_syntax::{Module, ValidModule};
use wasm_validator::{ValidEnd, validate};

/// Why bytes are no module that a VM can run: the first of these that stands, in this order.
#[derive(Clone, Copy)]
pub enum ModuleFault {
    /// They spell no module: the row of the first fault, from 1 on, and its place.
    Unread { number: u8, place: usize },
    /// The module is not valid.
    Invalid,
    /// It is none of a filter, on a host that allows its memory the pages of the VM. It is never want of memory.
    Misfit { end: FitEnd },
}

/// Why no module was read from bytes.
#[derive(Clone, Copy)]
pub enum ModuleEnd {
    /// They are none.
    Refused { fault: ModuleFault },
    /// Memory ran out.
    OutOfMemory,
}

/// The valid module that bytes spell, where it is one of a filter whose memory may have so many pages.
pub fn read_code(alloc: Global, bytes: &[u8], pages: u32) -> Result<ValidModule, ModuleEnd>
    ensures ok { IfOk result (IsFilter bytes.now pages) }
    ensures err { IfErr result (IsNoFilter bytes.now pages) }
{
    match read_module(alloc, bytes) {
        Ok(module) => valid(alloc, bytes, module, pages),
        Err(ReadEnd::Refused { number, place }) => Err(ModuleEnd::Refused {
            fault: ModuleFault::Unread { number, place },
        }),
        Err(ReadEnd::OutOfMemory) => Err(ModuleEnd::OutOfMemory),
    }
}

/// The module that bytes spell, where it is valid and one of a filter.
fn valid(alloc: Global, bytes: &[u8], module: Module, pages: u32) -> Result<ValidModule, ModuleEnd>
    requires { Spells bytes.now «module» }
    ensures ok { IfOk result (IsFilter bytes.now pages) }
    ensures err { IfErr result (IsNoFilter bytes.now pages) }
{
    match validate(alloc, module) {
        Ok(valid) => filter(bytes, valid, pages),
        Err(ValidEnd::Invalid { .. }) => Err(ModuleEnd::Refused {
            fault: ModuleFault::Invalid,
        }),
        Err(ValidEnd::OutOfMemory) => Err(ModuleEnd::OutOfMemory),
    }
}

/// The module that bytes are, where it is one of a filter.
fn filter(bytes: &[u8], module: ValidModule, pages: u32) -> Result<ValidModule, ModuleEnd>
    requires { IsModule bytes.now «module» }
    ensures ok { IfOk result (IsFilter bytes.now pages) }
    ensures err { IfErr result (IsNoFilter bytes.now pages) }
{
    match fits(&module, pages) {
        Ok(()) => Ok(module),
        Err(end) => Err(ModuleEnd::Refused {
            fault: ModuleFault::Misfit { end },
        }),
    }
}
