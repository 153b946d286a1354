// The report of the module that bytes are.
ghost use Rattle.std.specs.Prelude.{IfOk, IfErr};
ghost use Rattle.wasm_syntax.specs.Grammar.{Spells};
ghost use Rattle.wasm_syntax.specs.Validity.{IsValid};
ghost use Rattle.filter_report.specs.Reporting.{IsReport, IsNoReport};

use crate::reporting::report;
use gate_base::Octets;
use std::alloc::Global;
use wasm_reader::{ReadEnd, read_module};
use wasm_syntax::{Module, ValidModule};
use wasm_validator::{ValidEnd, validate};

/// Why there is no report of a module.
#[derive(Clone, Copy)]
pub enum ReportEnd {
    /// The bytes spell no module: the row of the first fault, from 1 on, and its place.
    Unread { number: u8, place: usize },
    /// The module is not valid.
    Invalid,
    /// Memory ran out.
    OutOfMemory,
}

/// The report of the valid module that bytes spell, or why there is none.
pub fn report_bytes(alloc: Global, bytes: &[u8]) -> Result<Octets, ReportEnd>
    ensures ok { IfOk result (IsReport bytes.now) }
    ensures err { IfErr result (IsNoReport bytes.now) }
{
    match read_module(alloc, bytes) {
        Ok(module) => report_spelled(alloc, bytes, module),
        Err(ReadEnd::Refused { number, place }) => Err(ReportEnd::Unread { number, place }),
        Err(ReadEnd::OutOfMemory) => Err(ReportEnd::OutOfMemory),
    }
}

/// The report of the module that bytes spell, where it is valid.
fn report_spelled(alloc: Global, bytes: &[u8], module: Module) -> Result<Octets, ReportEnd>
    requires { Spells bytes.now «module» }
    ensures ok { IfOk result (IsReport bytes.now) }
    ensures err { IfErr result (IsNoReport bytes.now) }
{
    match validate(alloc, module) {
        Ok(valid) => report_valid(alloc, bytes, &valid),
        Err(ValidEnd::Invalid { .. }) => Err(ReportEnd::Invalid),
        Err(ValidEnd::OutOfMemory) => Err(ReportEnd::OutOfMemory),
    }
}

/// The report of the valid module that bytes spell.
fn report_valid(alloc: Global, bytes: &[u8], m: &ValidModule) -> Result<Octets, ReportEnd>
    requires spelled { Spells bytes.now m.now }
    requires valid { IsValid m.now }
    ensures ok { IfOk result (IsReport bytes.now) }
    ensures err { IfErr result (IsNoReport bytes.now) }
{
    let mut out = Octets::new(alloc);
    match report(alloc, &mut out, m) {
        Ok(()) => Ok(out),
        Err(_) => Err(ReportEnd::OutOfMemory),
    }
}
