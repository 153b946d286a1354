//! Modules from their bytes: read, validated, and written again.

use gate_base::{Octets, OutOfMemory};
use std::alloc::Global;
use wasm_machine::Targets;
use wasm_reader::{ReadEnd, read_module};
use wasm_shorten::shorten;
use wasm_syntax::{Code, Instr, Module};
use wasm_validator::{ValidEnd, validate};

/// What stands in front of and after the bytes of a row.
#[derive(Drop)]
pub struct Around {
    pub front: Octets,
    pub back: Octets,
}

impl Around {
    /// Nothing.
    pub fn new(alloc: Global) -> Around {
        Around {
            front: Octets::new(alloc),
            back: Octets::new(alloc),
        }
    }

    /// The bytes that these digits write, with what stands around them.
    pub fn whole(&self, alloc: Global, digits: &str) -> Result<Octets, OutOfMemory> {
        let mut out = self.front.copy(alloc)?;
        let middle = test_rows::from_hex(alloc, digits)?;
        out.extend_from_slice(middle.as_slice())?;
        out.extend_from_slice(self.back.as_slice())?;
        Ok(out)
    }
}

/// How reading ended that refused.
pub fn read_end(alloc: Global, end: ReadEnd) -> Result<String, OutOfMemory> {
    match end {
        ReadEnd::Refused { number, place } => format!(in alloc; "fault {number} {place}"),
        ReadEnd::OutOfMemory => format!(in alloc; "out of memory"),
    }
}

/// How many members each part of a module has.
fn counts(alloc: Global, m: &Module) -> Result<String, OutOfMemory> {
    format!(in alloc;
        "types {} imports {} functions {} exports {} codes {} data {}",
        m.types.len(),
        m.imports.len(),
        m.functions.len(),
        m.exports.len(),
        m.codes.len(),
        m.segments.len()
    )
}

/// `read HEX`: the counts of the module, or the number and the place of its first fault.
pub fn read(alloc: Global, around: &Around, words: &str) -> Result<String, OutOfMemory> {
    let bytes = around.whole(alloc, words)?;
    match read_module(alloc, bytes.as_slice()) {
        Ok(m) => counts(alloc, &m),
        Err(end) => read_end(alloc, end),
    }
}

/// `zeros COUNT`: the same of so many zeros, 8 MiB at most.
pub fn zeros(alloc: Global, words: &str) -> Result<String, OutOfMemory> {
    let count = test_rows::number(words).min(8_388_608) as usize;
    let bytes = vec![in alloc; 0u8; count]?;
    match read_module(alloc, bytes.as_slice()) {
        Ok(m) => counts(alloc, &m),
        Err(end) => read_end(alloc, end),
    }
}

/// The instructions of the last function of a module.
fn last_body(m: &Module) -> &[Instr] {
    match m.codes.as_slice().last() {
        Some(code) => body_of(code),
        None => &[],
    }
}

/// The instructions of a function.
fn body_of(code: &Code) -> &[Instr] {
    code.body.as_slice()
}

/// The opcodes of instructions.
fn opcodes_of(alloc: Global, body: &[Instr]) -> Result<String, OutOfMemory> {
    let mut out = Octets::new(alloc);
    for i in body {
        out.push(i.opcode().byte())?;
    }
    test_rows::hex(alloc, out.as_slice())
}

/// `opcodes HEX`: those of the last function of the module.
pub fn opcodes(alloc: Global, around: &Around, words: &str) -> Result<String, OutOfMemory> {
    let bytes = around.whole(alloc, words)?;
    match read_module(alloc, bytes.as_slice()) {
        Ok(m) => opcodes_of(alloc, last_body(&m)),
        Err(end) => read_end(alloc, end),
    }
}

/// Where the jumps from each instruction lead, and from the place past them.
fn targets_of(alloc: Global, body: &[Instr]) -> Result<String, OutOfMemory> {
    let mut out = String::new(alloc);
    if body.len() > 100 {
        return Ok(out);
    }
    let targets = Targets::of(alloc, body)?;
    for place in 0..body.len() + 1 {
        let t = targets.at(place);
        out.push_str(format!(in alloc; "{}/{} ", t.end, t.other)?.as_str())?;
    }
    Ok(out)
}

/// `targets HEX`: those of the last function of the module.
pub fn targets(alloc: Global, around: &Around, words: &str) -> Result<String, OutOfMemory> {
    let bytes = around.whole(alloc, words)?;
    match read_module(alloc, bytes.as_slice()) {
        Ok(m) => targets_of(alloc, last_body(&m)),
        Err(end) => read_end(alloc, end),
    }
}

/// How validation ended that refused.
fn valid_end(alloc: Global, end: ValidEnd) -> Result<String, OutOfMemory> {
    match end {
        ValidEnd::Invalid { part, index, place } => {
            format!(in alloc; "invalid {part:?} {index} {place}")
        }
        ValidEnd::OutOfMemory => format!(in alloc; "out of memory"),
    }
}

/// `valid HEX`: whether the module is, or its first fault.
pub fn valid(alloc: Global, around: &Around, words: &str) -> Result<String, OutOfMemory> {
    let bytes = around.whole(alloc, words)?;
    match read_module(alloc, bytes.as_slice()) {
        Ok(m) => match validate(alloc, m) {
            Ok(_) => format!(in alloc; "valid"),
            Err(end) => valid_end(alloc, end),
        },
        Err(end) => read_end(alloc, end),
    }
}

/// `shorten HEX`: the module in the fewest bytes.
pub fn shortened(alloc: Global, around: &Around, words: &str) -> Result<String, OutOfMemory> {
    let bytes = around.whole(alloc, words)?;
    match shorten(alloc, bytes.as_slice()) {
        Ok(out) => test_rows::hex(alloc, out.as_slice()),
        Err(end) => read_end(alloc, end),
    }
}
