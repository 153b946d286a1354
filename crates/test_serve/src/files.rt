//! Files in memory.

use gate_base::{CallNos, Members, Octets, OutOfMemory, Pairs};
use gate_io::MemFiles;
use std::alloc::Global;
use test_rows::{from_hex, from_text, number, word};

/// The numbers of the calls that are to fail, with `+` between them; 0 is none.
pub fn calls(alloc: Global, word: &str) -> Result<CallNos, OutOfMemory> {
    let mut all = CallNos::new(alloc);
    for one in word.split('+') {
        all.push(number(one))?;
    }
    Ok(all)
}

/// Lays out a file.
fn lay(alloc: Global, files: &mut Pairs, path: &str, bytes: Octets) -> Result<(), OutOfMemory> {
    files.push((Octets::from_slice(alloc, path.as_bytes())?, bytes))
}

/// `text PATH TEXT`: lays out a file of a text.
pub fn lay_text(alloc: Global, files: &mut Pairs, words: &str) -> Result<(), OutOfMemory> {
    let (path, text) = word(words);
    let bytes = from_text(alloc, text)?;
    lay(alloc, files, path, bytes)
}

/// `module PATH HEX`: lays out a file of bytes.
pub fn lay_module(alloc: Global, files: &mut Pairs, words: &str) -> Result<(), OutOfMemory> {
    let (path, digits) = word(words);
    let bytes = from_hex(alloc, digits)?;
    lay(alloc, files, path, bytes)
}

/// The files that are laid out, of which these reads fail.
pub fn laid_out(alloc: Global, files: &Pairs, fails: CallNos) -> Result<MemFiles, OutOfMemory> {
    let mut all = Members::new(alloc);
    for (path, bytes) in files.as_slice() {
        all.push((path.copy(alloc)?, bytes.copy(alloc)?))?;
    }
    Ok(MemFiles::new(alloc, all, fails))
}
