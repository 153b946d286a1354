//! Files in memory, read whole.

use gate_base::{CallNos, Members, OutOfMemory, Pairs};
use gate_io::{FileEnd, Files, MemFiles};
use std::alloc::Global;
use test_rows::{from_text, number, shown, word};

/// The number of the one call that is to fail; 0 is none.
pub fn calls(alloc: Global, word: &str) -> Result<CallNos, OutOfMemory> {
    let mut all = CallNos::new(alloc);
    all.push(number(word))?;
    Ok(all)
}

/// Puts a text after a list of texts.
pub fn push_told(list: &mut String, text: &str) -> Result<(), OutOfMemory> {
    if !list.is_empty() {
        list.push_str(", ")?;
    }
    list.push_str(text)
}

/// The word of an end.
pub fn end_word(end: FileEnd) -> &'static str {
    match end {
        FileEnd::Failed => "failed",
        FileEnd::TooLong => "too long",
        FileEnd::OutOfMemory => "out of memory",
    }
}

/// What the read of a path, of so many bytes at most, gives.
pub fn answer<F: Files>(
    alloc: Global,
    files: &mut F,
    path: &str,
    most: &str,
) -> Result<String, OutOfMemory> {
    let most = number(most).min(67_108_864) as usize;
    match files.read(alloc, path, most) {
        Ok(bytes) => shown(alloc, bytes.as_slice()),
        Err(end) => String::from_str(alloc, end_word(end)),
    }
}

/// What the reads `PATH MOST PATH MOST ..` give, eight at most.
fn answers(alloc: Global, files: &mut MemFiles, words: &str) -> Result<String, OutOfMemory> {
    let mut told = String::new(alloc);
    let mut rest = words;
    for _ in 0..8 {
        if rest.is_empty() {
            break;
        }
        let (path, behind) = word(rest);
        let (most, behind) = word(behind);
        let one = answer(alloc, files, path, most)?;
        push_told(&mut told, one.as_str())?;
        rest = behind;
    }
    Ok(told)
}

/// One file.
fn one(alloc: Global, path: &str, text: &str) -> Result<Pairs, OutOfMemory> {
    let path = from_text(alloc, path)?;
    let text = from_text(alloc, text)?;
    let mut files: Pairs = Members::new(alloc);
    files.push((path, text))?;
    Ok(files)
}

/// The paths that were read, a blank before each.
fn paths(alloc: Global, files: &MemFiles) -> Result<String, OutOfMemory> {
    let mut told = String::new(alloc);
    for path in files.paths() {
        told.push(' ')?;
        told.push_str(path.as_str())?;
    }
    Ok(told)
}

/// What reads of these files give, and the paths that were read.
fn both(alloc: Global, files: &mut MemFiles, words: &str) -> Result<String, OutOfMemory> {
    let told = answers(alloc, files, words)?;
    let paths = paths(alloc, files)?;
    format!(in alloc; "{told}; read{paths}")
}

/// `files PATH TEXT FAIL PATH MOST PATH MOST ..`: there is one file, and one call fails. What the reads give, and which paths were
/// read.
pub fn read(alloc: Global, words: &str) -> Result<String, OutOfMemory> {
    let (path, rest) = word(words);
    let (text, rest) = word(rest);
    let (fail, rest) = word(rest);
    let fails = calls(alloc, fail)?;
    let mut files = MemFiles::new(alloc, one(alloc, path, text)?, fails);
    both(alloc, &mut files, rest)
}
