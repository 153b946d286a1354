// Files in memory.
ghost use Rattle.std.specs.Prelude.{◌≡◌, ◌≤◌, ◌<◌, [], Some, None, IfOk, length};
ghost use Rattle.gate_io.specs.Paths.{file_at};

use crate::{FileEnd, Files};
use gate_base::{CallNos, Members, Octets, OutOfMemory, Pairs, Text};
use std::alloc::Global;
use std::marker::Model;

/// A list of texts.
pub type TextList = Members<Text>;

/// Files with stated paths and bytes, of which the calls with the listed numbers, from 1, fail. A call that memory ran
/// out in counts as none.
#[derive(Drop)]
pub struct MemFiles {
    files: Pairs,
    paths: TextList,
    fails: CallNos,
    calls: u64,
    faults: u64,
}

impl Model for MemFiles {
    ghost use Rattle.gate_io.specs.Memory.{MemoryFiles};

    ghost Value = { MemoryFiles };

    ghost view = { λ a. record { files = a.files; paths = a.paths; fails = a.fails; calls = a.calls; faults = a.faults } };
}

/// What there is at a path.
#[derive(Drop)]
enum Found {
    Bytes(Octets),
    TooLong,
    Missing,
}

impl MemFiles {
    /// Files of these paths and bytes, whose calls with these numbers, from 1, are to fail.
    pub fn new(alloc: Global, files: Pairs, fails: CallNos) -> Self
        ensures { result ≡ record { files = files; paths = []; fails = fails; calls = 0; faults = 0 } }
    {
        MemFiles {
            files,
            paths: Members::new(alloc),
            fails,
            calls: 0,
            faults: 0,
        }
    }

    /// The paths that were read.
    pub fn paths(&self) -> &[Text]
        ensures { result.now ≡ self.now.paths }
    {
        self.paths.as_slice()
    }
}

impl Files for MemFiles {
    ghost use Rattle.std.specs.Prelude.{Some};
    ghost use Rattle.gate_io.specs.MemoryCalls.{ReadsFile};

    ghost holds = { λ s. Some s.files };

    ghost paths = { λ s. Some s.paths };

    ghost faults = { λ s. s.faults };

    // The first clause says all. The others repeat those of the trait's that it does not show by itself.
    fn read(&mut self, alloc: Global, path: &str, most: usize) -> Result<Octets, FileEnd>
        ensures answer { ReadsFile self.old path.now most result self.new }
        ensures bound { IfOk result (λ bytes. length bytes ≤ most) }
        ensures faults { self.old.faults ≤ self.new.faults }
    {
        let found = look_up(alloc, self.files.as_slice(), path.as_bytes(), most)?;
        self.paths.push(Text::of(alloc, path)?)?;
        self.calls = self.calls.saturating_add(1);
        if self.fails.as_slice().contains(&self.calls) {
            self.faults = self.faults.saturating_add(1);
            return Err(FileEnd::Failed);
        }
        match found {
            Found::Bytes(bytes) => Ok(bytes),
            Found::TooLong => Err(FileEnd::TooLong),
            Found::Missing => {
                self.faults = self.faults.saturating_add(1);
                Err(FileEnd::Failed)
            }
        }
    }
}

ghost use Rattle.gate_io.specs.Found.{Finds};
ghost use Rattle.std.specs.Option.{option_copied};

/// What there is at a path.
fn look_up(
    alloc: Global,
    files: &[(Octets, Octets)],
    path: &[u8],
    most: usize,
) -> Result<Found, OutOfMemory>
    ensures { IfOk result (λ found. Finds files.now path.now most found) }
{
    match bytes_at(files, path) {
        None => Ok(Found::Missing),
        Some(bytes) if bytes.len() > most => Ok(Found::TooLong),
        Some(bytes) => Ok(Found::Bytes(bytes.copy(alloc)?)),
    }
}

/// The bytes of the first file with this path.
fn bytes_at<'a>(files: &'a [(Octets, Octets)], path: &[u8]) -> Option<&'a Octets>
    ensures { option_copied result ≡ file_at files.now path.now }
{
    for file in files {
        if file.0.as_slice() == path {
            return Some(&file.1);
        }
    }
    None
}
