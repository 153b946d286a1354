// The files of the system.
use crate::{FileEnd, Files, HostSource, read_whole};
use gate_base::Octets;
use std::alloc::Global;
use std::io::Input;
use std::{fs, rt};

/// The files of the system, and standard input under the path `-`. They tell nothing of content.
#[derive(Drop)]
pub struct HostFiles<R> {
    rt: R,
    faults: u64,
}

impl<R> HostFiles<R> {
    /// The files that this handle of the runtime reaches.
    pub fn new(rt: R) -> Self {
        HostFiles { rt, faults: 0 }
    }
}

impl<R: rt::Files + Input> Files for HostFiles<R> {
    ghost use Rattle.std.specs.Prelude.{None};

    ghost holds = { λ _. None };

    ghost paths = { λ _. None };

    ghost faults = { λ s. s.faults };

    fn read(&mut self, alloc: Global, path: &str, most: usize) -> Result<Octets, FileEnd> {
        let answer = read_path(alloc, &self.rt, path, most);
        if let Err(FileEnd::Failed) = answer {
            self.faults = self.faults.saturating_add(1);
        }
        answer
    }
}

ghost use Rattle.std.specs.Prelude.{◌≤◌, length, IfOk};

/// Reads a file, or standard input, to its end.
fn read_path<R: rt::Files + Input>(
    alloc: Global,
    rt: &R,
    path: &str,
    most: usize,
) -> Result<Octets, FileEnd>
    requires { most ≤ 67108864 }
    ensures bound { IfOk result (λ bytes. length bytes ≤ most) }
{
    if path == "-" {
        return read_whole(alloc, &mut HostSource::new(rt, rt.reader()), most);
    }
    match fs::open(rt, path) {
        Ok(file) => read_whole(alloc, &mut HostSource::new(rt, file), most),
        Err(_) => Err(FileEnd::Failed),
    }
}
