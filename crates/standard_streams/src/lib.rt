//! The numbers of the standard streams, held open.
#![tactic(auto)]

ghost use Rattle.std.specs.Prelude.{◌<ℤ◌, pos, IfOk};
ghost use Rattle.std.specs.Fd.{pipe_reader_raw_fd};

use std::fs::{File, Files};
use std::io;
use std::os::fd::{AsRawFd, IntoRawFd, RawFd};

/// The number of standard error, the highest of the three.
const LAST: RawFd = 2;

/// Why the numbers are not held: the system gives no descriptor, or a file has a number of the three and another that is opened gets it too.
#[derive(Debug, Drop)]
pub struct NotHeld;

/// Sees to it that the numbers of standard input, output and error are in use, so that nothing that is opened later gets one of them. A number that is closed
/// is taken by the folder `/`, which is neither read nor written: an input or output that is closed still fails. It stays open until the process ends.
///
/// What is given is the evidence, an open pipe's number above all three: the system gives the lowest number that is free (POSIX, `open` and `pipe`).
pub fn hold_standard(rt: &HostRuntime) -> Result<io::PipeReader, NotHeld>
    ensures above { IfOk result (λ reader. pos 2 <ℤ pipe_reader_raw_fd reader) }
{
    for _ in 0..4 {
        let reader = lowest(rt)?;
        if reader.as_raw_fd() > LAST {
            return Ok(reader);
        }
        drop(reader);
        take(rt)?;
    }
    Err(NotHeld)
}

/// A pipe's end for reading, which gets the lowest number that is free. The other end is closed again.
fn lowest(rt: &HostRuntime) -> Result<io::PipeReader, NotHeld> {
    match io::pipe(rt) {
        Ok((reader, _writer)) => Ok(reader),
        Err(_) => Err(NotHeld),
    }
}

/// Takes the lowest number that is free until the process ends.
fn take(rt: &HostRuntime) -> Result<RawFd, NotHeld> {
    match File::open(rt, "/") {
        Ok(folder) => Ok(folder.into_raw_fd()),
        Err(_) => Err(NotHeld),
    }
}
