//! An HTTP/1.1 gateway whose messages pass through WebAssembly filters.
#![tactic(auto)]

use command_statuses::Status;
use commands::run;
use gate_io::{HostFiles, HostSink, NoGate};
use gate_live::LiveSite;
use standard_streams::hold_standard;
use std::alloc::{AllocError, Global};
use std::process::ExitCode;
use std::{env, io};

/// Runs the command that the words after the program's name give, over the files and streams of the system. Before anything is opened the numbers of the
/// standard streams are held.
fn main(rt: HostRuntime) -> ExitCode {
    let stderr = rt.stderr();
    let mut err = HostSink::new(&rt, io::writer(&stderr));
    let status = match begin(&rt) {
        Ok(words) => run(
            &rt,
            rt.alloc(),
            words.as_slice(),
            &mut HostFiles::new(&rt),
            &mut LiveSite::new(rt.alloc(), rt),
            &mut HostSink::new(&rt, io::writer(&rt)),
            &mut err,
            &NoGate,
        ),
        Err(status) => {
            let _ = status.report(&mut err);
            status
        }
    };
    ExitCode::from(status.number())
}

/// Holds the numbers of the standard streams, and gives the words after the program's name; or the status with which the process ends.
fn begin(rt: &HostRuntime) -> Result<Vec<String>, Status> {
    if hold_standard(rt).is_err() {
        return Err(Status::SiteFault);
    }
    words_of(rt).map_err(|_| Status::OutOfMemory)
}

/// The words after the program's name. Words that are no text are none, and so of no form.
fn words_of(rt: &HostRuntime) -> Result<Vec<String>, AllocError> {
    match env::args(rt) {
        Ok(words) => words.skip(1).collect(rt.alloc()),
        Err(e) if e.kind() == io::ErrorKind::OutOfMemory => Err(AllocError),
        Err(_) => Ok(Vec::new(rt.alloc())),
    }
}
