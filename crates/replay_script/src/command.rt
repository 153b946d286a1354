// The lines of a script, as commands.
ghost use Rattle.std.specs.Prelude.{◌≡◌, ◌++◌, IfOk, OnOk, is_some};
ghost use Rattle.replay_script.specs.Commands.{text_of, what_of};
ghost use Rattle.replay_script.specs.Scripts.{is_stop, moment_behind, worker_behind};

use crate::words::{print_bytes, print_decimal, print_number};
use gate_base::{LineNo, Octets, OutOfMemory, WorkerNo};
use gate_io::{Side, What};
use std::alloc::Global;

/// One line of a script.
#[derive(Drop)]
pub enum Command {
    /// `on K`: what stands after it happens at this worker.
    On { worker: WorkerNo },
    /// `at N`: what stands after it happens at this moment, in nanoseconds since 1970-01-01 00:00:00 UTC.
    At { moment: u64 },
    /// `open L`: a client's connection is opened.
    Open { line: LineNo },
    /// `bytes L HEX`: the client sends 1 to 16,384 bytes.
    Bytes { line: LineNo, bytes: Octets },
    /// `end L`: the client sends nothing more.
    End { line: LineNo },
    /// `gone L`: the client's connection is gone.
    Gone { line: LineNo },
    /// `joined L`: the connection to the upstream server stands.
    Joined { line: LineNo },
    /// `refused L`: the upstream server was not reached.
    Refused { line: LineNo },
    /// `upbytes L HEX`: the upstream server sends 1 to 16,384 bytes.
    UpBytes { line: LineNo, bytes: Octets },
    /// `upend L`: the upstream server sends nothing more.
    UpEnd { line: LineNo },
    /// `upgone L`: the connection to the upstream server is gone.
    UpGone { line: LineNo },
    /// `clock`: time passed.
    Clock,
    /// `stop`: nothing more comes. It is the last line.
    Stop,
}

impl Command {
    /// What happens at this line, with a copy of its bytes. At `on`, `at` and `stop` it is nothing.
    pub fn what(&self, alloc: Global) -> Result<Option<What>, OutOfMemory>
        ensures { IfOk result (λ what. what ≡ what_of self.now) }
    {
        Ok(match self {
            Command::On { .. } => None,
            Command::At { .. } => None,
            Command::Open { line } => Some(What::Opened { line: *line }),
            Command::Bytes { line, bytes } => Some(What::Bytes {
                line: *line,
                side: Side::Down,
                bytes: bytes.copy(alloc)?,
            }),
            Command::End { line } => Some(What::End {
                line: *line,
                side: Side::Down,
            }),
            Command::Gone { line } => Some(What::Gone {
                line: *line,
                side: Side::Down,
            }),
            Command::Joined { line } => Some(What::Joined { line: *line }),
            Command::Refused { line } => Some(What::Refused { line: *line }),
            Command::UpBytes { line, bytes } => Some(What::Bytes {
                line: *line,
                side: Side::Up,
                bytes: bytes.copy(alloc)?,
            }),
            Command::UpEnd { line } => Some(What::End {
                line: *line,
                side: Side::Up,
            }),
            Command::UpGone { line } => Some(What::Gone {
                line: *line,
                side: Side::Up,
            }),
            Command::Clock => Some(What::Clock),
            Command::Stop => None,
        })
    }

    /// What happens at this line. At `on`, `at` and `stop` it is nothing.
    pub fn into_what(self) -> Option<What>
        ensures { result ≡ what_of self }
    {
        match self {
            Command::On { .. } => None,
            Command::At { .. } => None,
            Command::Open { line } => Some(What::Opened { line }),
            Command::Bytes { line, bytes } => Some(What::Bytes {
                line,
                side: Side::Down,
                bytes,
            }),
            Command::End { line } => Some(What::End {
                line,
                side: Side::Down,
            }),
            Command::Gone { line } => Some(What::Gone {
                line,
                side: Side::Down,
            }),
            Command::Joined { line } => Some(What::Joined { line }),
            Command::Refused { line } => Some(What::Refused { line }),
            Command::UpBytes { line, bytes } => Some(What::Bytes {
                line,
                side: Side::Up,
                bytes,
            }),
            Command::UpEnd { line } => Some(What::End {
                line,
                side: Side::Up,
            }),
            Command::UpGone { line } => Some(What::Gone {
                line,
                side: Side::Up,
            }),
            Command::Clock => Some(What::Clock),
            Command::Stop => None,
        }
    }

    /// Whether something happens at this line.
    pub fn happens(&self) -> bool
        ensures { result ≡ is_some (what_of self.now) }
    {
        !matches!(
            self,
            Command::On { .. } | Command::At { .. } | Command::Stop
        )
    }

    /// The moment of what stands after this line, where this is the moment before it.
    pub fn moment_behind(&self, now: u64) -> u64
        ensures { result ≡ moment_behind now self.now }
    {
        match self {
            Command::At { moment } => *moment,
            _ => now,
        }
    }

    /// The worker of what stands after this line, where this is the worker before it.
    pub fn worker_behind(&self, who: WorkerNo) -> WorkerNo
        ensures { result ≡ worker_behind who self.now }
    {
        match self {
            Command::On { worker } => *worker,
            _ => who,
        }
    }

    /// Whether it is `stop`.
    pub fn is_stop(&self) -> bool
        ensures { result ≡ is_stop self.now }
    {
        matches!(self, Command::Stop)
    }
}

/// Puts the text of a command at the end, without an LF.
pub(crate) fn print_command(
    alloc: Global,
    out: &mut Octets,
    command: &Command,
) -> Result<(), OutOfMemory>
    ensures { OnOk result (out.new ≡ out.old ++ text_of command.now) }
{
    match command {
        Command::On { worker } => print_decimal(out, b"on ", u64::from(worker.get())),
        Command::At { moment } => print_decimal(out, b"at ", *moment),
        Command::Open { line } => print_number(out, b"open ", *line),
        Command::Bytes { line, bytes } => {
            print_bytes(alloc, out, b"bytes ", *line, bytes.as_slice())
        }
        Command::End { line } => print_number(out, b"end ", *line),
        Command::Gone { line } => print_number(out, b"gone ", *line),
        Command::Joined { line } => print_number(out, b"joined ", *line),
        Command::Refused { line } => print_number(out, b"refused ", *line),
        Command::UpBytes { line, bytes } => {
            print_bytes(alloc, out, b"upbytes ", *line, bytes.as_slice())
        }
        Command::UpEnd { line } => print_number(out, b"upend ", *line),
        Command::UpGone { line } => print_number(out, b"upgone ", *line),
        Command::Clock => out.extend_from_slice(b"clock"),
        Command::Stop => out.extend_from_slice(b"stop"),
    }
}
