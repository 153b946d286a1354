// The text of a script, read.
ghost use Rattle.std.specs.Prelude.{◌≡◌, ◌≤◌, ℕ, IfOk, length};
ghost use Rattle.replay_script.specs.declared.read.ScriptEnd.TheVariants.{OutOfMemory as OutOfScript};
ghost use Rattle.replay_script.specs.Scripts.{IsScript, FirstBad};

use crate::Command;
use crate::spelling::command_of;
use crate::split::split_once;
use gate_base::WorkerNo;
use std::alloc::{AllocError, AllocFailed, Global};

/// Why a script is refused.
#[derive(Clone, Copy, PartialEq, Eq)]
pub enum ScriptEnd {
    /// The line of this number, from 1, is of no form.
    BadLine { number: u32 },
    /// Memory ran out.
    OutOfMemory,
}

impl From<AllocError> for ScriptEnd {
    ghost from_gives = { λ _ e. e ≡ OutOfScript };

    fn from(_: AllocError) -> Self {
        ScriptEnd::OutOfMemory
    }
}

impl<T: Drop> From<AllocFailed<T>> for ScriptEnd {
    ghost from_gives = { λ _ e. e ≡ OutOfScript };

    fn from(_: AllocFailed<T>) -> Self {
        ScriptEnd::OutOfMemory
    }
}

/// The lines of a script of so many workers, in order, or the first line that is of no form.
pub fn read_script(alloc: Global, text: &[u8], workers: u8) -> Result<Vec<Command>, ScriptEnd>
    requires text { length text.now ≤ 67108864 }
    requires workers { 1 ≤ workers }
    ensures ok { IfOk result (λ commands. IsScript workers text.now commands.items) }
    ensures few { IfOk result (λ commands. length commands.items ≤ length text.now) }
    ensures bad { (n : ℕ) → result ≡ Err (ScriptEnd.BadLine n) → FirstBad workers text.now n }
{
    let mut commands = Vec::with_capacity(alloc, line_count(text))?;
    let mut rest = text;
    let mut stopped = false;
    let mut now = 0;
    let mut who = WorkerNo::new(1).unwrap();
    while !rest.is_empty() {
        let bad = Err(ScriptEnd::BadLine {
            number: commands.len() as u32 + 1,
        });
        if stopped {
            return bad;
        }
        let Some((line, more)) = split_once(rest, b'\n') else {
            return bad;
        };
        let Some(command) = command_of(alloc, line)? else {
            return bad;
        };
        let later = command.moment_behind(now);
        if later < now {
            return bad;
        }
        let whose = command.worker_behind(who);
        if whose.get() > workers {
            return bad;
        }
        now = later;
        who = whose;
        stopped = command.is_stop();
        commands.push(command)?;
        rest = more;
    }
    Ok(commands)
}

/// How many lines end in the text.
fn line_count(text: &[u8]) -> usize {
    text.iter().filter(|byte| **byte == b'\n').count()
}
