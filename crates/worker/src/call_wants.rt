// What is wanted for callouts: bytes of their lines, and to be called when they are due.
ghost use Rattle.std.specs.Prelude.{◌≡◌, ◌++◌, OnOk};
ghost use Rattle.worker_model.specs.Wants.{reads_call_more, call_lines, with_call_dues};

use callouts::{Callout, line_of};
use gate_base::{LineList, OutOfMemory};
use std::alloc::AllocError;
use worker_lines::earlier;

/// So many bytes of a response that are unread are enough.
const ENOUGH: usize = 65_536;

/// Whether more of its response is taken.
fn reads_call_more(c: &Callout) -> bool
    ensures { result ≡ reads_call_more c.now }
{
    c.reader.unread_len() < ENOUGH
}

/// The lines of callouts of whose responses more is taken. Each id that is drawn has one.
pub(crate) fn push_call_lines(calls: &[Callout], lines: &mut LineList) -> Result<(), OutOfMemory>
    ensures { OnOk result (lines.new ≡ lines.old ++ call_lines calls.now) }
{
    for c in calls {
        if reads_call_more(c) {
            let Some(line) = line_of(c.id) else {
                return Err(AllocError);
            };
            lines.push(line)?;
        }
    }
    Ok(())
}

/// The earliest of a moment and of callouts.
pub(crate) fn with_calls(due: Option<u64>, calls: &[Callout]) -> Option<u64>
    ensures { result ≡ with_call_dues due calls.now }
{
    let mut first = due;
    for c in calls {
        first = earlier(first, Some(c.due));
    }
    first
}
