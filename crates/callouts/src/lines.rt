// Which lines are those of callouts.
ghost use Rattle.std.specs.Prelude.{◌≡◌, ◌-◌, ◌<◌, Some, IfSome, IfNone, option_copied};
ghost use Rattle.callouts.specs.Callouts.{first_line, last_id, line_of, callout_at, callout_in, is_call_line, line_in};

use crate::types::Callout;
use gate_base::LineNo;
use gate_io::What;

/// From this number on a line is that of a callout.
const FIRST_LINE: u32 = 2_147_483_648;

/// The greatest id.
pub(crate) const LAST_ID: u32 = 2_147_483_647;

/// The line of an event, if it is of one.
pub fn line_in(what: &What) -> Option<LineNo>
    ensures { result ≡ line_in what.now }
{
    match what {
        What::Opened { line } => Some(*line),
        What::Bytes { line, .. } => Some(*line),
        What::End { line, .. } => Some(*line),
        What::Gone { line, .. } => Some(*line),
        What::Joined { line } => Some(*line),
        What::Refused { line } => Some(*line),
        What::Room { line, .. } => Some(*line),
        What::Clock => None,
        What::Stop => None,
    }
}

/// Whether it is the line of a callout.
pub fn is_call_line(line: LineNo) -> bool
    ensures { result ≡ is_call_line line }
{
    line.get() >= FIRST_LINE
}

/// The line of an id, which is at most 2^31 - 1.
pub fn line_of(id: u32) -> Option<LineNo>
    ensures some { IfSome result (λ line. line ≡ line_of id) }
    ensures none { IfNone result (last_id < id) }
{
    if id > LAST_ID {
        return None;
    }
    LineNo::new(FIRST_LINE + id)
}

/// The id whose line it is.
pub(crate) fn id_at(line: LineNo) -> u32
    ensures { result ≡ line - first_line }
{
    line.get().saturating_sub(FIRST_LINE)
}

/// The callout of an id.
fn callout_in(calls: &[Callout], id: u32) -> Option<&Callout>
    ensures { option_copied result ≡ callout_in id calls.now }
{
    calls.iter().find(|c| c.id == id)
}

/// The callout whose line it is.
pub fn callout_at(calls: &[Callout], line: LineNo) -> Option<&Callout>
    ensures { option_copied result ≡ callout_at (Some line) calls.now }
{
    callout_in(calls, id_at(line))
}
