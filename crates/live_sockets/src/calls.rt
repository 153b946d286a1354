// Lines of callouts.
ghost use Rattle.std.specs.Prelude.{◌≡◌, ◌⊎◌, ◌+◌, ◌<◌, ◌≤◌, [], None, length, is_none, false, IfSome, IsTrue};
ghost use Rattle.live_lines.specs.Lines.{most_lines, peer_of};
ghost use Rattle.live_sockets.specs.Calls.{calls_in, first_call, is_call, most_calls};

use gate_base::LineNo;
use live_lines::{Duplex, SocketPair};
use std::alloc::Global;

/// The lines of clients have numbers below this one, and those of callouts have not.
const FIRST_CALL: u32 = 2_147_483_648;

/// So many lines of callouts a worker keeps at most.
const MOST_CALLS: usize = 64;

/// So many lines of clients are kept: twice as many as a worker has open, so that as many more may wait to be closed after what their clients have not
/// read. A further one is closed at once, or else a client that opens lines and reads nothing would take descriptors and memory without end.
const MOST_LINES: usize = 256;

/// So many lines there are at most.
pub const ALL_LINES: usize = MOST_LINES + MOST_CALLS;

/// Whether the line of this number is a callout's.
#[inline(always)]
pub fn is_call(number: LineNo) -> bool
    ensures { result ≡ is_call number }
{
    number.get() >= FIRST_CALL
}

/// How many of these lines are callouts'.
fn calls_in<P>(lines: &[SocketPair<P>]) -> usize
    ensures { result ≡ calls_in lines.now }
{
    lines.iter().filter(|line| is_call(line.number)).count()
}

/// Whether the line of a callout of this number may begin, which no line has: it is a callout's, and not as many are there as may be.
pub fn may_call<P>(lines: &[SocketPair<P>], number: LineNo) -> bool
    ensures call { IsTrue result → IsTrue (is_call number) }
    ensures few { IsTrue result → calls_in lines.now < most_calls }
    ensures none { result ≡ false → (number < first_call) ⊎ (most_calls ≤ calls_in lines.now) }
{
    is_call(number) && calls_in(lines) < MOST_CALLS
}

/// Whether there is room for one client's line more.
pub fn has_room<P>(lines: &[SocketPair<P>]) -> bool
    ensures { IsTrue result → length lines.now < most_lines + calls_in lines.now }
{
    lines.len() < MOST_LINES.saturating_add(calls_in(lines))
}

/// How many of the lines are clients': they stand in front of those of callouts.
#[inline(always)]
pub fn clients_in<P>(lines: &[SocketPair<P>]) -> usize
    ensures { result ≤ length lines.now }
{
    match lines.last() {
        Some(line) if is_call(line.number) => {
            lines.partition_point(|line| !is_call(line.number))
        }
        _ => lines.len(),
    }
}

/// The line of a callout, which goes on with this connection to the server, or with none.
pub fn line_of_call<P: Duplex>(alloc: Global, number: LineNo, peer: Option<P>) -> SocketPair<P>
    ensures number { result.number ≡ number }
    ensures down { result.down ≡ None }
    ensures fresh { IfSome result.up (λ up. up.waiting ≡ []) }
    ensures refused { result.refused ≡ is_none result.up }
    ensures peer { peer_of result.up ≡ peer }
{
    let mut line = SocketPair {
        number,
        down: None,
        up: None,
        refused: false,
        server_first: false,
        fault: None,
        is_short: false,
        is_due: false,
    };
    line.join(alloc, peer);
    line
}
