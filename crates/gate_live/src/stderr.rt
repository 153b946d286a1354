// Lines for standard error, which a reader that does not read must not stop.
ghost use Rattle.std.specs.Prelude.{◌≡◌, ◌≤◌, ◌<◌, ℕ, Bool, List, Option, true, false, IsTrue, length, take};
ghost use Rattle.gate_io.specs.Told.{Gains};
ghost use Rattle.gate_live.specs.Logged.{Drops, Writes, end_of};

use libc::net::{POLLOUT, poll};
use libc::types::pollfd;
use std::str;

/// So many bytes standard error takes without waiting where it takes any.
const PAGE: usize = 4096;

/// Standard error.
const STDERR: i32 = 2;

/// What lines of the log go to.
pub trait LogStream {
    /// All bytes that were written on it so far, in order, where told.
    ghost logged: { Self → Option (List ℕ) };

    /// It refuses a piece, as far as is known.
    ghost refuses: { Self → Type 0 };

    /// Writes a piece of a line, of at most 4,096 bytes. False says that nothing of it was written: it would wait.
    fn put_piece(&mut self, piece: &[u8]) -> bool
        requires { length piece.now ≤ 4096 }
        ensures put { IsTrue result → Gains (logged self.old) piece.now (logged self.new) }
        ensures none { result ≡ false → logged self.new ≡ logged self.old }
        ensures refused { result ≡ false → refuses self.new };
}

// Of standard error nothing is known.
impl<R: Eprint> LogStream for R {
    ghost use Rattle.std.specs.Prelude.{None};

    ghost logged = { λ _. None };

    ghost refuses = { λ _. Unit {0} };

    fn put_piece(&mut self, piece: &[u8]) -> bool {
        if !takes() {
            return false;
        }
        if let Ok(piece) = str::from_utf8(piece) {
            let _ = self.eprint(piece);
        }
        true
    }
}

/// Whether standard error takes bytes without waiting.
fn takes() -> bool {
    let mut asked = [pollfd {
        fd: STDERR,
        events: POLLOUT,
        revents: 0,
    }];
    poll(&mut asked, 0) > 0 && asked[0].revents & POLLOUT != 0
}

/// Ends the last line, where it was cut off. False says that it still is.
fn end_last<R: LogStream>(rt: &mut R, is_cut: &mut bool) -> bool
    ensures ended { IsTrue result → Gains (R.logged rt.old) (end_of is_cut.old) (R.logged rt.new) }
    ensures whole { IsTrue result → is_cut.new ≡ false }
    ensures none { result ≡ false → R.logged rt.new ≡ R.logged rt.old }
    ensures was { result ≡ false → is_cut.old ≡ true }
    ensures still { result ≡ false → is_cut.new ≡ true }
    ensures refused { result ≡ false → R.refuses rt.new }
{
    if !*is_cut {
        return true;
    }
    if !rt.put_piece(b"\n") {
        return false;
    }
    *is_cut = false;
    true
}

/// Writes pieces of a line, up to the first that is refused. It answers how many bytes of the line were written.
#[tactic(auto, using(crate::proofs::Logged::piece_more))]
fn put_pieces<R: LogStream>(rt: &mut R, line: &[u8]) -> usize
    ensures bound { result ≤ length line.now }
    ensures gained { Gains (R.logged rt.old) (take result line.now) (R.logged rt.new) }
    ensures refused { result < length line.now → R.refuses rt.new }
{
    let mut at = 0;
    while at < line.len() {
        let end = at + PAGE.min(line.len() - at);
        if !rt.put_piece(&line[at..end]) {
            return at;
        }
        at = end;
    }
    at
}

/// Writes a line, after an end of line where the last one was cut off. False says that it was dropped: not all of it was taken at once. Where a part was,
/// that line is cut off.
#[tactic(auto, using(crate::proofs::Logged::writes_all, crate::proofs::Logged::drops_part, crate::proofs::Logged::drops_none))]
pub fn put_line<R: LogStream>(rt: &mut R, line: &[u8], is_cut: &mut bool) -> bool
    ensures written { IsTrue result → Writes R.logged rt.old is_cut.old line.now rt.new is_cut.new }
    ensures dropped { result ≡ false → Drops R.logged R.refuses rt.old is_cut.old line.now rt.new is_cut.new }
{
    if !end_last(rt, is_cut) {
        return false;
    }
    let count = put_pieces(rt, line);
    if count < line.len() {
        *is_cut = count > 0;
        return false;
    }
    true
}
