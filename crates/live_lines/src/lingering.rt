// Connections that the worker has closed, and that are not over.
ghost use Rattle.std.specs.Prelude.{◌≡◌, []};
ghost use Rattle.live_lines.specs.Lasting.{Lasts};
ghost use Rattle.live_lines.specs.Waiting.{GoesOn};

use crate::duplex::{Duplex, Heard};
use crate::room::ReadBuffer;
use crate::upstream::flush;
use crate::waiting::UnsentBytes;
use mio::Token;

/// How long a connection lingers of which nothing comes, in nanoseconds.
pub const LINGER: u64 = 1_000_000_000;

/// How long a client lingers at most, whatever comes of it, in nanoseconds.
pub const LINGER_MOST: u64 = 30_000_000_000;

/// So many connections linger at most.
pub const MOST_LINGERING: usize = 256;

/// So many bytes may wait for a connection that is closed. One for which more waits is dropped at once.
pub const MOST_LEFT: usize = 1_048_576;

/// So often a connection is read, between two questions to the system.
const READS: u32 = 4;

/// A connection that the worker has closed. What waits for it is sent on, and then its end. What it still sends is dropped, so
/// that the peer reads what it was sent.
#[derive(Drop)]
pub struct Lingering<P> {
    pub token: Token,
    pub peer: P,
    pub waiting: UnsentBytes,
    /// The moment at which it is dropped where nothing more comes of it.
    pub until: u64,
    /// The moment at which it is dropped whatever comes of it.
    pub last: u64,
}

impl<P: Duplex> Lingering<P> {
    /// Writes what waits as far as there is room, and the end after it.
    #[tactic(auto, using(crate::proofs::Hearing::goes_on_none))]
    fn flush(&mut self)
        ensures goes_on { GoesOn (P.took self.old.peer) self.old.waiting [] (P.took self.new.peer) self.new.waiting }
        ensures gave { P.gave self.new.peer ≡ P.gave self.old.peer }
        ensures until { self.new.until ≡ self.old.until }
        ensures last { self.new.last ≡ self.old.last }
    {
        if self.waiting.is_empty() {
            return;
        }
        flush(&mut self.peer, &mut self.waiting);
        if self.waiting.is_empty() {
            self.peer.finish();
        }
    }

    /// Reads once, as of this moment, and drops what came. False says that the connection is lost.
    #[tactic(auto, using(crate::proofs::Lasting::lasts_after))]
    fn drop_some(&mut self, room: &mut ReadBuffer, now: u64) -> bool
        ensures lasts { Lasts P.gave now self.old self.new }
        ensures last { self.new.last ≡ self.old.last }
        ensures waiting { self.new.waiting ≡ self.old.waiting }
        ensures took { P.took self.new.peer ≡ P.took self.old.peer }
    {
        match self.peer.read(room) {
            Heard::Bytes(_) => {
                self.until = self.last.min(now.saturating_add(LINGER));
                true
            }
            Heard::Nothing | Heard::End => true,
            Heard::Lost => false,
        }
    }

    /// Sends on what waits, and drops what the peer sent, as of this moment. After bytes that came it lasts for a second more, to its last moment at
    /// most; where none came, no longer than before. False says that it is over.
    #[tactic(auto, using(crate::proofs::Lasting::lasts_same, crate::proofs::Lasting::lasts_more))]
    pub fn goes_on(&mut self, room: &mut ReadBuffer, now: u64) -> bool
        ensures goes_on { GoesOn (P.took self.old.peer) self.old.waiting [] (P.took self.new.peer) self.new.waiting }
        ensures lasts { Lasts P.gave now self.old self.new }
        ensures last { self.new.last ≡ self.old.last }
    {
        self.flush();
        for _ in 0..READS {
            if self.peer.is_broken() {
                return false;
            }
            if self.peer.is_ended() {
                return !self.waiting.is_empty();
            }
            if !self.peer.is_readable() {
                return true;
            }
            if !self.drop_some(room, now) {
                return false;
            }
        }
        true
    }

    /// Whether more of it may be there to read, of which the system tells nothing more.
    pub fn is_waiting(&self) -> bool {
        self.peer.is_readable() && !self.peer.is_broken()
    }
}
