// A connection, from which bytes are read and to which they are written.
ghost use Rattle.std.specs.Prelude.{◌≡◌, ◌≤◌, ℕ, [], List, Bool, false, Option, length, take, IsTrue, IfOk, IfSome};
ghost use Rattle.gate_io.specs.Told.{Gains};
ghost use Rattle.live_lines.specs.Heard.{IsHeard, bytes_heard};
ghost use Rattle.live_lines.specs.declared.duplex.Heard.{Heard};

use crate::room::ReadBuffer;
use mio::event::Event as Readiness;
use mio::net::TcpStream;
use mio::{Registry, Token};
use std::io;

/// What a read gave.
pub enum Heard {
    /// So many bytes.
    Bytes(usize),
    /// The peer sends nothing more.
    End,
    /// The connection is gone.
    Lost,
    /// Nothing as yet.
    Nothing,
}

/// A connection, from which bytes are read and to which they are written.
pub trait Duplex: Drop {
    /// All bytes that it gave so far, in order, where told.
    ghost gave: { Self → Option (List ℕ) };

    /// All bytes that it took so far, in order, where told.
    ghost took: { Self → Option (List ℕ) };

    /// Whether something may be there to read.
    ghost ready: { Self → Bool };

    /// Whether a call on it failed, as far as is known.
    ghost broken: { Self → Bool };

    /// Whether there is room again after a write that took less than its piece, which was not told.
    ghost again: { Self → Bool };

    /// What a read of it may give, and what it leaves of it.
    ghost reads: { Self → Heard → Self → Type 0 };

    /// The connection over a stream, registered under a token. One that is `joining` was begun and is not known to stand.
    fn over(stream: TcpStream, registry: &Registry, token: Token, joining: bool) -> io::Result<Self>
        ensures gave { IfOk result (λ peer. IfSome (gave peer) (λ bytes. bytes ≡ [])) }
        ensures took { IfOk result (λ peer. IfSome (took peer) (λ bytes. bytes ≡ [])) };

    /// Reads what is there, at most 16,384 bytes.
    fn read(&mut self, room: &mut ReadBuffer) -> Heard
        ensures heard { IsHeard result }
        ensures gave { Gains (gave self.old) (bytes_heard room.new.bytes.items result) (gave self.new) }
        ensures kept { took self.new ≡ took self.old }
        ensures reads { reads self.old result self.new };

    /// Takes bytes from the front, as many as there is room for: the answer is how many. Those for a connection that is gone count
    /// as taken. One that may have something to read still may.
    fn write(&mut self, bytes: &[u8]) -> usize
        ensures bound { result ≤ length bytes.now }
        ensures took { Gains (took self.old) (take result bytes.now) (took self.new) }
        ensures kept { gave self.new ≡ gave self.old }
        ensures ready { IsTrue (ready self.old) → IsTrue (ready self.new) };

    /// Keeps what the system told.
    fn note(&mut self, told: &Readiness)
        ensures gave { gave self.new ≡ gave self.old }
        ensures took { took self.new ≡ took self.old };

    /// Whether a call on it failed.
    fn is_broken(&self) -> bool
        ensures { result ≡ broken self.now };

    /// Whether it was refused before it stood.
    fn is_refused(&self) -> bool;

    /// Whether something may be there to read.
    fn is_readable(&self) -> bool
        ensures { result ≡ ready self.now };

    /// Whether the peer's end was read.
    fn is_ended(&self) -> bool;

    /// Whether nothing is to be told of it: no call on it failed, nothing may be there to read, and no write that took less than its piece has room
    /// again.
    fn is_quiet(&self) -> bool
        ensures ready { IsTrue result → ready self.now ≡ false }
        ensures broken { IsTrue result → broken self.now ≡ false }
        ensures again { IsTrue result → again self.now ≡ false };

    /// Whether there is room again after a write that took less than its piece. It is told once.
    fn has_room_again(&mut self) -> bool
        ensures told { result ≡ again self.old }
        ensures gave { gave self.new ≡ gave self.old }
        ensures took { took self.new ≡ took self.old };

    /// Registers it under another token. False says that the system refused.
    fn move_to(&mut self, registry: &Registry, token: Token) -> bool
        ensures gave { gave self.new ≡ gave self.old }
        ensures took { took self.new ≡ took self.old };

    /// Tells the peer that nothing more comes.
    fn finish(&self);

    /// Tells the peer that the connection broke off.
    fn reset(&self);

    /// Whether it gave some bytes.
    fn has_given(&self) -> bool;

    /// Whether the peer itself refused it, as far as is known.
    fn is_turned_away(&self) -> bool;
}
