// A connection to a peer.
ghost use Rattle.std.specs.Prelude.{◌≡◌, ◌≤◌, ◌&&◌, true, not, length, IsTrue};
ghost use Rattle.live_lines.specs.Heard.{IsHeard, OnEndHeard};

use crate::duplex::{Duplex, Heard};
use crate::options::reset;
use crate::room::ReadBuffer;
use mio::event::Event as Readiness;
use mio::net::TcpStream;
use mio::{Interest, Registry, Token};
use std::io;
use std::io::{ErrorKind, Read, Write};
use std::net::Shutdown;

/// The most bytes that one event brings.
const MOST_BYTES: usize = 16_384;

/// A connection, and what its socket is ready for as far as is known. The system tells a change once, so what it told
/// stands until a call would have to wait.
#[derive(Drop)]
pub struct Peer {
    stream: TcpStream,
    /// Something may be there to read.
    readable: bool,
    /// The peer's end stands after what is there to read.
    ending: bool,
    /// There may be room to write.
    writable: bool,
    /// A write took less than its piece, which was not told to be over.
    short: bool,
    /// It is not yet known to stand.
    joining: bool,
    /// A call on it failed.
    broken: bool,
    /// The peer's end was read.
    ended: bool,
    /// It gave some bytes.
    given: bool,
    /// The peer itself refused it.
    turned_away: bool,
}

impl Peer {
    /// The peer's end was read.
    fn end(&mut self) -> Heard
        ensures heard { IsHeard result }
        ensures ended { OnEndHeard (self.new.ended ≡ true) result }
    {
        self.ended = true;
        if self.broken { Heard::Lost } else { Heard::End }
    }

    /// Nothing is there to read.
    fn blocked(&mut self) -> Heard
        ensures heard { IsHeard result }
        ensures ended { OnEndHeard (self.new.ended ≡ true) result }
    {
        self.readable = false;
        if self.broken {
            Heard::Lost
        } else {
            Heard::Nothing
        }
    }

    /// Writes to a socket in which there may be room. It stands apart, so that it costs next to nothing to offer bytes to one in which there is none.
    #[inline(never)]
    fn write_on(&mut self, bytes: &[u8]) -> usize
        ensures bound { result ≤ length bytes.now }
        ensures ready { IsTrue (self.old.readable && not self.old.ended) → IsTrue (self.new.readable && not self.new.ended) }
    {
        match self.stream.write(bytes) {
            Ok(n) => {
                if n < bytes.len() {
                    self.writable = false;
                    self.short = true;
                } else {
                    self.joining = false;
                    self.short = false;
                }
                n
            }
            Err(e) if e.kind() == ErrorKind::WouldBlock => {
                self.writable = false;
                self.short = true;
                0
            }
            Err(e) if e.kind() == ErrorKind::Interrupted => {
                self.short = true;
                0
            }
            Err(e) => {
                self.turned_away = e.kind() == ErrorKind::ConnectionRefused;
                self.broken = true;
                self.readable = true;
                bytes.len()
            }
        }
    }
}

// A socket tells nothing of what it gives and takes, and of a read that its end is kept. What is written to a broken connection is dropped.
impl Duplex for Peer {
    ghost use Rattle.std.specs.Prelude.{◌≡◌, ◌&&◌, true, not, None};
    ghost use Rattle.live_lines.specs.Heard.{OnEndHeard};

    ghost gave = { λ _. None };

    ghost took = { λ _. None };

    ghost ready = { λ p. p.readable && not p.ended };

    ghost reads = { λ old heard new. OnEndHeard (new.ended ≡ true) heard };

    ghost broken = { λ p. p.broken };

    ghost again = { λ p. (p.short && p.writable) && not p.joining };

    fn over(
        stream: TcpStream,
        registry: &Registry,
        token: Token,
        joining: bool,
    ) -> io::Result<Peer> {
        let mut stream = stream;
        let _ = stream.set_nodelay(true);
        registry.register(&mut stream, token, Interest::READABLE | Interest::WRITABLE)?;
        Ok(Peer {
            stream,
            readable: !joining,
            ending: false,
            writable: true,
            short: false,
            joining,
            broken: false,
            ended: false,
            given: false,
            turned_away: false,
        })
    }

    fn note(&mut self, told: &Readiness) {
        if told.is_readable() {
            self.readable = true;
        }
        if told.is_read_closed() {
            self.readable = true;
            self.ending = true;
        }
        if told.is_writable() {
            self.writable = true;
        }
        if told.is_error() || told.is_write_closed() {
            if let Ok(Some(e)) = self.stream.take_error() {
                self.turned_away = e.kind() == ErrorKind::ConnectionRefused;
            }
            self.broken = true;
            self.readable = true;
        } else if told.is_writable() {
            self.joining = false;
        }
    }

    fn is_broken(&self) -> bool {
        self.broken
    }

    fn is_refused(&self) -> bool {
        self.joining && self.broken
    }

    fn is_readable(&self) -> bool {
        self.readable && !self.ended
    }

    fn is_ended(&self) -> bool {
        self.ended
    }

    #[inline(always)]
    fn is_quiet(&self) -> bool {
        let again = self.short && self.writable && !self.joining;
        !self.broken && !self.is_readable() && !again
    }

    fn has_room_again(&mut self) -> bool {
        let again = self.short && self.writable && !self.joining;
        if again {
            self.short = false;
        }
        again
    }

    fn move_to(&mut self, registry: &Registry, token: Token) -> bool {
        let both = Interest::READABLE | Interest::WRITABLE;
        registry.reregister(&mut self.stream, token, both).is_ok()
    }

    fn finish(&self) {
        let _ = self.stream.shutdown(Shutdown::Write);
    }

    fn reset(&self) {
        reset(&self.stream);
    }

    fn has_given(&self) -> bool {
        self.given
    }

    fn is_turned_away(&self) -> bool {
        self.turned_away
    }

    fn read(&mut self, room: &mut ReadBuffer) -> Heard {
        match self.stream.read(room.bytes.as_mut_slice()) {
            Ok(0) => self.end(),
            Ok(n) => {
                // Less than there was room for is all that was there, unless the end stands after it.
                if n < MOST_BYTES && !self.ending {
                    self.readable = false;
                }
                self.given = true;
                Heard::Bytes(n)
            }
            Err(e) if e.kind() == ErrorKind::WouldBlock => self.blocked(),
            Err(e) if e.kind() == ErrorKind::Interrupted => Heard::Nothing,
            Err(_) => Heard::Lost,
        }
    }

    #[inline(always)]
    fn write(&mut self, bytes: &[u8]) -> usize {
        if self.broken {
            return bytes.len();
        }
        if !self.writable {
            self.short = true;
            return 0;
        }
        self.write_on(bytes)
    }
}
