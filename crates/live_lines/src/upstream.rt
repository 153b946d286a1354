// A connection to the upstream server.
ghost use Rattle.std.specs.Prelude.{◌≡◌, ◌≤◌, ◌⊎◌, [], length, take, nat_le, IsTrue, IfOk, OnOk, OnErr};
ghost use Rattle.gate_io.specs.Told.{Gains, GainsFront};
ghost use Rattle.live_lines.specs.Waiting.{GoesOn};

use crate::duplex::Duplex;
use crate::waiting::UnsentBytes;
use gate_base::OutOfMemory;
use mio::event::Event as Readiness;
use std::alloc::Global;

/// So many bytes that wait are enough.
const ENOUGH: usize = 65_536;

/// The connection of one exchange to the upstream server, and what waits until it takes it. It takes each piece whole, so
/// that nothing of a worker waits for it after the end of the exchange.
#[derive(Drop)]
pub struct Upstream<P> {
    pub peer: P,
    pub waiting: UnsentBytes,
}

/// Writes what waits, as far as there is room.
pub fn flush<P: Duplex>(peer: &mut P, waiting: &mut UnsentBytes)
    ensures goes_on { GoesOn (P.took peer.old) waiting.old [] (P.took peer.new) waiting.new }
    ensures gave { P.gave peer.new ≡ P.gave peer.old }
    ensures ready { IsTrue (P.ready peer.old) → IsTrue (P.ready peer.new) }
{
    let n = peer.write(waiting.as_slice());
    waiting.take(n);
}

/// Writes a piece where nothing waits that it would overtake: the answer is how many of its bytes went.
fn offer<P: Duplex>(peer: &mut P, waiting: &UnsentBytes, bytes: &[u8]) -> usize
    ensures bound { result ≤ length bytes.now }
    ensures took { Gains (P.took peer.old) (take result bytes.now) (P.took peer.new) }
    ensures gave { P.gave peer.new ≡ P.gave peer.old }
    ensures behind { (result ≡ 0) ⊎ (waiting.now ≡ []) }
{
    if waiting.is_empty() {
        peer.write(bytes)
    } else {
        0
    }
}

impl<P: Duplex> Upstream<P> {
    /// A connection for which nothing waits.
    pub fn new(alloc: Global, peer: P) -> Self
        ensures waiting { result.waiting ≡ [] }
        ensures peer { result.peer ≡ peer }
    {
        Upstream {
            peer,
            waiting: UnsentBytes::new(alloc),
        }
    }

    /// Takes a piece, whole. What the socket does not take waits. A refusal loses what the socket did not take of it.
    pub fn send(&mut self, alloc: Global, bytes: &[u8]) -> Result<usize, OutOfMemory>
        ensures whole { IfOk result (λ n. n ≡ length bytes.now) }
        ensures ok { OnOk result (GoesOn (P.took self.old.peer) self.old.waiting bytes.now (P.took self.new.peer) self.new.waiting) }
        ensures err { OnErr result (self.new.waiting ≡ self.old.waiting) }
        ensures gave { P.gave self.new.peer ≡ P.gave self.old.peer }
        ensures lost { OnErr result (GainsFront (P.took self.old.peer) bytes.now (P.took self.new.peer)) }
    {
        let n = offer(&mut self.peer, &self.waiting, bytes);
        self.waiting.put(alloc, &bytes[n..])?;
        Ok(bytes.len())
    }

    /// Writes what waits, as far as there is room.
    pub fn flush(&mut self)
        ensures goes_on { GoesOn (P.took self.old.peer) self.old.waiting [] (P.took self.new.peer) self.new.waiting }
        ensures gave { P.gave self.new.peer ≡ P.gave self.old.peer }
        ensures ready { IsTrue (P.ready self.old.peer) → IsTrue (P.ready self.new.peer) }
    {
        if !self.waiting.is_empty() {
            flush(&mut self.peer, &mut self.waiting);
        }
    }

    /// Whether so much waits that no more of the request is to be read.
    pub fn is_full(&self) -> bool
        ensures { result ≡ nat_le 65536 (length self.now.waiting) }
    {
        self.waiting.len() >= ENOUGH
    }

    /// Keeps what the system told, and writes what waits where there is room.
    pub fn note(&mut self, told: &Readiness)
        ensures goes_on { GoesOn (P.took self.old.peer) self.old.waiting [] (P.took self.new.peer) self.new.waiting }
        ensures gave { P.gave self.new.peer ≡ P.gave self.old.peer }
    {
        self.peer.note(told);
        self.flush();
    }
}
