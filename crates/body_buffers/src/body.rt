// The bytes of a body.
ghost use Rattle.std.specs.Prelude.{◌≡◌, ◌≤◌, ◌<◌, ◌+◌, ◌↔◌, ◌++◌, [], length, take, drop, IfOk, OnOk, OnErr, Err, IsTrue};
ghost use Rattle.body_buffers.specs.Bodies.{spliced, part_of, IsOver, body_limit};
ghost use Rattle.body_buffers.specs.declared.end.BodyEnd.TheVariants as end;

use crate::end::BodyEnd;
use crate::pieces::{close, copied, put_part, put_parts, splice};
use bytes::Bytes;
use gate_base::{Octets, OutOfMemory};
use std::alloc::Global;
use std::marker::Model;

/// How many bytes a body may have.
const BODY_LIMIT: usize = 1_048_576;

/// From how many bytes on a piece is one of its own, and is not copied where it is shared.
const PIECE_SIZE: usize = 1_024;

/// The bytes of a body that are held, at most 1,048,576: a rope of shared pieces. Clauses see the list of its bytes.
///
/// Pieces of 1,024 bytes or more are kept as they are; shorter ones are copied behind the last of the bytes that are not shared. There are
/// 1,024 pieces at most: where splices have made many, or have taken out 1,048,576 bytes, which what is left of their pieces may keep
/// in memory, all are joined.
#[derive(Drop)]
pub struct Body {
    /// Pieces with the first bytes, none of them empty.
    pieces: Vec<Bytes>,
    /// How many bytes the pieces have.
    sum: usize,
    /// How many bytes splices took out of the pieces since they were joined.
    cut: usize,
    /// The bytes behind the pieces.
    last: Vec<u8>,
}

impl Model for Body {
    ghost use Rattle.std.specs.Prelude.{List, ℕ, ◌++◌};
    ghost use Rattle.std.specs.List.{concat};
    ghost use Rattle.body_buffers.specs.Pieces.{IsRope};

    ghost Value = { List ℕ };

    ghost view = { λ b. concat b.pieces.items ++ b.last.items };

    ghost invariant = { λ b. IsRope b.pieces.items b.sum b.last.items };
}

impl Body {
    /// No bytes. It takes no memory.
    pub fn new(alloc: Global) -> Self
        ensures { result ≡ [] }
    {
        Body {
            pieces: Vec::new(alloc),
            sum: 0,
            cut: 0,
            last: Vec::new(alloc),
        }
    }

    /// How many bytes there are.
    pub fn len(&self) -> usize
        ensures number { result ≡ length self.now }
        ensures few { result ≤ body_limit }
    {
        self.sum + self.last.len()
    }

    /// Whether there is no byte.
    pub fn is_empty(&self) -> bool
        ensures { IsTrue result ↔ (self.now ≡ []) }
    {
        self.len() == 0
    }

    /// Whether a body may have so many bytes more.
    fn has_room(&self, size: usize) -> bool
        ensures { IsTrue result ↔ (length self.now + size ≤ body_limit) }
    {
        size <= BODY_LIMIT - self.len()
    }

    /// Puts a piece behind the others, for which there is room.
    fn add(&mut self, piece: Bytes) -> Result<(), OutOfMemory>
        requires some { 0 < length piece }
        requires room { length self.old + length piece ≤ body_limit }
        ensures ok { OnOk result (self.new ≡ self.old ++ piece) }
        ensures err { OnErr result (self.new ≡ self.old) }
    {
        let all = self.len();
        let size = piece.len();
        self.cut = close(&mut self.pieces, self.sum, &mut self.last, self.cut)?;
        self.sum = all;
        self.pieces.push(piece)?;
        self.sum += size;
        Ok(())
    }

    /// Puts bytes behind the last ones, for which there is room.
    fn extend(&mut self, piece: &[u8]) -> Result<(), OutOfMemory>
        requires { length self.old + length piece.now ≤ body_limit }
        ensures ok { OnOk result (self.new ≡ self.old ++ piece.now) }
        ensures err { OnErr result (self.new ≡ self.old) }
    {
        self.last.extend_from_slice(piece)?;
        Ok(())
    }

    /// Puts bytes at the end. They are copied once.
    pub fn push(&mut self, piece: &[u8]) -> Result<(), BodyEnd>
        ensures ok { OnOk result (self.new ≡ self.old ++ piece.now) }
        ensures over { (result ≡ Err end.OverLimit) ↔ IsOver (self.old ++ piece.now) }
        ensures err { OnErr result (self.new ≡ self.old) }
    {
        if !self.has_room(piece.len()) {
            return Err(BodyEnd::OverLimit);
        }
        if piece.len() < PIECE_SIZE {
            self.extend(piece)?;
            return Ok(());
        }
        let alloc = *self.last.allocator();
        self.add(Bytes::copy_from_slice(alloc, piece)?)?;
        Ok(())
    }

    /// Puts a shared piece at the end. It is copied only where it is short.
    pub fn push_shared(&mut self, piece: Bytes) -> Result<(), BodyEnd>
        ensures ok { OnOk result (self.new ≡ self.old ++ piece) }
        ensures over { (result ≡ Err end.OverLimit) ↔ IsOver (self.old ++ piece) }
        ensures err { OnErr result (self.new ≡ self.old) }
    {
        if !self.has_room(piece.len()) {
            return Err(BodyEnd::OverLimit);
        }
        if piece.len() < PIECE_SIZE {
            self.extend(piece.as_slice())?;
            return Ok(());
        }
        self.add(piece)?;
        Ok(())
    }

    /// Puts bytes in place of so many from a place on, among the pieces.
    fn cut_in(
        &mut self,
        alloc: Global,
        from: usize,
        size: usize,
        given: &[u8],
    ) -> Result<(), OutOfMemory>
        requires within { from + size ≤ length self.old }
        requires room { length self.old + length given.now ≤ body_limit + size }
        ensures ok { OnOk result (self.new ≡ spliced self.old from size given.now) }
        ensures err { OnErr result (self.new ≡ self.old) }
    {
        let all = self.len();
        self.cut = close(&mut self.pieces, self.sum, &mut self.last, self.cut)?;
        self.sum = all;
        splice(alloc, &mut self.pieces, from, size, given)?;
        self.sum = all - size + given.len();
        self.cut = self.cut.saturating_add(size);
        Ok(())
    }

    /// Puts bytes in place of those of a range. What of the range is past the end is cut off it.
    pub fn splice(
        &mut self,
        alloc: Global,
        start: usize,
        size: usize,
        given: &[u8],
    ) -> Result<(), BodyEnd>
        ensures ok { OnOk result (self.new ≡ spliced self.old start size given.now) }
        ensures over { (result ≡ Err end.OverLimit) ↔ IsOver (spliced self.old start size given.now) }
        ensures err { OnErr result (self.new ≡ self.old) }
    {
        let from = start.min(self.len());
        let cut = size.min(self.len() - from);
        if given.len() > BODY_LIMIT - (self.len() - cut) {
            return Err(BodyEnd::OverLimit);
        }
        if self.pieces.is_empty() && self.len() - cut + given.len() < PIECE_SIZE {
            self.last = copied(alloc, self.last.as_slice(), from, from + cut, given)?;
            return Ok(());
        }
        self.cut_in(alloc, from, cut, given)?;
        Ok(())
    }

    /// A copy of at most so many bytes from a place on.
    pub fn read(&self, alloc: Global, start: usize, most: usize) -> Result<Octets, OutOfMemory>
        requires { start ≤ length self.now }
        ensures { IfOk result (λ o. o ≡ part_of self.now start most) }
    {
        let many = most.min(self.len() - start);
        let mut out = Vec::with_capacity(alloc, many)?;
        put_parts(&mut out, self.pieces.as_slice(), start, many)?;
        let skip = start.saturating_sub(self.sum);
        let left = many - out.len();
        put_part(&mut out, self.last.as_slice(), skip, left)?;
        Ok(Octets::from_vec(out))
    }

    /// The bytes, moved out: none are left. It takes no memory.
    pub fn take(&mut self, alloc: Global) -> Body
        ensures taken { result ≡ self.old }
        ensures left { self.new ≡ [] }
    {
        std::mem::replace(self, Body::new(alloc))
    }

    /// The bytes as one piece, copied once where some of them are of shared pieces, and else moved.
    pub fn into_octets(self) -> Result<Octets, OutOfMemory>
        ensures { IfOk result (λ o. o ≡ self) }
    {
        if self.pieces.is_empty() {
            return Ok(Octets::from_vec(self.last));
        }
        let alloc = *self.last.allocator();
        self.read(alloc, 0, self.len())
    }
}
