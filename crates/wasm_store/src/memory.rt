//! Memories (WebAssembly Core 1.0 section 4.2.8).

ghost use Rattle.std.specs.Prelude.{◌≡◌, ◌≤◌, ◌<◌, ◌+◌, ◌*◌, ◌%◌, length, replicate, Some, None, IfOk, IfSome, IfNone};
ghost use Rattle.wasm_syntax.specs.Memory.{load, store, written, bytes_at, copied, filled, page, pages_of, grow_answer, grown};
ghost use Rattle.wasm_store.specs.Memories.{IsWidth, IsWhole};

use gate_base::OutOfMemory;
use std::alloc::Global;
use std::marker::Model;

/// The bytes of a page.
pub const PAGE: usize = 65_536;

/// The bytes of an instance, a whole number of pages of 65,536. Clauses see the bytes, and the number of
/// pages that it never grows past. All that it may grow to is reserved from the start.
#[derive(Drop)]
pub struct Memory {
    bytes: Vec<u8>,
    most: u32,
}

impl Model for Memory {
    ghost use Rattle.std.specs.Prelude.{◌≤◌, ◌*◌};
    ghost use Rattle.std.specs.Vec.{vec_capacity};
    ghost use Rattle.wasm_store.specs.Memories.{Bounded, IsWhole};

    ghost Value = { Bounded };

    ghost view = { λ a. record { bytes = a.bytes.items; most = a.most } };

    ghost invariant = { λ a. IsWhole (record { bytes = a.bytes.items; most = a.most }) × (65536 * a.most ≤ vec_capacity a.bytes) };
}

/// Makes the range of so many bytes from `to` on what the range from `from` on is. What does not overlap is moved as a
/// whole.
fn move_range(bytes: &mut [u8], to: usize, from: usize, count: usize)
    requires source { from + count ≤ length bytes.old }
    requires destination { to + count ≤ length bytes.old }
    ensures { bytes.new ≡ written bytes.old to (bytes_at bytes.old from count) }
{
    if from + count <= to {
        let (low, high) = bytes.split_at_mut(to);
        high[..count].copy_from_slice(&low[from..from + count]);
    } else if to + count <= from {
        let (low, high) = bytes.split_at_mut(from);
        low[to..to + count].copy_from_slice(&high[..count]);
    } else {
        bytes.copy_within(from..from + count, to);
    }
}

/// Writes a byte so many times from a place on.
fn fill_range(bytes: &mut [u8], at: usize, v: u8, count: usize)
    requires { at + count ≤ length bytes.old }
    ensures { bytes.new ≡ written bytes.old at (replicate count v) }
{
    bytes[at..at + count].fill(v);
}

impl Memory {
    /// So many pages of zeros, of which there may never be more than `most`.
    pub(crate) fn new(alloc: Global, pages: u32, most: u32) -> Result<Memory, OutOfMemory>
        requires pages { pages ≤ most }
        requires most { most ≤ 256 }
        ensures bytes { IfOk result (λ m. m.bytes ≡ replicate (page * pages) 0) }
        ensures most { IfOk result (λ m. m.most ≡ most) }
        ensures whole { IfOk result IsWhole }
    {
        let mut bytes = Vec::with_capacity(alloc, most as usize * PAGE)?;
        bytes.resize(pages as usize * PAGE, 0)?;
        Ok(Memory { bytes, most })
    }

    /// How many pages there are.
    pub fn pages(&self) -> u32
        ensures is { result ≡ pages_of self.now.bytes }
        ensures whole { IsWhole self.now }
    {
        (self.bytes.len() / PAGE) as u32
    }

    /// The bytes.
    pub fn as_slice(&self) -> &[u8]
        ensures { result.now ≡ self.now.bytes }
    {
        self.bytes.as_slice()
    }

    /// The number of `width` bytes, 1, 2, 4 or 8, that stands at a place, the lowest byte first: none
    /// exactly where the access is outside. It takes no memory.
    pub fn load(&self, at: u64, width: u8) -> Option<u64>
        requires { IsWidth width }
        ensures { result ≡ load self.now.bytes at width }
    {
        let from = self.bytes.as_slice().get(at as usize..)?;
        match width {
            1 => Some(u64::from(*from.first()?)),
            2 => Some(u64::from(u16::from_le_bytes(*from.first_chunk::<2>()?))),
            4 => Some(u64::from(u32::from_le_bytes(*from.first_chunk::<4>()?))),
            8 => Some(u64::from_le_bytes(*from.first_chunk::<8>()?)),
            _ => unreachable!(),
        }
    }

    /// Writes the lowest `width` bytes of a number, 1, 2, 4 or 8 of them, at a place, the lowest first: none,
    /// with nothing changed, exactly where the access is outside. It takes no memory.
    pub fn store(&mut self, at: u64, width: u8, v: u64) -> Option<()>
        requires { IsWidth width }
        ensures some { IfSome result (λ _. store self.old.bytes at width v ≡ Some self.new.bytes) }
        ensures none { IfNone result ((store self.old.bytes at width v ≡ None) × (self.new.bytes ≡ self.old.bytes)) }
        ensures most { self.new.most ≡ self.old.most }
        ensures whole { IsWhole self.new }
    {
        let low = v.to_le_bytes();
        match width {
            1 => self.write(at, &low[..1]),
            2 => self.write(at, &low[..2]),
            4 => self.write(at, &low[..4]),
            8 => self.write(at, &low),
            _ => unreachable!(),
        }
    }

    /// Writes bytes from a place on: none, with nothing changed, exactly where they are not all inside. It takes
    /// no memory.
    pub fn write(&mut self, at: u64, bytes: &[u8]) -> Option<()>
        ensures some { IfSome result (λ _. (at + length bytes.now ≤ length self.old.bytes) × (self.new.bytes ≡ written self.old.bytes at bytes.now)) }
        ensures none { IfNone result ((length self.old.bytes < at + length bytes.now) × (self.new.bytes ≡ self.old.bytes)) }
        ensures most { self.new.most ≡ self.old.most }
        ensures whole { IsWhole self.new }
    {
        let from = at as usize;
        let size = self.bytes.len();
        if from > size || bytes.len() > size - from {
            return None;
        }
        self.bytes.as_mut_slice()[from..from + bytes.len()].copy_from_slice(bytes);
        Some(())
    }

    /// Copies so many bytes from one place on to another, where the two ranges may overlap: none, with nothing changed,
    /// exactly where one of them is not all inside (Core 2.0 section 4.4.7). It takes no memory.
    pub fn copy(&mut self, to: u32, from: u32, count: u32) -> Option<()>
        ensures some { IfSome result (λ _. copied self.old.bytes to from count ≡ Some self.new.bytes) }
        ensures none { IfNone result ((copied self.old.bytes to from count ≡ None) × (self.new.bytes ≡ self.old.bytes)) }
        ensures most { self.new.most ≡ self.old.most }
        ensures whole { IsWhole self.new }
    {
        let (to, from, count) = (to as usize, from as usize, count as usize);
        let size = self.bytes.len();
        if from + count > size || to + count > size {
            return None;
        }
        move_range(self.bytes.as_mut_slice(), to, from, count);
        Some(())
    }

    /// Writes the lowest byte of a number so many times from a place on: none, with nothing changed, exactly where the
    /// range is not all inside (Core 2.0 section 4.4.7). It takes no memory.
    pub fn fill(&mut self, at: u32, v: u32, count: u32) -> Option<()>
        ensures some { IfSome result (λ _. filled self.old.bytes at v count ≡ Some self.new.bytes) }
        ensures none { IfNone result ((filled self.old.bytes at v count ≡ None) × (self.new.bytes ≡ self.old.bytes)) }
        ensures most { self.new.most ≡ self.old.most }
        ensures whole { IsWhole self.new }
    {
        let (at, count) = (at as usize, count as usize);
        if at + count > self.bytes.len() {
            return None;
        }
        fill_range(self.bytes.as_mut_slice(), at, (v % 256) as u8, count);
        Some(())
    }

    /// Grows by so many pages of zeros, and answers how many there were: 4,294,967,295 with nothing
    /// changed exactly where there would be more than it may have. It takes no memory.
    pub fn grow(&mut self, by: u32) -> u32
        ensures answer { result ≡ grow_answer self.old.most self.old.bytes by }
        ensures bytes { self.new.bytes ≡ grown self.old.most self.old.bytes by }
        ensures most { self.new.most ≡ self.old.most }
        ensures whole { IsWhole self.new }
    {
        let old = self.pages();
        let size = u64::from(old) + u64::from(by);
        if size > u64::from(self.most) {
            return u32::MAX;
        }
        match self.bytes.resize(size as usize * PAGE, 0) {
            Ok(()) => old,
            Err(_) => unreachable!(),
        }
    }
}
