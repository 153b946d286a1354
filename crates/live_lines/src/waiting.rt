// Bytes that wait until a connection takes them.
ghost use Rattle.std.specs.Prelude.{◌≡◌, ◌≤◌, ◌++◌, ◌↔◌, [], drop, length, OnOk, OnErr, IsTrue};

use gate_base::OutOfMemory;
use std::alloc::Global;
use std::marker::Model;

/// Bytes that wait until a connection takes them, in order. Clauses see them.
#[derive(Drop)]
pub struct UnsentBytes {
    bytes: Vec<u8>,
    /// So many of them were taken.
    taken: usize,
}

impl Model for UnsentBytes {
    ghost use Rattle.std.specs.Prelude.{List, ℕ, ◌≤◌, drop, length};

    ghost Value = { List ℕ };

    ghost view = { λ w. drop w.taken w.bytes.items };

    ghost invariant = { λ w. w.taken ≤ length w.bytes.items };
}

impl UnsentBytes {
    /// Nothing waits. It takes no memory.
    pub fn new(alloc: Global) -> Self
        ensures { result ≡ [] }
    {
        UnsentBytes {
            bytes: Vec::new(alloc),
            taken: 0,
        }
    }

    /// How many bytes wait.
    pub fn len(&self) -> usize
        ensures { result ≡ length self.now }
    {
        self.bytes.len() - self.taken
    }

    /// Whether nothing waits.
    pub fn is_empty(&self) -> bool
        ensures { IsTrue result ↔ (length self.now ≡ 0) }
    {
        self.len() == 0
    }

    /// The bytes that wait.
    pub fn as_slice(&self) -> &[u8]
        ensures { result.now ≡ self.now }
    {
        &self.bytes[self.taken..]
    }

    /// Puts bytes after those that wait, all or none.
    pub fn put(&mut self, alloc: Global, bytes: &[u8]) -> Result<(), OutOfMemory>
        ensures ok { OnOk result (self.new ≡ self.old ++ bytes.now) }
        ensures err { OnErr result (self.new ≡ self.old) }
    {
        if self.taken > self.bytes.len() / 2 {
            self.pack(alloc)?;
        }
        self.extend(bytes)
    }

    /// Puts bytes at the end.
    fn extend(&mut self, bytes: &[u8]) -> Result<(), OutOfMemory>
        ensures ok { OnOk result (self.new ≡ self.old ++ bytes.now) }
        ensures err { OnErr result (self.new ≡ self.old) }
    {
        self.bytes.extend_from_slice(bytes)
    }

    /// Lets the bytes go that were taken.
    fn pack(&mut self, alloc: Global) -> Result<(), OutOfMemory>
        ensures { self.new ≡ self.old }
    {
        let left = Vec::from_slice(alloc, &self.bytes[self.taken..])?;
        self.bytes = left;
        self.taken = 0;
        Ok(())
    }

    /// The first so many were taken.
    pub fn take(&mut self, n: usize)
        requires { n ≤ length self.old }
        ensures { self.new ≡ drop n self.old }
    {
        self.taken += n;
    }
}
