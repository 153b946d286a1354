// The text that no item has used.
ghost use Rattle.std.specs.Prelude.{◌≡◌, ◌≤◌, [], ◌++◌, length, drop, OnOk, OnErr};

use gate_base::OutOfMemory;
use std::alloc::Global;
use std::marker::Model;

/// A text that comes at its end and is used at its front. Clauses see what is left of it.
#[derive(Drop)]
pub(crate) struct Unread {
    bytes: Vec<u8>,
    /// How many bytes at the front are used.
    used: usize,
}

impl Model for Unread {
    ghost use Rattle.std.specs.Prelude.{List, ℕ, drop, ◌≤◌, vec_len};

    ghost Value = { List ℕ };

    ghost view = { λ u. drop u.used u.bytes.items };

    ghost invariant = { λ u. u.used ≤ vec_len u.bytes };
}

/// Takes so many bytes off the front of a vector.
fn drop_front(bytes: &mut Vec<u8>, count: usize)
    requires { count ≤ length bytes.old.items }
    ensures { bytes.new.items ≡ drop count bytes.old.items }
{
    let left = bytes.len() - count;
    bytes.copy_within(count.., 0);
    bytes.truncate(left);
}

impl Unread {
    /// No text. It takes no memory.
    pub(crate) fn new(alloc: Global) -> Self
        ensures { result ≡ [] }
    {
        Unread {
            bytes: Vec::new(alloc),
            used: 0,
        }
    }

    /// What is left.
    pub(crate) fn as_slice(&self) -> &[u8]
        ensures { result.now ≡ self.now }
    {
        &self.bytes.as_slice()[self.used..]
    }

    /// Puts a piece at the end. Where more than half of what is kept was used, that is given up first, so each byte is moved
    /// at most twice.
    pub(crate) fn push(&mut self, piece: &[u8]) -> Result<(), OutOfMemory>
        ensures ok { OnOk result (self.new ≡ self.old ++ piece.now) }
        ensures err { OnErr result (self.new ≡ self.old) }
    {
        if self.used > self.bytes.len() - self.used {
            drop_front(&mut self.bytes, self.used);
            self.used = 0;
        }
        self.bytes.extend_from_slice(piece)
    }

    /// Uses so many bytes.
    pub(crate) fn use_up(&mut self, count: usize)
        requires { count ≤ length self.old }
        ensures { self.new ≡ drop count self.old }
    {
        self.used += count;
    }
}
