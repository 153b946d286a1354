// Places in the chunked coding, and the next byte of data.
ghost use Rattle.std.specs.Prelude.{◌≡◌, ◌≤◌, ◌+◌, ◌<◌, ◌^◌, length};
ghost use Rattle.h1_model.specs.Chunks.{behind_size, behind_data, sought_after, sought};
ghost use Rattle.h1_chunks.specs.Seen.{seen_size, SizeWithin, seen_place, seen_sought, SoughtWithin};

use crate::size::{SizeStep, size_step};

/// What is due in a chunked body.
#[derive(Clone, Copy, PartialEq, Eq)]
pub enum ChunkState {
    /// A size line.
    SizeLine,
    /// So many bytes of a chunk's data, and then CR LF.
    Inside(u64),
    /// The trailer section, after the last chunk's line.
    Section,
    /// Nothing, after the body's end.
    Over,
}

/// What a text has next, from a place on.
#[derive(Clone, Copy)]
pub enum Sought {
    /// After `at` bytes of the coding a byte of data, of a chunk of which `left` bytes are left.
    Data { at: usize, left: u64 },
    /// After `at` bytes, the last chunk's line with them, a trailer section.
    Section { at: usize },
    /// Its front, and no more.
    Waiting,
    /// What no bytes that follow can make the coding.
    Malformed,
}

/// What stands after a size line.
fn behind_size(text: &[u8], step: SizeStep) -> Sought
    requires { SizeWithin (length text.now) step }
    ensures sought { seen_sought result ≡ behind_size text.now (seen_size step) }
    ensures within { SoughtWithin (length text.now) result }
{
    match step {
        SizeStep::Size { size: 0, used } => Sought::Section { at: used },
        SizeStep::Size { size, used } if used < text.len() => Sought::Data {
            at: used,
            left: size,
        },
        SizeStep::Size { .. } | SizeStep::Open => Sought::Waiting,
        SizeStep::Malformed => Sought::Malformed,
    }
}

/// The same behind two bytes more.
fn behind_two(sought: Sought, len: usize) -> Sought
    requires within { SoughtWithin len sought }
    requires room { 2 + len < 2 ^ 64 }
    ensures sought { seen_sought result ≡ sought_after 2 (seen_sought sought) }
    ensures within { SoughtWithin (2 + len) result }
{
    match sought {
        Sought::Data { at, left } => Sought::Data { at: 2 + at, left },
        Sought::Section { at } => Sought::Section { at: 2 + at },
        Sought::Waiting => Sought::Waiting,
        Sought::Malformed => Sought::Malformed,
    }
}

/// What stands after the last byte of a chunk's data: CR LF, and then a size line.
fn behind_data(text: &[u8]) -> Sought
    ensures sought { seen_sought result ≡ behind_data text.now }
    ensures within { SoughtWithin (length text.now) result }
{
    match text {
        [] | [b'\r'] => Sought::Waiting,
        [b'\r', b'\n', rest @ ..] => behind_two(behind_size(rest, size_step(rest)), rest.len()),
        _ => Sought::Malformed,
    }
}

impl ChunkState {
    /// What a text has next, from the place on.
    pub fn sought(self, text: &[u8]) -> Sought
        ensures sought { seen_sought result ≡ sought (seen_place self) text.now }
        ensures within { SoughtWithin (length text.now) result }
    {
        match self {
            ChunkState::SizeLine => behind_size(text, size_step(text)),
            ChunkState::Inside(0) => behind_data(text),
            ChunkState::Inside(left) if !text.is_empty() => Sought::Data { at: 0, left },
            ChunkState::Section => Sought::Section { at: 0 },
            ChunkState::Inside(_) | ChunkState::Over => Sought::Waiting,
        }
    }
}
