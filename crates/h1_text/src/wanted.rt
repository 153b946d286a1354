// Which members of values can be names that are looked for, by how they begin and how long they are.
ghost use Rattle.std.specs.Prelude.{◌≡◌, ◌<◌, ◌≤◌, ◌+◌, ℕ, Bool, true, false, List, [], length, slice_index, slice_index_or, option_copied, MatchOption, IfSome};
ghost use Rattle.std.specs.List.{list_any};
ghost use Rattle.h1_model.specs.Fields.{members};
ghost use Rattle.http_header.specs.Token.{lowercase};
ghost use Rattle.h1_text.specs.Members.{rest_members};
ghost use Rattle.h1_text.specs.Wanted.{first_of, shape_of, begins, has, CanBe, HasBlanks, IsLostOn, members_from, rest_len};

use crate::members::{comma_at, first_member};
use crate::names::byte_at;

/// How many shapes members have.
const SHAPE_COUNT: usize = 1_024;

/// How many bytes are looked at together.
const RUN: usize = 8;

/// What some names look like: a member that begins with no byte of theirs, or has no shape of theirs, is none of them.
#[derive(Clone, Copy)]
pub struct Wanted {
    /// Whether one begins with this byte, in any case of letters; the comma stands for the empty name, and blanks count as well.
    pub firsts: [bool; 256],
    /// Whether one has this shape.
    pub shapes: [bool; 1024],
}

/// The first byte, and a comma where there is none.
fn first_of(bytes: &[u8]) -> u8
    ensures { result ≡ first_of bytes.now }
{
    match bytes.first() {
        Some(byte) => *byte,
        None => b',',
    }
}

/// The shape of a name, in any case of letters: its first byte's last five bits, and its length, where all above 30 count as one.
fn shape_of(name: &[u8]) -> usize
    ensures value { result ≡ shape_of (lowercase name.now) }
    ensures within { result < 1024 }
{
    byte_at(name, 0) % 32 * 32 + name.len().min(31)
}

impl Wanted {
    /// What all members look like.
    pub fn all() -> Self
        ensures blanks { HasBlanks result }
        ensures all { (name : List ℕ) → CanBe result name }
    {
        Wanted {
            firsts: [true; 256],
            shapes: [true; SHAPE_COUNT],
        }
    }

    /// What no name looks like.
    pub fn none() -> Self
        ensures { HasBlanks result }
    {
        let mut firsts = [false; 256];
        firsts[b' ' as usize] = true;
        firsts[b'\t' as usize] = true;
        Wanted {
            firsts,
            shapes: [false; SHAPE_COUNT],
        }
    }

    /// Takes in what one name more looks like.
    pub fn add(&mut self, name: &[u8])
        ensures blanks { HasBlanks self.old → HasBlanks self.new }
        ensures kept { (other : List ℕ) → CanBe self.old other → CanBe self.new other }
        ensures added { CanBe self.new name.now }
    {
        let first = first_of(name);
        self.firsts[first.to_ascii_lowercase() as usize] = true;
        self.firsts[first.to_ascii_uppercase() as usize] = true;
        self.shapes[shape_of(name)] = true;
    }

    /// Whether a name begins as these bytes do.
    fn begins(&self, bytes: &[u8]) -> bool
        ensures { result ≡ begins self.now bytes.now }
    {
        self.firsts[first_of(bytes) as usize]
    }

    /// Whether none of the next eight bytes after a place begins a name, and there are eight.
    fn begins_none(&self, list: &[u8], at: usize) -> bool
        requires table { HasBlanks self.now }
        requires within { at ≤ length list.now }
        ensures { result ≡ true → (at + 8 < length list.now)
            × ((k : ℕ) → k < 8 → slice_index_or self.now.firsts (slice_index list.now (at + 1 + k)) true ≡ false) }
    {
        list.len() - at > RUN
            && !(self.firsts[list[at + 1] as usize]
                | self.firsts[list[at + 2] as usize]
                | self.firsts[list[at + 3] as usize]
                | self.firsts[list[at + 4] as usize]
                | self.firsts[list[at + 5] as usize]
                | self.firsts[list[at + 6] as usize]
                | self.firsts[list[at + 7] as usize]
                | self.firsts[list[at + 8] as usize])
    }

    /// What stands after the comma of a member that begins as no name does, and after those members after it of which no byte begins a name.
    fn behind_run<'t>(&self, list: &'t [u8]) -> Option<&'t [u8]>
        requires blanks { HasBlanks self.now }
        requires other { begins self.now list.now ≡ false }
        ensures members { (p : List ℕ → Bool) → IsLostOn self.now p → list_any p (rest_members (option_copied result)) ≡ list_any p (members list.now) }
        ensures shorter { rest_len (option_copied result) ≤ length list.now }
    {
        let mut at = 0;
        while self.begins_none(list, at) {
            at += RUN;
        }
        let end = at + comma_at(&list[at..]);
        if end < list.len() {
            Some(&list[end + 1..])
        } else {
            None
        }
    }

    /// The next member that can be a name, of those of a list that are left, and what stands after its comma.
    pub fn next<'t>(&self, list: Option<&'t [u8]>) -> Option<(&'t [u8], Option<&'t [u8]>)>
        requires { HasBlanks self.now }
        ensures members { (p : List ℕ → Bool) → IsLostOn self.now p → list_any p (members_from result) ≡ list_any p (rest_members (option_copied list.entry)) }
        ensures shorter { IfSome result (λ r. rest_len (option_copied r.1) < rest_len (option_copied list.entry)) }
    {
        let mut rest = list;
        while let Some(list) = rest {
            if self.begins(list) {
                let (member, after) = first_member(list);
                if self.shapes[shape_of(member)] {
                    return Some((member, after));
                }
                rest = after;
            } else {
                rest = self.behind_run(list);
            }
        }
        None
    }
}
