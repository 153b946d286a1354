// The lengths of the names that a head's Connection lists.
ghost use Rattle.std.specs.Prelude.{◌≡◌, ◌≤◌, true, List, ℕ, length};
ghost use Rattle.h1_model.specs.Fields.{lists};
ghost use Rattle.h1_head.specs.Lengths.{IsBetween};

use h1_text::first_member;

/// A shortest and a longest length, between which names lie.
#[derive(Clone, Copy)]
pub struct Lengths {
    pub least: usize,
    pub most: usize,
}

impl Lengths {
    /// Those of no names.
    pub fn none() -> Self {
        Lengths {
            least: usize::MAX,
            most: 0,
        }
    }

    /// Whether a length lies between them.
    pub fn has(self, len: usize) -> bool
        ensures { IsBetween self len → result ≡ true }
    {
        self.least <= len && len <= self.most
    }

    /// Those that hold this length too.
    fn with_len(self, len: usize) -> Self
        ensures wider { (n : ℕ) → IsBetween self n → IsBetween result n }
        ensures has { IsBetween result len }
    {
        Lengths {
            least: self.least.min(len),
            most: self.most.max(len),
        }
    }

    /// Those that hold the length of each member of a value too.
    pub fn with_members(self, value: &[u8]) -> Self
        ensures wider { (n : ℕ) → IsBetween self n → IsBetween result n }
        ensures members { (name : List ℕ) → lists name value.now ≡ true → IsBetween result (length name) }
    {
        let mut lengths = self;
        let mut rest = Some(value);
        while let Some(list) = rest {
            let (member, after) = first_member(list);
            lengths = lengths.with_len(member.len());
            rest = after;
        }
        lengths
    }
}
