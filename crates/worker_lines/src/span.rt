// Places in a row, at which something may be due.
ghost use Rattle.std.specs.Prelude.{◌≡◌, ◌≤◌, ◌<◌, ℕ, true};
ghost use Rattle.worker_lines.specs.Stirring.{Covers};

/// Places in a row, none, or all that there are.
#[derive(Clone, Copy)]
pub struct Span {
    is_all: bool,
    is_any: bool,
    first: usize,
    last: usize,
}

impl Span {
    /// No place.
    pub fn none() -> Span {
        Span {
            is_all: false,
            is_any: false,
            first: 0,
            last: 0,
        }
    }

    /// All places.
    pub fn all() -> Span
        ensures { result.is_all ≡ true }
    {
        Span {
            is_all: true,
            is_any: false,
            first: 0,
            last: 0,
        }
    }

    /// These, and one place more.
    pub fn with(self, place: usize) -> Span
        ensures here { Covers result place }
        ensures others { (k : ℕ) → Covers self k → Covers result k }
        ensures all { result.is_all ≡ self.is_all }
    {
        if !self.is_any {
            return Span {
                is_all: self.is_all,
                is_any: true,
                first: place,
                last: place,
            };
        }
        Span {
            is_all: self.is_all,
            is_any: true,
            first: if place < self.first {
                place
            } else {
                self.first
            },
            last: if self.last < place { place } else { self.last },
        }
    }

    /// Whether these are all places that there are.
    pub fn is_all(self) -> bool
        ensures { result ≡ self.is_all }
    {
        self.is_all
    }

    /// Whether there is no place.
    pub fn is_none(self) -> bool
        ensures { result ≡ true → (k : ℕ) → Covers self k → ⊥ }
    {
        !self.is_all && !self.is_any
    }

    /// None is below this place.
    pub fn start(self) -> usize
        ensures { (k : ℕ) → Covers self k → result ≤ k }
    {
        if self.is_all { 0 } else { self.first }
    }

    /// The end of those that are below a bound.
    pub fn end(self, bound: usize) -> usize
        ensures below { result ≤ bound }
        ensures ends { (k : ℕ) → k < bound → Covers self k → k < result }
    {
        if self.is_all {
            return bound;
        }
        if !self.is_any {
            return 0;
        }
        if self.last < bound {
            self.last + 1
        } else {
            bound
        }
    }
}
