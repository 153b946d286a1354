// Numbers with a range, and names that are numbers.
ghost use Rattle.std.specs.Prelude.{◌≡◌, ◌≤◌, ◌<◌, ◌↔◌, ◌^◌, IsSome, IfSome};

use std::marker::Model;

/// The number of a worker, 1 to 8.
#[derive(Clone, Copy, PartialEq, Eq)]
pub struct WorkerNo {
    number: u8,
}

impl Model for WorkerNo {
    ghost use Rattle.std.specs.Prelude.{ℕ, ◌≤◌};

    ghost Value = { ℕ };

    ghost view = { λ a. a.number };

    ghost invariant = { λ a. (1 ≤ a.number) × (a.number ≤ 8) };

    ghost inverse = { λ n. record { number = n } };
}

impl WorkerNo {
    /// The worker of a number from 1 to 8, and none for any other number.
    pub fn new(n: u8) -> Option<WorkerNo>
        ensures valid { IsSome result ↔ ((1 ≤ n) × (n ≤ 8)) }
        ensures value { IfSome result (λ w. w ≡ n) }
    {
        if (1..=8).contains(&n) {
            Some(WorkerNo { number: n })
        } else {
            None
        }
    }

    /// The number, 1 to 8.
    pub fn get(self) -> u8
        ensures number { result ≡ self }
        ensures range { (1 ≤ result) × (result ≤ 8) }
    {
        self.number
    }
}

/// The number of a VM, 0 to 15, in the order of the configuration.
#[derive(Clone, Copy, PartialEq, Eq)]
pub struct VmNo {
    number: u8,
}

impl Model for VmNo {
    ghost use Rattle.std.specs.Prelude.{ℕ, ◌≤◌};

    ghost Value = { ℕ };

    ghost view = { λ a. a.number };

    ghost invariant = { λ a. a.number ≤ 15 };

    ghost inverse = { λ n. record { number = n } };
}

impl VmNo {
    /// The VM of a number from 0 to 15, and none for any other number.
    pub fn new(n: u8) -> Option<VmNo>
        ensures valid { IsSome result ↔ (n ≤ 15) }
        ensures value { IfSome result (λ v. v ≡ n) }
    {
        if n <= 15 {
            Some(VmNo { number: n })
        } else {
            None
        }
    }

    /// The number, 0 to 15.
    pub fn get(self) -> u8
        ensures number { result ≡ self }
        ensures range { result ≤ 15 }
    {
        self.number
    }
}

/// The number of a line (a downstream connection), from 1.
#[derive(Clone, Copy, PartialEq, Eq, PartialOrd, Ord)]
pub struct LineNo {
    number: u32,
}

impl Model for LineNo {
    ghost use Rattle.std.specs.Prelude.{ℕ, ◌≤◌};

    ghost Value = { ℕ };

    ghost view = { λ a. a.number };

    ghost invariant = { λ a. 1 ≤ a.number };

    ghost inverse = { λ n. record { number = n } };
}

impl LineNo {
    /// The line of a number from 1, and none for 0.
    pub fn new(n: u32) -> Option<LineNo>
        ensures valid { IsSome result ↔ (1 ≤ n) }
        ensures value { IfSome result (λ l. l ≡ n) }
    {
        if n >= 1 {
            Some(LineNo { number: n })
        } else {
            None
        }
    }

    /// The number, from 1.
    pub fn get(self) -> u32
        ensures number { result ≡ self }
        ensures range { (1 ≤ result) × (result < 2 ^ 32) }
    {
        self.number
    }
}

/// The id of a context of one VM.
#[derive(Clone, Copy, Debug, PartialEq, Eq, PartialOrd, Ord)]
pub struct ContextId {
    number: u32,
}

impl Model for ContextId {
    ghost use Rattle.std.specs.Prelude.{ℕ};

    ghost Value = { ℕ };

    ghost view = { λ a. a.number };

    ghost inverse = { λ n. record { number = n } };
}

impl ContextId {
    /// The context of this number.
    pub fn new(n: u32) -> ContextId
        ensures { result ≡ n }
    {
        ContextId { number: n }
    }

    /// The number.
    pub fn get(self) -> u32
        ensures { result ≡ self }
    {
        self.number
    }
}

/// The id of a shared queue: its VM's number times 2^24, and its place from 1.
#[derive(Clone, Copy, Debug, PartialEq, Eq, PartialOrd, Ord)]
pub struct QueueId {
    number: u32,
}

impl Model for QueueId {
    ghost use Rattle.std.specs.Prelude.{ℕ};

    ghost Value = { ℕ };

    ghost view = { λ a. a.number };

    ghost inverse = { λ n. record { number = n } };
}

impl QueueId {
    /// The queue of this number.
    pub fn new(n: u32) -> QueueId
        ensures { result ≡ n }
    {
        QueueId { number: n }
    }

    /// The number.
    pub fn get(self) -> u32
        ensures { result ≡ self }
    {
        self.number
    }
}
