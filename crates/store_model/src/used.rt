// What a store may hold.

/// Keys plus queues of one store, at most.
pub const MOST_NAMES: u64 = 65_536;

/// Bytes of keys, values, names and items of one store, at most.
pub const MOST_BYTES: u64 = 67_108_864;

/// Items of one queue, at most.
pub const MOST_ITEMS: u64 = 1_024;

/// Notices owed for one queue, at most.
pub const MOST_NOTICES: u64 = 1_024;

/// The last number that a Set draws.
pub const MOST_NUMBER: u32 = 4_294_967_295;

/// Metrics of one VM name, at most.
pub const MOST_METRICS: u64 = 64;

/// What a part of a store uses of its limits.
#[derive(Clone, Copy, PartialEq, Eq)]
pub struct Used {
    /// How many keys or queues there are.
    pub names: u64,
    /// The bytes of keys and values, or of names and items.
    pub bytes: u64,
}

impl Used {
    ghost use Rattle.std.specs.Prelude.{◌≡◌};
    ghost use Rattle.store_model.specs.Limits.{fits, IsWithin};

    /// Whether this part and another one are within the limits together.
    pub fn fits_beside(self, other: Used) -> bool
        requires { IsWithin other }
        ensures { result ≡ fits self other }
    {
        self.names <= MOST_NAMES - other.names && self.bytes <= MOST_BYTES - other.bytes
    }
}
