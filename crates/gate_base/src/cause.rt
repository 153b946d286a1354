// Why a WebAssembly run trapped.

/// The cause of a trap, one for each trap word.
#[derive(Clone, Copy, Debug, PartialEq, Eq)]
pub enum Cause {
    /// The instruction `unreachable` was reached.
    Unreachable,
    /// An integer was divided by zero.
    Divide,
    /// A signed division of the least number by -1.
    Overflow,
    /// A memory access outside the memory.
    Memory,
    /// An index outside the table, or an element that was never set.
    Table,
    /// An indirect call of a function of another type.
    Type,
    /// Too many frames or values would stand at once.
    Stack,
    /// The module called `proc_exit`.
    Exit,
}
