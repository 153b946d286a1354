//! The operators with two operands, without a size.

/// A relation, which is 1 where it holds and 0 where not.
#[derive(Clone, Copy, PartialEq, Eq)]
pub enum Relation {
    Eq,
    Ne,
    LtS,
    LtU,
    GtS,
    GtU,
    LeS,
    LeU,
    GeS,
    GeU,
}

/// Arithmetic modulo 2 to the size in bits, quotients and remainders.
#[derive(Clone, Copy, PartialEq, Eq)]
pub enum Arithmetic {
    Add,
    Sub,
    Mul,
    DivS,
    DivU,
    RemS,
    RemU,
}

/// An operation bit by bit.
#[derive(Clone, Copy, PartialEq, Eq)]
pub enum Bitwise {
    And,
    Or,
    Xor,
}

/// A shift or a rotation, by a count modulo the size in bits.
#[derive(Clone, Copy, PartialEq, Eq)]
pub enum Shift {
    Shl,
    ShrS,
    ShrU,
    Rotl,
    Rotr,
}

/// An operator with two operands, whatever their size.
#[derive(Clone, Copy, PartialEq, Eq)]
pub enum Operator {
    Relation(Relation),
    Arithmetic(Arithmetic),
    Bitwise(Bitwise),
    Shift(Shift),
}
