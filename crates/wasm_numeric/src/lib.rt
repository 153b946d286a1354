//! The integer operators of WebAssembly (Core 1.0 section 4.3, and of Core 2.0 sign extension) on the values of the machine.
#![tactic(auto)]

mod apply;
mod instr;
pub mod laws;
mod narrow;
mod op;
mod operator;
mod wide;

pub use apply::{apply1, apply2};
pub use instr::{Numeric, operator_of};
pub use op::{NumTrap, Op1, Op2};
pub use operator::{Arithmetic, Bitwise, Operator, Relation, Shift};
