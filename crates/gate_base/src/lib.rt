//! The base types of the gateway: numbers in range, bytes, texts and lists.
#![tactic(auto)]

mod cause;
mod level;
mod members;
mod numbers;
mod octets;
mod text;

pub use cause::Cause;
pub use level::Level;
pub use members::{CallNos, LineList, Members, Pairs};
pub use numbers::{ContextId, LineNo, QueueId, VmNo, WorkerNo};
pub use octets::Octets;
pub use text::Text;

/// The one error of a call whose only refusal is want of memory: the allocator's own.
pub type OutOfMemory = std::alloc::AllocError;
