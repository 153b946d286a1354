//! The sockets of one worker: the lines that come to it, what is heard of each in turn, and what goes to them.
#![tactic(auto)]

mod buffers;
mod calls;
mod desk;
mod laws;
mod looks;
mod moments;
mod notices;
mod origin;
mod sockets;
mod times;

pub use buffers::Buffers;
pub use desk::AcceptState;
pub use laws::worked_moments;
pub use looks::Looks;
pub use moments::Moments;
pub use notices::{KINDS, LEVEL, Notice, Notices, TEXTS};
pub use origin::{AcceptedLine, Acceptor, Mailbox, Neighbor, Origin, join_queue};
pub use sockets::{ORIGIN, Sockets};
pub use times::{Reading, TimeSource};
