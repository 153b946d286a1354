//! A line over connections: what is read of them, what goes to them, and what waits for the server.
#![tactic(auto)]

mod duplex;
mod fault;
mod laws;
mod line;
mod lingering;
mod options;
mod peer;
mod room;
mod upstream;
mod waiting;

pub use duplex::{Duplex, Heard};
pub use fault::Fault;
pub use laws::worked_lasting;
pub use line::SocketPair;
pub use lingering::{LINGER, LINGER_MOST, Lingering, MOST_LEFT, MOST_LINGERING};
pub use options::probe;
pub use peer::Peer;
pub use room::ReadBuffer;
pub use upstream::Upstream;
pub use waiting::UnsentBytes;
