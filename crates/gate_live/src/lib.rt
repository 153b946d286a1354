//! The outside over sockets.
#![tactic(auto)]

mod live_site;
mod live_world;
mod log_line;
mod seeds;
mod stderr;

pub use live_site::LiveSite;
pub use live_world::LiveWorld;
pub use seeds::SeedSource;
pub use stderr::LogStream;
