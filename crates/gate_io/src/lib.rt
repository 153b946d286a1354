//! The outside as traits: files, sources and sinks, in memory and over the real thing.
#![tactic(auto)]

mod ends;
mod event;
mod files;
mod gate;
mod host_files;
mod host_sink;
mod host_source;
mod laws;
mod mem_files;
mod mem_sink;
mod mem_site;
mod mem_source;
mod mem_world;
mod order;
mod passed;
mod settings;
mod sink;
mod site;
mod source;
mod world;

pub use ends::{Failed, FileEnd, WorldEnd};
pub use event::{Event, Sent, Side, What};
pub use files::Files;
pub use gate::{Gate, NoGate, Point};
pub use host_files::HostFiles;
pub use host_sink::HostSink;
pub use host_source::HostSource;
pub use laws::{
    memory_worlds_give_their_events, reads_go_on, worked_worlds, worlds_keep_to_their_scripts,
};
pub use mem_files::{MemFiles, TextList};
pub use mem_sink::MemSink;
pub use mem_site::MemSite;
pub use mem_source::MemSource;
pub use mem_world::{MemWorld, SentList};
pub use order::are_in_order;
pub use passed::{Passed, Wants};
pub use settings::{Settings, SiteEnd};
pub use sink::{Sink, write_whole};
pub use site::Site;
pub use source::{Source, read_whole};
pub use world::World;
