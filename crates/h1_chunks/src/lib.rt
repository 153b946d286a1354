//! The chunked coding of HTTP/1.1: from a body's bytes to its data and its trailers.
#![tactic(auto)]

mod lines;
mod place;
mod reader;
mod section;
mod size;

pub use reader::{ChunkReader, ChunkStep};
