//! A line whose connections are streams of bytes: its stages in both directions, what comes to them, and what they let go on.
#![tactic(auto)]

mod laws;
mod line;
mod passing;
mod types;

pub use laws::{over_changes_nothing, streams_pass, what_leaves_is_sent, worked_lines};
pub use line::TcpLine;
pub use types::{Action, TcpAsking, TcpOutcome};
