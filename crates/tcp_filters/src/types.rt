// What is said of a line whose connections are streams of bytes.
use filter_chain::Asking;
use gate_io::Sent;
use gate_queue::Queue;

/// What the callback of a stage answers.
#[derive(Clone, Copy)]
pub enum Action {
    /// What the stage holds goes on.
    Continue,
    /// The stage goes on holding.
    Pause,
}

/// What comes of picking a stage of a line, and in which direction it stands: `response` of those that bytes of the server pass.
#[derive(Clone, Copy)]
pub struct TcpAsking {
    pub response: bool,
    pub asking: Asking,
}

/// What comes of passing items on.
#[derive(Drop)]
pub enum TcpOutcome {
    /// They are too many for the stage to which they go; the chains are as before.
    Over,
    /// This is sent, in order.
    Sends { sent: Queue<Sent> },
}
