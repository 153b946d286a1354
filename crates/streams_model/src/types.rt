// What is done to a line of streams.
use gate_base::{ContextId, VmNo};

/// What is done to a line whose connections are streams of bytes.
#[derive(Clone, Copy)]
pub enum Change {
    /// What the stage of a context holds in a direction goes on.
    Resume {
        vm: VmNo,
        context: ContextId,
        response: bool,
    },
    /// The connection comes to its end.
    Close,
    /// The action of the callback of a stage is put in force: 0 is Continue.
    Act {
        response: bool,
        stage: usize,
        value: u32,
    },
}
